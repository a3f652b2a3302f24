//! What holds of the paths of programs.

ghost use Rattle.std.specs.Prelude.{◌≡◌, ◌+◌, ◌<◌, ◌≤◌, List, None, Some, length, max, ℕ};
ghost use Rattle.salt_ast.specs.Paths.{Position, at_number, next_on_branch, next_on_commit, next_on_failure, rest_of};
ghost use Rattle.salt_ast.specs.ProgramJudgement.{branch_fault};
ghost use Rattle.salt_ast.specs.declared.programs.Body.TheVariants.{Base};
ghost use Rattle.salt_ast.specs.declared.programs.PartDef.{PartDef};

/// From a part on as many statements may still run as the part has, and then as many as behind the
/// greater of its commit and its failure, in each program that is not refused for its branches.
pub fn rest_of_a_part()
    ensures { (parts : List PartDef) (k tries : ℕ) (p : PartDef) → branch_fault (Base parts) ≡ None → at_number k parts ≡ Some p
        → rest_of parts (Some (record { part = k; tries = tries }))
        ≡ length p.block + max (rest_of parts (next_on_commit parts k)) (rest_of parts (next_on_failure parts k tries)) }
{}

/// Each way leads to a later part that is there, or to the end, in each program that is not refused
/// for its branches.
pub fn ways_lead_on()
    ensures commit { (parts : List PartDef) (k : ℕ) (at : Position) → branch_fault (Base parts) ≡ None → next_on_commit parts k ≡ Some at
        → (k < at.part) × (at.part ≤ length parts) }
    ensures branch { (parts : List PartDef) (k : ℕ) (at : Position) → branch_fault (Base parts) ≡ None → next_on_branch parts k ≡ Some at
        → (k < at.part) × (at.part ≤ length parts) }
{}
