//! What stands behind an early opening.

ghost use Rattle.law_states.specs.DependencyCalls.{AreSame};
ghost use Rattle.law_states.specs.KeptCover.{group_of};
ghost use Rattle.law_states.specs.KeptLocks.{numbered_from};
ghost use Rattle.law_states.specs.Members.{SameMembers};
ghost use Rattle.law_states.specs.UnitFacts.{covered_by};
ghost use Rattle.salt_books.specs.Known.{IsKnown};
ghost use Rattle.salt_deps.specs.Kept.{dependencies};
ghost use Rattle.salt_model.specs.Kept.{Kept};
ghost use Rattle.salt_values.specs.Id.{in_order};
ghost use Rattle.salt_values.specs.declared.cont.Cont.{Cont};
ghost use Rattle.std.specs.Prelude.{IfOk, length, map, ◌≡◌};

use crate::cover::{cover, cover_count};
use salt_books::Known;
use salt_deps::Deps;
use salt_locks::LockTable;
use salt_values::Id;
use std::alloc::{AllocError, Global};

/// The locks, so many, that hide the base tables; who reads from whom; and the programs that are unfinished, in order of their names.
#[derive(Drop)]
pub struct Restored {
    pub locks: LockTable,
    pub taken: u64,
    pub deps: Deps,
    pub named: Vec<Id>,
}

/// What an engine begins with behind an early opening of what is known: its first program holds all keys of each base table to write, and
/// each program reads from each other one. With no program unfinished nothing is held.
pub fn restore(alloc: Global, known: &Known) -> Result<Restored, AllocError>
    ensures named { IfOk result (λ restored. (k : Kept) → IsKnown known.now k → restored.named.items ≡ in_order (map (λ (c : Cont). c.base) k.conts)) }
    ensures locks { IfOk result (λ restored. (k : Kept) → IsKnown known.now k → SameMembers restored.locks (numbered_from 0 (covered_by k restored.named.items))) }
    ensures taken { IfOk result (λ restored. (k : Kept) → IsKnown known.now k → restored.taken ≡ length (covered_by k restored.named.items)) }
    ensures group { IfOk result (λ restored. AreSame (group_of restored.named.items) (dependencies restored.deps)) }
{
    let bases = known.bases()?;
    let numbers = known.base_tables()?;
    let named = bases.as_slice();
    let tables = numbers.as_slice();
    let locks = cover(alloc, known.boot(), tables, named)?;
    let taken = cover_count(tables, named);
    let deps = Deps::of_group(alloc, named)?;
    Ok(Restored {
        locks,
        taken,
        deps,
        named: bases,
    })
}
