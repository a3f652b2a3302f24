//! Ways lead to later parts or to the end, and each part but the first has one for its failure.

ghost use Rattle.std.specs.Prelude.{◌≡◌, ◌<◌, ◌≤◌, ◌^◌, length, option_map};
ghost use Rattle.salt_ast.specs.ProgramJudgement as judged;
ghost use Rattle.salt_program.specs.Refusals.{branch_meant, parts_in};

use salt_ast::{Body, Next, PartDef};

/// What is wrong with the ways of the part of this number.
#[derive(Clone, Copy, Debug, PartialEq, Eq)]
pub enum BranchFault {
    /// It says nothing of its failure.
    NoBranch(u32),
    /// A way leads to no later part and not to the end, or the first part has a way for its failure.
    Backward(u32),
}

/// Whether a way that is declared leads from a part of so many to no later one, and not to the end.
fn is_backward(count: usize, part: usize, way: Option<Next>) -> bool
    ensures { result ≡ judged.is_backward count part way }
{
    match way {
        None => false,
        Some(Next::End) => false,
        Some(Next::Part(to)) => to <= part as u64 || (count as u64) < to,
    }
}

/// What is wrong with the ways of one of so many parts.
fn part_fault(count: usize, number: u32, part: &PartDef) -> Option<BranchFault>
    ensures { option_map branch_meant result ≡ judged.part_fault count number part.now }
{
    let at = number as usize;
    let has_branch = part.on_failure.is_some();
    if 1 < at && !has_branch {
        return Some(BranchFault::NoBranch(number));
    }
    let is_backward = is_backward(count, at, part.then) || is_backward(count, at, part.on_failure);
    if is_backward || at == 1 && has_branch {
        return Some(BranchFault::Backward(number));
    }
    None
}

fn fault_in_parts(parts: &[PartDef]) -> Option<BranchFault>
    requires { length parts.now < 2 ^ 32 }
    ensures { option_map branch_meant result ≡ judged.fault_in_parts (length parts.now) 1 parts.now }
{
    for (at, part) in parts.iter().enumerate() {
        if let Some(fault) = part_fault(parts.len(), at as u32 + 1, part) {
            return Some(fault);
        }
    }
    None
}

/// What is wrong with the ways of a program's parts, for the least part.
pub fn branch_fault(body: &Body) -> Option<BranchFault>
    requires { length (parts_in body.now) < 2 ^ 32 }
    ensures { option_map branch_meant result ≡ judged.branch_fault body.now }
{
    match body {
        Body::Acid(_) => None,
        Body::Base(parts) => fault_in_parts(parts.as_slice()),
    }
}
