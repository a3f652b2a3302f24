//! What reading an expression builds.

ghost use Rattle.salt_values.specs.declared.limits.TheConstants.{DEPTH_MOST};
ghost use Rattle.std.specs.Prelude.{◌+◌, ◌≤◌};

use crate::sealed::Sealed;
use salt_ast::Expr;

/// An expression while it is read: its tree while no limit is passed, and its height, where one above the limit is all above it.
#[derive(Drop)]
pub struct Built {
    pub tree: Sealed<Expr>,
    pub height: u32,
    ghost low: { height ≤ DEPTH_MOST + 1 },
}

/// An operation on one operand.
#[derive(Clone, Copy)]
pub enum Unary {
    Not,
    IsNull,
    IsNotNull,
}
