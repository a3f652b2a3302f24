//! Tests for NULL, and NULL as what a column takes.

ghost use Rattle.std.specs.Prelude.{◌<◌, ◌≤◌, OnOk, length};
ghost use Rattle.salt_parse.specs.Flags.{built_of};
ghost use Rattle.salt_parse.specs.Parsing.{ReadsWith, ReadsBuilt};
ghost use Rattle.salt_parse.specs.Reading.{is_at, null_test_at, within_at};
ghost use Rattle.salt_parse.specs.StatementReading.{value_at};

use crate::built::{Built, Unary};
use crate::error::ParseErr;
use crate::parser::Parser;
use crate::sealed::Sealed;
use salt_ast::{Expr, Keyword};
use salt_values::Value;

impl<'a> Parser<'a> {
    /// What stands behind `is`.
    fn is_null(&mut self, operand: Built) -> Result<Built, ParseErr>
        ensures reads { ReadsBuilt result (is_at (built_of operand)) self.old self.new }
        ensures shrinks { OnOk result (length self.new.left < length self.old.left) }
    {
        let op = if self.skip_key(Keyword::Not) {
            Unary::IsNotNull
        } else {
            Unary::IsNull
        };
        self.take_key(Keyword::Null)?;
        Ok(self.surround(op, operand)?)
    }

    /// A test of the operand for NULL, or the operand alone.
    #[inline]
    pub fn null_test(&mut self, operand: Built) -> Result<Built, ParseErr>
        ensures reads { ReadsBuilt result (null_test_at (built_of operand)) self.old self.new }
        ensures shrinks { OnOk result (length self.new.left ≤ length self.old.left) }
    {
        if !self.skip_key(Keyword::Is) {
            return Ok(operand);
        }
        self.is_null(operand)
    }

    /// What a column takes: an expression, or `null`.
    pub fn value(&mut self, room: u32) -> Result<Sealed<Expr>, ParseErr>
        ensures reads { ReadsWith result (value_at (within_at room)) self.old self.new }
        ensures shrinks { OnOk result (length self.new.left < length self.old.left) }
    {
        if self.skip_key(Keyword::Null) {
            return Ok(Sealed::new(Expr::Lit(Value::Null)));
        }
        self.whole(room)
    }
}
