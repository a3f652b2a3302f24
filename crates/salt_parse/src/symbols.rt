//! Taking the symbols that are left, one after the other.

ghost use Rattle.std.specs.Prelude.{◌≡◌, ◌<◌, ◌≤◌, IfNone, IsTrue, OnOk, OnSome, None, Some, false, if◌then◌else◌, length};
ghost use Rattle.salt_ast.specs.Operators.{precedence};
ghost use Rattle.salt_parse.specs.Flags.{BuiltTree, Flags};
ghost use Rattle.salt_parse.specs.Parsing.{LeavesSymbols};
ghost use Rattle.salt_parse.specs.Reading.{Reader, after, next_operator, nots_at, under_nots};
ghost use Rattle.salt_ast.specs.Symbols.{key, sign};

use crate::error::ParseErr;
use crate::parser::Parser;
use salt_ast::{Keyword, Lexeme, Op, Sign};

/// How tightly an operation binds.
fn precedence(op: Op) -> u8
    ensures { result ≡ precedence op }
{
    match op {
        Op::Or => 1,
        Op::And => 2,
        Op::Equal | Op::Unequal | Op::Less | Op::AtMost | Op::Greater | Op::AtLeast => 3,
        Op::Add | Op::Sub | Op::Join => 4,
        Op::Mul => 5,
    }
}

impl<'a> Parser<'a> {
    /// Takes the operation that comes next, if it is one of this precedence.
    #[inline]
    pub fn take_operator(&mut self, level: u8) -> Option<Op>
        ensures takes { (result, self.new.left) ≡ next_operator level self.old.left }
        ensures flags { self.new.flags ≡ self.old.flags }
        ensures shrinks { OnSome result (length self.new.left < length self.old.left) }
        ensures stays { IfNone result (self.new ≡ self.old) }
    {
        let [first, rest @ ..] = self.rest else {
            return None;
        };
        let op = match first {
            Lexeme::Key(Keyword::Or) => Op::Or,
            Lexeme::Key(Keyword::And) => Op::And,
            Lexeme::Sign(Sign::Equal) => Op::Equal,
            Lexeme::Sign(Sign::Unequal) => Op::Unequal,
            Lexeme::Sign(Sign::Less) => Op::Less,
            Lexeme::Sign(Sign::AtMost) => Op::AtMost,
            Lexeme::Sign(Sign::Greater) => Op::Greater,
            Lexeme::Sign(Sign::AtLeast) => Op::AtLeast,
            Lexeme::Sign(Sign::Plus) => Op::Add,
            Lexeme::Sign(Sign::Minus) => Op::Sub,
            Lexeme::Sign(Sign::Bars) => Op::Join,
            Lexeme::Sign(Sign::Star) => Op::Mul,
            _ => return None,
        };
        if precedence(op) != level {
            return None;
        }
        self.rest = rest;
        Some(op)
    }

    /// Takes this keyword, if it comes next.
    #[tactic(auto, unfolding(crate::specs::Reading::after))]
    pub fn skip_key(&mut self, wanted: Keyword) -> bool
        ensures reads { after (key wanted) self.old.left ≡ (if result then Some self.new.left else None) }
        ensures flags { self.new.flags ≡ self.old.flags }
        ensures shrinks { IsTrue result → length self.new.left < length self.old.left }
        ensures stays { result ≡ false → self.new ≡ self.old }
    {
        match self.rest {
            [Lexeme::Key(first), rest @ ..] if *first == wanted => {
                self.rest = rest;
                true
            }
            _ => false,
        }
    }

    /// Takes this sign, if it comes next.
    #[tactic(auto, unfolding(crate::specs::Reading::after))]
    pub fn skip_sign(&mut self, wanted: Sign) -> bool
        ensures reads { after (sign wanted) self.old.left ≡ (if result then Some self.new.left else None) }
        ensures flags { self.new.flags ≡ self.old.flags }
        ensures shrinks { IsTrue result → length self.new.left < length self.old.left }
        ensures stays { result ≡ false → self.new ≡ self.old }
    {
        match self.rest {
            [Lexeme::Sign(first), rest @ ..] if *first == wanted => {
                self.rest = rest;
                true
            }
            _ => false,
        }
    }

    /// Takes this keyword, which has to come next.
    pub fn take_key(&mut self, wanted: Keyword) -> Result<(), ParseErr>
        ensures reads { LeavesSymbols result self.new.left (after (key wanted) self.old.left) }
        ensures flags { self.new.flags ≡ self.old.flags }
        ensures shrinks { OnOk result (length self.new.left < length self.old.left) }
    {
        if self.skip_key(wanted) {
            Ok(())
        } else {
            Err(ParseErr::Syntax)
        }
    }

    /// Takes this sign, which has to come next.
    pub fn take_sign(&mut self, wanted: Sign) -> Result<(), ParseErr>
        ensures reads { LeavesSymbols result self.new.left (after (sign wanted) self.old.left) }
        ensures flags { self.new.flags ≡ self.old.flags }
        ensures shrinks { OnOk result (length self.new.left < length self.old.left) }
    {
        if self.skip_sign(wanted) {
            Ok(())
        } else {
            Err(ParseErr::Syntax)
        }
    }

    /// Takes the `not`s that come next, and counts them.
    pub fn skip_nots(&mut self) -> usize
        ensures reads { (operand : Reader BuiltTree) (f : Flags) → nots_at operand f self.old.left ≡ under_nots result (operand f self.new.left) }
        ensures flags { self.new.flags ≡ self.old.flags }
        ensures shrinks { length self.new.left ≤ length self.old.left }
    {
        // No more symbols are left than a slice can hold.
        let _left = self.rest;
        let mut nots: usize = 0;
        while self.skip_key(Keyword::Not) {
            nots += 1;
        }
        nots
    }
}
