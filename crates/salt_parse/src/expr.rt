//! Expressions. There is room for so many parentheses, and only they are read by calls within calls.

ghost use Rattle.std.specs.Prelude.{◌≡◌, ◌<◌, OnOk, length, true};
ghost use Rattle.salt_parse.specs.Lone.{ends_operand, is_lone};
ghost use Rattle.salt_parse.specs.Parsing.{ReadsBuilt};
ghost use Rattle.salt_parse.specs.Reading.{atom_at, colon_at, comparison_at, level_at, level_precedence, minus_at, negation_at, operand_at, paren_at, within_at};
ghost use Rattle.salt_ast.specs.Symbols.{symbols_in};

use crate::built::{Built, Unary};
use crate::error::ParseErr;
use crate::parser::{Parser, signed};
use salt_ast::{Keyword, Lexeme, Sign};

/// Operations that group to the left, from those that bind loosest.
#[derive(Clone, Copy)]
pub enum Level {
    /// `or`.
    Disjunction,
    /// `and`.
    Conjunction,
    /// `+`, `-` and `||`.
    Sum,
    /// `*`.
    Product,
}

impl Level {
    /// How tightly its operations bind.
    fn precedence(self) -> u8
        ensures { result ≡ level_precedence self }
    {
        match self {
            Level::Disjunction => 1,
            Level::Conjunction => 2,
            Level::Sum => 4,
            Level::Product => 5,
        }
    }
}

/// Whether the operand in front of these tokens ends: no operation and no test for NULL comes next.
fn ends_operand(tokens: &[Lexeme<'_>]) -> bool
    ensures { result ≡ true → ends_operand (symbols_in tokens.now) ≡ true }
{
    match tokens {
        [] => true,
        [Lexeme::Sign(Sign::Comma), ..] => true,
        [Lexeme::Sign(Sign::Close), ..] => true,
        [Lexeme::Key(Keyword::Where), ..] => true,
        _ => false,
    }
}

impl<'a> Parser<'a> {
    /// Whether a literal or a name stands alone next.
    fn is_lone(&self) -> bool
        ensures { result ≡ true → is_lone self.now.left ≡ true }
    {
        match self.rest {
            [Lexeme::Int(_), rest @ ..] => ends_operand(rest),
            [Lexeme::Text(_), rest @ ..] => ends_operand(rest),
            [Lexeme::Name(_), rest @ ..] => ends_operand(rest),
            _ => false,
        }
    }

    /// Operands with operations of the level between them. What stands alone is read at once, and not by each level.
    pub fn expression(&mut self, level: Level, room: u32) -> Result<Built, ParseErr>
        ensures reads { ReadsBuilt result (level_at level (within_at room)) self.old self.new }
        ensures shrinks { OnOk result (length self.new.left < length self.old.left) }
    {
        if self.is_lone() {
            return self.atom(room);
        }
        self.operation(level, room)
    }

    /// Operands with operations of the level between them.
    #[cycle(expr)]
    #[tactic(auto, using(crate::proofs::Loop::tail_steps), unfolding(crate::specs::Reading::left_at))]
    fn operation(&mut self, level: Level, room: u32) -> Result<Built, ParseErr>
        ensures reads { ReadsBuilt result (level_at level (within_at room)) self.old self.new }
        ensures shrinks { OnOk result (length self.new.left < length self.old.left) }
    {
        let mut left = self.level_operand(level, room)?;
        while let Some(op) = self.take_operator(level.precedence()) {
            let right = self.level_operand(level, room)?;
            left = self.join(op, left, right)?;
        }
        Ok(left)
    }

    /// What operations of the level stand between.
    #[inline(always)]
    #[cycle(expr)]
    fn level_operand(&mut self, level: Level, room: u32) -> Result<Built, ParseErr>
        ensures reads { ReadsBuilt result (operand_at level (within_at room)) self.old self.new }
        ensures shrinks { OnOk result (length self.new.left < length self.old.left) }
    {
        match level {
            Level::Disjunction => self.operation(Level::Conjunction, room),
            Level::Conjunction => self.negation(room),
            Level::Sum => self.operation(Level::Product, room),
            Level::Product => self.atom(room),
        }
    }

    /// A comparison behind any number of `not`s.
    #[cycle(expr)]
    fn negation(&mut self, room: u32) -> Result<Built, ParseErr>
        ensures reads { ReadsBuilt result (negation_at (within_at room)) self.old self.new }
        ensures shrinks { OnOk result (length self.new.left < length self.old.left) }
    {
        let nots = self.skip_nots();
        let mut inside = self.comparison(room)?;
        for _ in 0..nots {
            inside = self.surround(Unary::Not, inside)?;
        }
        Ok(inside)
    }

    /// A sum, two that are compared, or one that is tested for NULL.
    #[cycle(expr)]
    #[tactic(auto, unfolding(crate::specs::Reading::once_at))]
    fn comparison(&mut self, room: u32) -> Result<Built, ParseErr>
        ensures reads { ReadsBuilt result (comparison_at (within_at room)) self.old self.new }
        ensures shrinks { OnOk result (length self.new.left < length self.old.left) }
    {
        let left = self.operation(Level::Sum, room)?;
        match self.take_operator(3) {
            None => self.null_test(left),
            Some(op) => {
                let right = self.operation(Level::Sum, room)?;
                Ok(self.join(op, left, right)?)
            }
        }
    }

    /// What stands behind a minus sign.
    fn negative(&mut self) -> Result<Built, ParseErr>
        ensures reads { ReadsBuilt result minus_at self.old self.new }
        ensures shrinks { OnOk result (length self.new.left < length self.old.left) }
    {
        let [Lexeme::Int(number), rest @ ..] = self.rest else {
            return Err(ParseErr::Syntax);
        };
        self.rest = rest;
        Ok(self.number(signed(true, *number)))
    }

    /// What stands behind a colon.
    fn named(&mut self) -> Result<Built, ParseErr>
        ensures reads { ReadsBuilt result colon_at self.old self.new }
        ensures shrinks { OnOk result (length self.new.left < length self.old.left) }
    {
        let [Lexeme::Name(name), rest @ ..] = self.rest else {
            return Err(ParseErr::Syntax);
        };
        self.rest = rest;
        self.variable(name)
    }

    /// A literal, a name, or what stands in parentheses.
    #[cycle(expr)]
    #[tactic(auto, unfolding(crate::specs::Reading::atom_at))]
    fn atom(&mut self, room: u32) -> Result<Built, ParseErr>
        ensures reads { ReadsBuilt result (atom_at (within_at room)) self.old self.new }
        ensures shrinks { OnOk result (length self.new.left < length self.old.left) }
    {
        let [first, rest @ ..] = self.rest else {
            return Err(ParseErr::Syntax);
        };
        self.rest = rest;
        match first {
            Lexeme::Int(number) => Ok(self.number(signed(false, *number))),
            Lexeme::Text(quoted) => self.text(quoted),
            Lexeme::Name(name) => self.column(name),
            Lexeme::Sign(Sign::Minus) => self.negative(),
            Lexeme::Sign(Sign::Colon) => self.named(),
            Lexeme::Sign(Sign::Open) => self.parenthesized(room),
            _ => Err(ParseErr::Syntax),
        }
    }

    /// What stands behind an opening parenthesis.
    #[cycle(expr)]
    #[tactic(auto, using(crate::proofs::Loop::within_laws))]
    fn parenthesized(&mut self, room: u32) -> Result<Built, ParseErr>
        ensures reads { ReadsBuilt result (paren_at (within_at room)) self.old self.new }
        ensures shrinks { OnOk result (length self.new.left < length self.old.left) }
    {
        if room == 0 {
            return Err(ParseErr::Syntax);
        }
        let inside = self.operation(Level::Disjunction, room - 1)?;
        self.take_sign(Sign::Close)?;
        Ok(inside)
    }
}
