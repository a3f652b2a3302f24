//! Which rows a statement is for.

ghost use Rattle.std.specs.Prelude.{◌<◌, ◌≤◌, OnOk, length};
ghost use Rattle.salt_parse.specs.Parsing.{ReadsWith};
ghost use Rattle.salt_parse.specs.Reading.{conjunction_at, expression_at, sum_at, within_at};
ghost use Rattle.salt_parse.specs.StatementReading.{and_at, between_at, bound_at, name_at, scan_at, tree_at};

use crate::built::Built;
use crate::error::ParseErr;
use crate::expr::Level;
use crate::parser::Parser;
use crate::sealed::Sealed;
use salt_ast::{Bound, Expr, Keyword, Lexeme, Scan, Sign};
use salt_values::Name;

impl<'a> Parser<'a> {
    /// A name, while no limit is passed.
    pub fn name(&mut self) -> Result<Name, ParseErr>
        ensures reads { ReadsWith result name_at self.old self.new }
        ensures shrinks { OnOk result (length self.new.left < length self.old.left) }
    {
        let [Lexeme::Name(name), rest @ ..] = self.rest else {
            return Err(ParseErr::Syntax);
        };
        self.rest = rest;
        Ok(self.name_of(name)?)
    }

    /// An expression.
    pub fn whole(&mut self, room: u32) -> Result<Sealed<Expr>, ParseErr>
        ensures reads { ReadsWith result (tree_at (expression_at (within_at room))) self.old self.new }
        ensures shrinks { OnOk result (length self.new.left < length self.old.left) }
    {
        let Built { tree, height: _ } = self.expression(Level::Disjunction, room)?;
        Ok(tree)
    }

    /// An expression that is no comparison.
    pub fn operand(&mut self, room: u32) -> Result<Sealed<Expr>, ParseErr>
        ensures reads { ReadsWith result (tree_at (sum_at (within_at room))) self.old self.new }
        ensures shrinks { OnOk result (length self.new.left < length self.old.left) }
    {
        let Built { tree, height: _ } = self.expression(Level::Sum, room)?;
        Ok(tree)
    }

    /// An expression without `or`.
    pub fn conjunct(&mut self, room: u32) -> Result<Sealed<Expr>, ParseErr>
        ensures reads { ReadsWith result (tree_at (conjunction_at (within_at room))) self.old self.new }
        ensures shrinks { OnOk result (length self.new.left < length self.old.left) }
    {
        let Built { tree, height: _ } = self.expression(Level::Conjunction, room)?;
        Ok(tree)
    }

    /// `and` and a filter, or nothing.
    fn and_filter(&mut self, room: u32) -> Result<Sealed<Option<Expr>>, ParseErr>
        ensures reads { ReadsWith result (and_at (within_at room)) self.old self.new }
        ensures shrinks { OnOk result (length self.new.left ≤ length self.old.left) }
    {
        if !self.skip_key(Keyword::And) {
            return Ok(Sealed::new(None));
        }
        let filter = self.conjunct(room)?;
        Ok(Sealed::new(Some(filter.into_inner())))
    }

    /// What stands behind `where key between`.
    fn between(&mut self, room: u32) -> Result<Sealed<Scan>, ParseErr>
        ensures reads { ReadsWith result (between_at (within_at room)) self.old self.new }
        ensures shrinks { OnOk result (length self.new.left < length self.old.left) }
    {
        let low = self.operand(room)?;
        self.take_key(Keyword::And)?;
        let high = self.operand(room)?;
        let filter = self.and_filter(room)?;
        Ok(Sealed::new(Scan {
            bound: Bound::Between(low.into_inner(), high.into_inner()),
            filter: filter.into_inner(),
        }))
    }

    /// What stands behind `where key`.
    fn bounded(&mut self, room: u32) -> Result<Sealed<Scan>, ParseErr>
        ensures reads { ReadsWith result (bound_at (within_at room)) self.old self.new }
        ensures shrinks { OnOk result (length self.new.left < length self.old.left) }
    {
        if self.skip_key(Keyword::Between) {
            return self.between(room);
        }
        self.take_sign(Sign::Equal)?;
        let key = self.operand(room)?;
        let filter = self.and_filter(room)?;
        Ok(Sealed::new(Scan {
            bound: Bound::Key(key.into_inner()),
            filter: filter.into_inner(),
        }))
    }

    /// Which rows: `where` and what stands behind it, or all rows.
    pub fn scan(&mut self, room: u32) -> Result<Sealed<Scan>, ParseErr>
        ensures reads { ReadsWith result (scan_at (within_at room)) self.old self.new }
        ensures shrinks { OnOk result (length self.new.left ≤ length self.old.left) }
    {
        if !self.skip_key(Keyword::Where) {
            return Ok(Sealed::new(Scan {
                bound: Bound::All,
                filter: None,
            }));
        }
        if self.skip_key(Keyword::Key) {
            return self.bounded(room);
        }
        let filter = self.whole(room)?;
        Ok(Sealed::new(Scan {
            bound: Bound::All,
            filter: Some(filter.into_inner()),
        }))
    }
}
