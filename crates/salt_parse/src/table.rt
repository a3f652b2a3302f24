//! Tables.

ghost use Rattle.std.specs.Prelude.{◌≡◌, ◌<◌, IsTrue, None, OnOk, Some, false, if◌then◌else◌, length};
ghost use Rattle.salt_parse.specs.Parsing.{GivesAs, ReadsWith};
ghost use Rattle.salt_parse.specs.Reading.{within_at};
ghost use Rattle.salt_parse.specs.TableReading.{check_at, checks_at, definition_at, field_at, field_comma, fields_at, further_column_at, kind_at, plain_column_at, table_at};

use crate::error::ParseErr;
use crate::parser::Parser;
use crate::sealed::Sealed;
use salt_ast::{ColType, Expr, Exprs, Field, Fields, Keyword, Lexeme, LimitName, Sign, TableDef};
use salt_values::limits::{CHECKS_MOST, COLUMNS_MOST};
use sqlite_items::Items;

impl<'a> Parser<'a> {
    /// Takes a column's type.
    fn take_kind(&mut self) -> Result<ColType, ParseErr>
        ensures reads { GivesAs result self.new.left (kind_at self.old.left) }
        ensures flags { self.new.flags ≡ self.old.flags }
        ensures shrinks { OnOk result (length self.new.left < length self.old.left) }
    {
        if self.skip_key(Keyword::Int) {
            return Ok(ColType::Int);
        }
        self.take_key(Keyword::Text)?;
        Ok(ColType::Text)
    }

    /// Takes the comma that comes next, if no check stands behind it.
    #[tactic(auto, unfolding(crate::specs::Reading::after))]
    fn skip_field_comma(&mut self) -> bool
        ensures reads { field_comma self.old.left ≡ (if result then Some self.new.left else None) }
        ensures flags { self.new.flags ≡ self.old.flags }
        ensures shrinks { IsTrue result → length self.new.left < length self.old.left }
        ensures stays { result ≡ false → self.new ≡ self.old }
    {
        match self.rest {
            [Lexeme::Sign(Sign::Comma), Lexeme::Key(Keyword::Check), ..] => false,
            [Lexeme::Sign(Sign::Comma), rest @ ..] => {
                self.rest = rest;
                true
            }
            _ => false,
        }
    }

    /// A name and a type.
    pub fn field(&mut self) -> Result<Field, ParseErr>
        ensures reads { ReadsWith result field_at self.old self.new }
        ensures shrinks { OnOk result (length self.new.left < length self.old.left) }
    {
        let name = self.name()?;
        let kind = self.take_kind()?;
        Ok(Field {
            name,
            kind,
            nullable: false,
        })
    }

    /// A column that is no key.
    fn plain_column(&mut self) -> Result<Field, ParseErr>
        ensures reads { ReadsWith result plain_column_at self.old self.new }
        ensures shrinks { OnOk result (length self.new.left < length self.old.left) }
    {
        let mut field = self.field()?;
        if self.skip_key(Keyword::Null) {
            field.nullable = true;
        }
        Ok(field)
    }

    /// The column that stands behind so many others.
    fn further_column(&mut self, count: usize) -> Result<Field, ParseErr>
        ensures reads { ReadsWith result (further_column_at count) self.old self.new }
        ensures shrinks { OnOk result (length self.new.left < length self.old.left) }
    {
        self.note(COLUMNS_MOST <= count, LimitName::Columns);
        self.plain_column()
    }

    /// The key's column and further ones.
    fn fields(&mut self) -> Result<Fields, ParseErr>
        ensures { ReadsWith result fields_at self.old self.new }
    {
        let mut fields = Items::new(self.alloc());
        let key = self.field()?;
        self.take_key(Keyword::Key)?;
        fields.push(key)?;
        while self.skip_field_comma() {
            let field = self.further_column(fields.len())?;
            fields.push(field)?;
        }
        Ok(fields)
    }

    /// The check that stands behind so many others.
    fn check(&mut self, room: u32, count: usize) -> Result<Sealed<Expr>, ParseErr>
        ensures reads { ReadsWith result (check_at (within_at room) count) self.old self.new }
        ensures shrinks { OnOk result (length self.new.left < length self.old.left) }
    {
        self.take_key(Keyword::Check)?;
        self.note(CHECKS_MOST <= count, LimitName::Checks);
        self.whole(room)
    }

    /// The checks, each behind a comma.
    fn checks(&mut self, room: u32) -> Result<Exprs, ParseErr>
        ensures { ReadsWith result (checks_at (within_at room)) self.old self.new }
    {
        let mut checks = Items::new(self.alloc());
        while self.skip_sign(Sign::Comma) {
            let check = self.check(room, checks.len())?;
            check.push_to(&mut checks)?;
        }
        Ok(checks)
    }

    /// What stands behind `create table`.
    fn definition(&mut self, room: u32) -> Result<Sealed<TableDef>, ParseErr>
        ensures { ReadsWith result (definition_at (within_at room)) self.old self.new }
    {
        let name = self.name()?;
        self.take_sign(Sign::Open)?;
        let columns = self.fields()?;
        let checks = self.checks(room)?;
        self.take_sign(Sign::Close)?;
        Ok(Sealed::new(TableDef {
            name,
            columns,
            checks,
        }))
    }

    /// A table, with room for so many parentheses in its checks.
    #[tactic(auto, unfolding(crate::specs::TableReading::table_at))]
    pub fn table(&mut self, room: u32) -> Result<Sealed<TableDef>, ParseErr>
        ensures { ReadsWith result (table_at (within_at room)) self.old self.new }
    {
        self.take_key(Keyword::Create)?;
        self.take_key(Keyword::Table)?;
        self.definition(room)
    }
}
