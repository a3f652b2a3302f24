//! Statements.

ghost use Rattle.std.specs.Prelude.{◌≡◌, ◌<◌, OnOk, length};
ghost use Rattle.salt_parse.specs.Parsing.{ReadsWith};
ghost use Rattle.salt_parse.specs.Reading.{within_at};
ghost use Rattle.salt_parse.specs.StatementReading.{change_at, count_at, delete_at, enclosed_at, insert_at, into_at, is_into, names_at, only_key_at};
ghost use Rattle.salt_parse.specs.StatementReading.{select_at, select_into_at, select_rows_at, set_at, sets_at, statement_at, update_at, values_at, what_at};

use crate::error::ParseErr;
use crate::parser::Parser;
use crate::sealed::Sealed;
use salt_ast::{Expr, Exprs, Keyword, Lexeme, Set, Sets, Sign, Statement, What};
use salt_values::{Name, Names};
use sqlite_items::Items;

impl<'a> Parser<'a> {
    /// What columns take, with commas between them.
    fn values(&mut self, room: u32) -> Result<Exprs, ParseErr>
        ensures reads { ReadsWith result (values_at (within_at room)) self.old self.new }
        ensures shrinks { OnOk result (length self.new.left < length self.old.left) }
    {
        let mut values = Items::new(self.alloc());
        let first = self.value(room)?;
        first.push_to(&mut values)?;
        while self.skip_sign(Sign::Comma) {
            let value = self.value(room)?;
            value.push_to(&mut values)?;
        }
        Ok(values)
    }

    /// Names with commas between them.
    fn names(&mut self) -> Result<Names, ParseErr>
        ensures reads { ReadsWith result names_at self.old self.new }
        ensures shrinks { OnOk result (length self.new.left < length self.old.left) }
    {
        let mut names = Items::new(self.alloc());
        names.push(self.name()?)?;
        while self.skip_sign(Sign::Comma) {
            names.push(self.name()?)?;
        }
        Ok(names)
    }

    /// A column and the value that it takes.
    fn set(&mut self, room: u32) -> Result<Sealed<Set>, ParseErr>
        ensures reads { ReadsWith result (set_at (within_at room)) self.old self.new }
        ensures shrinks { OnOk result (length self.new.left < length self.old.left) }
    {
        let column = self.name()?;
        self.take_sign(Sign::Equal)?;
        let value = self.value(room)?;
        Ok(Sealed::new(Set {
            column,
            value: value.into_inner(),
        }))
    }

    /// Columns and their values, with commas between them.
    fn sets(&mut self, room: u32) -> Result<Sets, ParseErr>
        ensures reads { ReadsWith result (sets_at (within_at room)) self.old self.new }
        ensures shrinks { OnOk result (length self.new.left < length self.old.left) }
    {
        let mut sets = Items::new(self.alloc());
        let first = self.set(room)?;
        first.push_to(&mut sets)?;
        while self.skip_sign(Sign::Comma) {
            let set = self.set(room)?;
            set.push_to(&mut sets)?;
        }
        Ok(sets)
    }

    /// A name in parentheses.
    fn enclosed(&mut self) -> Result<Name, ParseErr>
        ensures reads { ReadsWith result enclosed_at self.old self.new }
        ensures shrinks { OnOk result (length self.new.left < length self.old.left) }
    {
        self.take_sign(Sign::Open)?;
        let name = self.name()?;
        self.take_sign(Sign::Close)?;
        Ok(name)
    }

    /// What stands behind `count`.
    fn count(&mut self) -> Result<What, ParseErr>
        ensures reads { ReadsWith result count_at self.old self.new }
        ensures shrinks { OnOk result (length self.new.left < length self.old.left) }
    {
        self.take_sign(Sign::Open)?;
        self.take_sign(Sign::Star)?;
        self.take_sign(Sign::Close)?;
        Ok(What::Count)
    }

    /// What a SELECT shows.
    fn what(&mut self) -> Result<What, ParseErr>
        ensures reads { ReadsWith result what_at self.old self.new }
        ensures shrinks { OnOk result (length self.new.left < length self.old.left) }
    {
        if self.skip_sign(Sign::Star) {
            return Ok(What::All);
        }
        if self.skip_key(Keyword::Count) {
            return self.count();
        }
        if self.skip_key(Keyword::Sum) {
            return Ok(What::Sum(self.enclosed()?));
        }
        if self.skip_key(Keyword::Min) {
            return Ok(What::Min(self.enclosed()?));
        }
        if self.skip_key(Keyword::Max) {
            return Ok(What::Max(self.enclosed()?));
        }
        Ok(What::Columns(self.names()?))
    }

    /// What stands behind `insert`.
    fn insert(&mut self, room: u32) -> Result<Sealed<Statement>, ParseErr>
        ensures reads { ReadsWith result (insert_at (within_at room)) self.old self.new }
        ensures shrinks { OnOk result (length self.new.left < length self.old.left) }
    {
        self.take_key(Keyword::Into)?;
        let table = self.name()?;
        self.take_key(Keyword::Values)?;
        self.take_sign(Sign::Open)?;
        let values = self.values(room)?;
        self.take_sign(Sign::Close)?;
        Ok(Sealed::new(Statement::Insert { table, values }))
    }

    /// Whether a name and `into` come next.
    fn is_into(&self) -> bool
        ensures { result ≡ is_into self.now.left }
    {
        matches!(self.rest, [Lexeme::Name(_), Lexeme::Key(Keyword::Into), ..])
    }

    /// The names behind `select` up to `from`, where `into` stands between them.
    fn into_names(&mut self) -> Result<(Name, Name), ParseErr>
        ensures reads { ReadsWith result into_at self.old self.new }
        ensures shrinks { OnOk result (length self.new.left < length self.old.left) }
    {
        let column = self.name()?;
        self.take_key(Keyword::Into)?;
        self.take_sign(Sign::Colon)?;
        let var = self.name()?;
        Ok((column, var))
    }

    /// A key alone, behind a table's name.
    fn only_key(&mut self, room: u32) -> Result<Sealed<Expr>, ParseErr>
        ensures reads { ReadsWith result (only_key_at (within_at room)) self.old self.new }
        ensures shrinks { OnOk result (length self.new.left < length self.old.left) }
    {
        self.take_key(Keyword::Where)?;
        self.take_key(Keyword::Key)?;
        self.take_sign(Sign::Equal)?;
        self.operand(room)
    }

    fn select_into(&mut self, room: u32) -> Result<Sealed<Statement>, ParseErr>
        ensures reads { ReadsWith result (select_into_at (within_at room)) self.old self.new }
        ensures shrinks { OnOk result (length self.new.left < length self.old.left) }
    {
        let (column, var) = self.into_names()?;
        self.take_key(Keyword::From)?;
        let table = self.name()?;
        let key = self.only_key(room)?;
        Ok(Sealed::new(Statement::SelectInto {
            column,
            var,
            table,
            key: key.into_inner(),
        }))
    }

    fn select_rows(&mut self, room: u32) -> Result<Sealed<Statement>, ParseErr>
        ensures reads { ReadsWith result (select_rows_at (within_at room)) self.old self.new }
        ensures shrinks { OnOk result (length self.new.left < length self.old.left) }
    {
        let what = self.what()?;
        self.take_key(Keyword::From)?;
        let table = self.name()?;
        let scan = self.scan(room)?;
        Ok(Sealed::new(Statement::Select {
            what,
            table,
            scan: scan.into_inner(),
        }))
    }

    /// What stands behind `select`.
    fn select(&mut self, room: u32) -> Result<Sealed<Statement>, ParseErr>
        ensures reads { ReadsWith result (select_at (within_at room)) self.old self.new }
        ensures shrinks { OnOk result (length self.new.left < length self.old.left) }
    {
        if self.is_into() {
            self.select_into(room)
        } else {
            self.select_rows(room)
        }
    }

    /// What stands behind `update`.
    fn update(&mut self, room: u32) -> Result<Sealed<Statement>, ParseErr>
        ensures reads { ReadsWith result (update_at (within_at room)) self.old self.new }
        ensures shrinks { OnOk result (length self.new.left < length self.old.left) }
    {
        let table = self.name()?;
        self.take_key(Keyword::Set)?;
        let sets = self.sets(room)?;
        let scan = self.scan(room)?;
        Ok(Sealed::new(Statement::Update {
            table,
            sets,
            scan: scan.into_inner(),
        }))
    }

    /// What stands behind `delete`.
    fn delete(&mut self, room: u32) -> Result<Sealed<Statement>, ParseErr>
        ensures reads { ReadsWith result (delete_at (within_at room)) self.old self.new }
        ensures shrinks { OnOk result (length self.new.left < length self.old.left) }
    {
        self.take_key(Keyword::From)?;
        let table = self.name()?;
        let scan = self.scan(room)?;
        Ok(Sealed::new(Statement::Delete {
            table,
            scan: scan.into_inner(),
        }))
    }

    /// UPDATE, DELETE or ENSURE.
    fn change(&mut self, room: u32) -> Result<Sealed<Statement>, ParseErr>
        ensures reads { ReadsWith result (change_at (within_at room)) self.old self.new }
        ensures shrinks { OnOk result (length self.new.left < length self.old.left) }
    {
        if self.skip_key(Keyword::Update) {
            return self.update(room);
        }
        if self.skip_key(Keyword::Delete) {
            return self.delete(room);
        }
        self.take_key(Keyword::Ensure)?;
        let condition = self.whole(room)?;
        Ok(Sealed::new(Statement::Ensure(condition.into_inner())))
    }

    /// A statement, with room for so many parentheses in its expressions, and for so many in those of INSERT.
    #[tactic(auto, unfolding(crate::specs::StatementReading::statement_at))]
    pub fn statement(&mut self, room: u32, deeper: u32) -> Result<Sealed<Statement>, ParseErr>
        ensures reads { ReadsWith result (statement_at (within_at room) (within_at deeper)) self.old self.new }
        ensures shrinks { OnOk result (length self.new.left < length self.old.left) }
    {
        if self.skip_key(Keyword::Insert) {
            return self.insert(deeper);
        }
        if self.skip_key(Keyword::Select) {
            return self.select(room);
        }
        self.change(room)
    }
}
