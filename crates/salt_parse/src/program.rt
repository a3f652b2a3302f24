//! Programs.

ghost use Rattle.std.specs.Prelude.{◌≡◌, ◌<◌, ◌≤◌, OnOk, length};
ghost use Rattle.salt_parse.specs.Lists.{counted_at};
ghost use Rattle.salt_parse.specs.Parsing.{ReadsWith};
ghost use Rattle.salt_parse.specs.ProgramReading.{base_at, block_at, body_at, branch_at, fields_within, kept_retry, number_at, on_commit_at};
ghost use Rattle.salt_parse.specs.ProgramReading.{on_failure_at, parameters_at, part_at, parts_at, program_at, retry_at, statements_at};
ghost use Rattle.salt_parse.specs.ProgramReading.{variables_at, way_at};
ghost use Rattle.salt_parse.specs.Reading.{within_at};
ghost use Rattle.salt_parse.specs.StatementReading.{statement_at};
ghost use Rattle.salt_parse.specs.TableReading.{field_at};
ghost use Rattle.salt_ast.specs.declared.limit.LimitName.TheVariants as limits;
ghost use Rattle.salt_values.specs.declared.limits.TheConstants as most;

use crate::error::ParseErr;
use crate::parser::Parser;
use crate::sealed::Sealed;
use salt_ast::{
    Body, Field, Fields, Keyword, Lexeme, LimitName, Next, PartDef, Parts, ProgramDef, Sign,
    Statement, Statements,
};
use salt_values::limits::{
    PARAMETERS_MOST, PARTS_MOST, RETRY_MOST, STATEMENTS_MOST, VARIABLES_MOST,
};
use sqlite_items::Items;

/// The largest number that has no limit of its own.
const NUMBER_MOST: u64 = 0x7fff_ffff_ffff_ffff;

/// How often a part is tried again, where this is within the limit.
fn kept_retry(number: u64) -> u8
    ensures { result ≡ kept_retry number }
{
    if number < 1 || RETRY_MOST < number {
        0
    } else {
        number as u8
    }
}

impl<'a> Parser<'a> {
    /// The name and type that stand behind so many others, where there may be `most` in all.
    fn counted_field(
        &mut self,
        most: usize,
        limit: LimitName,
        count: usize,
    ) -> Result<Field, ParseErr>
        ensures reads { ReadsWith result (counted_at most limit field_at count) self.old self.new }
        ensures shrinks { OnOk result (length self.new.left < length self.old.left) }
    {
        self.note(most <= count, limit);
        self.field()
    }

    /// Names and types with commas between them, where there may be `most` in all.
    fn fields_within(&mut self, most: usize, limit: LimitName) -> Result<Fields, ParseErr>
        ensures { ReadsWith result (fields_within most limit) self.old self.new }
    {
        let mut fields = Items::new(self.alloc());
        let first = self.counted_field(most, limit, 0)?;
        fields.push(first)?;
        while self.skip_sign(Sign::Comma) {
            let field = self.counted_field(most, limit, fields.len())?;
            fields.push(field)?;
        }
        Ok(fields)
    }

    /// What stands behind the parenthesis of the parameters, which closes it.
    fn parameters(&mut self) -> Result<Fields, ParseErr>
        ensures { ReadsWith result parameters_at self.old self.new }
    {
        if self.skip_sign(Sign::Close) {
            return Ok(Items::new(self.alloc()));
        }
        let params = self.fields_within(PARAMETERS_MOST, LimitName::Parameters)?;
        self.take_sign(Sign::Close)?;
        Ok(params)
    }

    /// The variables, if there are some.
    fn variables(&mut self) -> Result<Fields, ParseErr>
        ensures { ReadsWith result variables_at self.old self.new }
    {
        if !self.skip_key(Keyword::Var) {
            return Ok(Items::new(self.alloc()));
        }
        self.fields_within(VARIABLES_MOST, LimitName::Variables)
    }

    /// The statement that stands behind so many others in its block.
    fn counted_statement(
        &mut self,
        room: u32,
        deeper: u32,
        count: usize,
    ) -> Result<Sealed<Statement>, ParseErr>
        ensures reads { ReadsWith result (counted_at most.STATEMENTS_MOST limits.Statements (statement_at (within_at room) (within_at deeper)) count) self.old self.new }
        ensures shrinks { OnOk result (length self.new.left < length self.old.left) }
    {
        self.note(STATEMENTS_MOST <= count, LimitName::Statements);
        self.statement(room, deeper)
    }

    /// Statements with semicolons between them.
    fn statements(&mut self, room: u32, deeper: u32) -> Result<Statements, ParseErr>
        ensures reads { ReadsWith result (statements_at (within_at room) (within_at deeper)) self.old self.new }
        ensures shrinks { OnOk result (length self.new.left < length self.old.left) }
    {
        let mut statements = Items::new(self.alloc());
        let first = self.counted_statement(room, deeper, 0)?;
        statements.push(first.share(self.alloc())?)?;
        while self.skip_sign(Sign::Semicolon) {
            let statement = self.counted_statement(room, deeper, statements.len())?;
            statements.push(statement.share(self.alloc())?)?;
        }
        Ok(statements)
    }

    /// Statements in braces.
    fn block(&mut self, room: u32, deeper: u32) -> Result<Statements, ParseErr>
        ensures reads { ReadsWith result (block_at (within_at room) (within_at deeper)) self.old self.new }
        ensures shrinks { OnOk result (length self.new.left < length self.old.left) }
    {
        self.take_sign(Sign::OpenBrace)?;
        let statements = self.statements(room, deeper)?;
        self.take_sign(Sign::CloseBrace)?;
        Ok(statements)
    }

    /// The number of a part.
    fn part_number(&mut self) -> Result<u64, ParseErr>
        ensures reads { ReadsWith result number_at self.old self.new }
        ensures shrinks { OnOk result (length self.new.left < length self.old.left) }
    {
        let [Lexeme::Int(number), rest @ ..] = self.rest else {
            return Err(ParseErr::Syntax);
        };
        self.rest = rest;
        self.note(NUMBER_MOST < *number, LimitName::Number);
        Ok(*number)
    }

    /// A part to go on at, or the end.
    fn way(&mut self) -> Result<Next, ParseErr>
        ensures reads { ReadsWith result way_at self.old self.new }
        ensures shrinks { OnOk result (length self.new.left < length self.old.left) }
    {
        if self.skip_key(Keyword::End) {
            return Ok(Next::End);
        }
        self.take_key(Keyword::Go)?;
        Ok(Next::Part(self.part_number()?))
    }

    /// How often a part is tried again.
    fn retry(&mut self) -> Result<u8, ParseErr>
        ensures reads { ReadsWith result retry_at self.old self.new }
        ensures shrinks { OnOk result (length self.new.left < length self.old.left) }
    {
        let [Lexeme::Int(number), rest @ ..] = self.rest else {
            return Err(ParseErr::Syntax);
        };
        self.rest = rest;
        self.note(*number < 1 || RETRY_MOST < *number, LimitName::Retry);
        Ok(kept_retry(*number))
    }

    /// Where the program goes on behind a commit, if this is said.
    fn on_commit(&mut self) -> Result<Option<Next>, ParseErr>
        ensures reads { ReadsWith result on_commit_at self.old self.new }
        ensures shrinks { OnOk result (length self.new.left ≤ length self.old.left) }
    {
        if !self.skip_key(Keyword::Then) {
            return Ok(None);
        }
        Ok(Some(self.way()?))
    }

    /// What stands behind `on failure`.
    fn branch(&mut self) -> Result<(Option<u8>, Option<Next>), ParseErr>
        ensures reads { ReadsWith result branch_at self.old self.new }
        ensures shrinks { OnOk result (length self.new.left < length self.old.left) }
    {
        if !self.skip_key(Keyword::Retry) {
            return Ok((None, Some(self.way()?)));
        }
        let retry = self.retry()?;
        self.take_key(Keyword::Then)?;
        Ok((Some(retry), Some(self.way()?)))
    }

    /// Where the program goes on behind a failure, if this is said, and how often the part is tried again before.
    fn on_failure(&mut self) -> Result<(Option<u8>, Option<Next>), ParseErr>
        ensures reads { ReadsWith result on_failure_at self.old self.new }
        ensures shrinks { OnOk result (length self.new.left ≤ length self.old.left) }
    {
        if !self.skip_key(Keyword::On) {
            return Ok((None, None));
        }
        self.take_key(Keyword::Failure)?;
        self.branch()
    }

    /// What stands behind `part`.
    fn part(&mut self, room: u32, deeper: u32) -> Result<Sealed<PartDef>, ParseErr>
        ensures reads { ReadsWith result (part_at (within_at room) (within_at deeper)) self.old self.new }
        ensures shrinks { OnOk result (length self.new.left < length self.old.left) }
    {
        let block = self.block(room, deeper)?;
        let then = self.on_commit()?;
        let (retry, on_failure) = self.on_failure()?;
        Ok(Sealed::new(PartDef {
            block,
            then,
            retry,
            on_failure,
        }))
    }

    /// The part that stands behind so many others.
    fn counted_part(
        &mut self,
        room: u32,
        deeper: u32,
        count: usize,
    ) -> Result<Sealed<PartDef>, ParseErr>
        ensures reads { ReadsWith result (counted_at most.PARTS_MOST limits.Parts (part_at (within_at room) (within_at deeper)) count) self.old self.new }
        ensures shrinks { OnOk result (length self.new.left < length self.old.left) }
    {
        self.note(PARTS_MOST <= count, LimitName::Parts);
        self.part(room, deeper)
    }

    /// Parts, each behind `part` but the first, whose `part` was taken.
    fn parts(&mut self, room: u32, deeper: u32) -> Result<Parts, ParseErr>
        ensures { ReadsWith result (parts_at (within_at room) (within_at deeper)) self.old self.new }
    {
        let mut parts = Items::new(self.alloc());
        let first = self.counted_part(room, deeper, 0)?;
        first.push_to(&mut parts)?;
        while self.skip_key(Keyword::Part) {
            let part = self.counted_part(room, deeper, parts.len())?;
            part.push_to(&mut parts)?;
        }
        Ok(parts)
    }

    /// What stands behind `base`.
    fn base(&mut self, room: u32, deeper: u32) -> Result<Parts, ParseErr>
        ensures { ReadsWith result (base_at (within_at room) (within_at deeper)) self.old self.new }
    {
        self.take_key(Keyword::Part)?;
        self.parts(room, deeper)
    }

    /// What a program does.
    fn body(&mut self, room: u32, deeper: u32) -> Result<Body, ParseErr>
        ensures { ReadsWith result (body_at (within_at room) (within_at deeper)) self.old self.new }
    {
        if self.skip_key(Keyword::Acid) {
            return Ok(Body::Acid(self.block(room, deeper)?));
        }
        self.take_key(Keyword::Base)?;
        Ok(Body::Base(self.base(room, deeper)?))
    }

    /// A program, with room for so many parentheses in its expressions, and for so many in those of INSERT.
    #[tactic(auto, unfolding(crate::specs::ProgramReading::program_at))]
    pub fn program(&mut self, room: u32, deeper: u32) -> Result<Sealed<ProgramDef>, ParseErr>
        ensures { ReadsWith result (program_at (within_at room) (within_at deeper)) self.old self.new }
    {
        self.take_key(Keyword::Program)?;
        let name = self.name()?;
        self.take_sign(Sign::Open)?;
        let params = self.parameters()?;
        let vars = self.variables()?;
        let body = self.body(room, deeper)?;
        self.take_key(Keyword::End)?;
        Ok(Sealed::new(ProgramDef {
            name,
            params,
            vars,
            body,
        }))
    }
}
