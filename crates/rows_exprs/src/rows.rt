//! The rows of a table of expressions, and what became of them.

use crate::words::{bool_words, cause_words, given_words, row_words};
use salt_ast::{Expr, Field, Scan, Sets, Statement, TableDef};
use salt_exprs::{
    EvalErr, check, condition_outside, passes, resolve, resolve_filter, row_after, value_outside,
    values_outside,
};
use salt_model::{Binding, Vars};
use salt_parse::{ParseErr, read_statement, read_table};
use salt_values::{Name, Row, TryCopy};
use sqlite_items::Items;
use std::alloc::{AllocError, Global};

/// The most bytes that are shown of a row that gives otherwise.
const SHOWN_MOST: usize = 200;

/// Why a row can't be judged.
#[derive(Clone, Copy, Debug, PartialEq, Eq)]
enum RowErr {
    /// It is outside the grammar, or there is no table.
    Unread,
    Memory,
}

impl From<AllocError> for RowErr {
    fn from(_e: AllocError) -> RowErr {
        RowErr::Memory
    }
}

impl From<ParseErr> for RowErr {
    fn from(e: ParseErr) -> RowErr {
        match e {
            ParseErr::Memory => RowErr::Memory,
            ParseErr::Syntax => RowErr::Unread,
            ParseErr::Limit(_) => RowErr::Unread,
        }
    }
}

impl From<EvalErr> for RowErr {
    fn from(e: EvalErr) -> RowErr {
        match e {
            EvalErr::Memory => RowErr::Memory,
            EvalErr::Cause(_) => RowErr::Unread,
        }
    }
}

/// What the rows so far defined, and what became of them.
#[derive(Drop)]
pub struct Table {
    alloc: Global,
    def: Option<TableDef>,
    row: Row,
    vars: Vars,
    /// How many rows gave what they were to give.
    given: u64,
    /// The rows that gave otherwise, each with what it gave.
    others: Vec<u8>,
}

/// What stands before the last `$` of a row, and behind it.
fn split(row: &[u8]) -> (&[u8], &[u8]) {
    match row.iter().rposition(|byte| *byte == b'$') {
        Some(at) => (
            row.get(..at).unwrap_or(row),
            row.get(at.saturating_add(1)..).unwrap_or(b""),
        ),
        None => (row, b""),
    }
}

/// The expression that is read from these bytes as a filter.
fn expr_of(alloc: Global, bytes: &[u8]) -> Result<Expr, RowErr> {
    let mut text = Vec::from_slice(alloc, b"select * from t where ")?;
    text.extend_from_slice(bytes)?;
    match &read_statement(alloc, &text)? {
        Statement::Select {
            scan: Scan {
                filter: Some(filter),
                ..
            },
            ..
        } => Ok(filter.copy(alloc)?),
        _ => Err(RowErr::Unread),
    }
}

/// What an update changes.
fn sets_in(statement: &Statement) -> Result<&Sets, RowErr> {
    match statement {
        Statement::Update { sets, .. } => Ok(sets),
        _ => Err(RowErr::Unread),
    }
}

/// The row that sets make, where the checks of the table are met.
fn updated(
    alloc: Global,
    def: &TableDef,
    vars: &Vars,
    sets: &Sets,
    old: &Row,
) -> Result<Row, EvalErr> {
    let row = row_after(
        alloc,
        def,
        vars.as_slice(),
        sets.as_slice(),
        old.copy(alloc)?,
    )?;
    check(
        alloc,
        def.columns.as_slice(),
        def.checks.as_slice(),
        row.as_slice(),
    )?;
    Ok(row)
}

impl Table {
    /// No table, no row and no variables.
    pub fn new(alloc: Global) -> Table {
        Table {
            alloc,
            def: None,
            row: Items::new(alloc),
            vars: Items::new(alloc),
            given: 0,
            others: Vec::new(alloc),
        }
    }

    /// The rows that gave otherwise, and how many gave what they were to give.
    pub fn text(self) -> Result<Vec<u8>, AllocError> {
        let given = self.given;
        let count = format!(in self.alloc; "{given} rows give what they say\n")?;
        let mut text = self.others;
        text.extend_from_slice(count.as_bytes())?;
        Ok(text)
    }

    fn columns(&self) -> &[Field] {
        match &self.def {
            Some(def) => def.columns.as_slice(),
            None => &[],
        }
    }

    /// What an update gives, in words.
    fn update(&self, bytes: &[u8]) -> Result<Vec<u8>, RowErr> {
        let statement = read_statement(self.alloc, bytes)?;
        let sets = sets_in(&statement)?;
        let Some(def) = &self.def else {
            return Err(RowErr::Unread);
        };
        match updated(self.alloc, def, &self.vars, sets, &self.row) {
            Ok(row) => Ok(row_words(self.alloc, row.as_slice())?),
            Err(err) => Ok(cause_words(self.alloc, err)?),
        }
    }

    /// Whether a filter keeps the row, in words.
    fn kept(&self, bytes: &[u8]) -> Result<Vec<u8>, RowErr> {
        let filter = Some(expr_of(self.alloc, bytes)?);
        let resolved = resolve_filter(self.alloc, self.columns(), self.vars.as_slice(), &filter)?;
        let kept = passes(self.alloc, &resolved, &self.row);
        Ok(bool_words(self.alloc, kept)?)
    }

    /// Whether a condition outside rows holds, in words.
    fn ensured(&self, bytes: &[u8]) -> Result<Vec<u8>, RowErr> {
        let condition = expr_of(self.alloc, bytes)?;
        let held = condition_outside(self.alloc, self.vars.as_slice(), &condition);
        Ok(bool_words(self.alloc, held)?)
    }

    /// What an expression gives, in words.
    fn expression(&self, bytes: &[u8]) -> Result<Vec<u8>, RowErr> {
        let expr = expr_of(self.alloc, bytes)?;
        let resolved = resolve(self.alloc, self.columns(), self.vars.as_slice(), &expr)?;
        let words = given_words(self.alloc, &expr, &resolved, &self.row)?;
        Ok(words)
    }

    fn asked(&self, row: &[u8]) -> Result<Vec<u8>, RowErr> {
        match row {
            [b'?', rest @ ..] => self.kept(rest),
            [b'!', rest @ ..] => self.ensured(rest),
            _ if row.starts_with(b"update ") => self.update(row),
            _ => self.expression(row),
        }
    }

    /// Takes a variable, written as its name, `=` and an expression.
    fn bind(&mut self, rest: &[u8]) -> Result<(), RowErr> {
        let Some(at) = rest.iter().position(|byte| *byte == b'=') else {
            return Err(RowErr::Unread);
        };
        let name: Name = Items::from_slice(self.alloc, rest.get(..at).unwrap_or(b""))?;
        let text = rest.get(at.saturating_add(1)..).unwrap_or(b"");
        let expr = expr_of(self.alloc, text)?;
        let value = value_outside(self.alloc, self.vars.as_slice(), &expr)?;
        self.vars.push(Binding { name, value })?;
        Ok(())
    }

    fn insert(&mut self, bytes: &[u8]) -> Result<(), RowErr> {
        match &read_statement(self.alloc, bytes)? {
            Statement::Insert { values, .. } => {
                self.row = values_outside(self.alloc, self.vars.as_slice(), values.as_slice())?;
                Ok(())
            }
            _ => Err(RowErr::Unread),
        }
    }

    /// Takes a row that defines what others see: none of these is `false`.
    fn define(&mut self, row: &[u8]) -> Result<bool, RowErr> {
        if row.starts_with(b"create ") {
            self.def = Some(read_table(self.alloc, row)?);
        } else if row.starts_with(b"insert ") {
            self.insert(row)?;
        } else if let [b'v', b'a', b'r', b' ', rest @ ..] = row {
            self.bind(rest)?;
        } else {
            return Ok(false);
        }
        Ok(true)
    }

    /// Counts a row, or keeps it as one that gave otherwise.
    fn judge(&mut self, row: &[u8], gives: &[u8], wanted: &[u8]) -> Result<(), AllocError> {
        if gives == wanted {
            self.given = self.given.saturating_add(1);
            return Ok(());
        }
        self.others
            .extend_from_slice(row.get(..SHOWN_MOST).unwrap_or(row))?;
        self.others.extend_from_slice(b" -> ")?;
        self.others
            .extend_from_slice(gives.get(..SHOWN_MOST).unwrap_or(gives))?;
        self.others.push(b'\n')?;
        Ok(())
    }

    /// Judges a row. One that is empty, or that begins with a blank, is none.
    pub fn row(&mut self, row: &[u8]) -> Result<(), AllocError> {
        if row.is_empty() || row.starts_with(b" ") {
            return Ok(());
        }
        match self.define(row) {
            Ok(true) => return Ok(()),
            Ok(false) => {}
            Err(RowErr::Unread) => return self.judge(row, b"unread", b""),
            Err(RowErr::Memory) => return Err(AllocError),
        }
        let (asks, wanted) = split(row);
        match self.asked(asks) {
            Ok(gives) => self.judge(asks, &gives, wanted),
            Err(RowErr::Unread) => self.judge(asks, b"unread", wanted),
            Err(RowErr::Memory) => Err(AllocError),
        }
    }
}
