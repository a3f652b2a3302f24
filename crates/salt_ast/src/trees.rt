//! The trees of tables and statements.

use crate::shared::Shared;
use salt_values::{Name, Names, Value};
use sqlite_items::{Boxed, Items};

/// The type of a column.
#[derive(Clone, Copy, Debug, PartialEq, Eq)]
pub enum ColType {
    Int,
    Text,
}

/// The name and type of a column, a parameter or a variable.
#[derive(Drop)]
pub struct Field {
    pub name: Name,
    pub kind: ColType,
    /// Whether it may hold NULL: a column that is declared so. Keys, parameters and variables may not.
    pub nullable: bool,
}

/// Columns, parameters or variables, in the order of the text.
pub type Fields = Items<Field>;

/// An operation on two operands.
#[derive(Clone, Copy, Debug, PartialEq, Eq)]
pub enum Op {
    Or,
    And,
    Equal,
    Unequal,
    Less,
    AtMost,
    Greater,
    AtLeast,
    Add,
    Sub,
    /// Two texts, one behind the other.
    Join,
    Mul,
}

/// An expression.
#[derive(Drop)]
pub enum Expr {
    Lit(Value),
    Column(Name),
    /// `:x`, a parameter or a variable of a program.
    Variable(Name),
    Not(Boxed<Expr>),
    /// Whether the operand is NULL, or, where it is negated, whether it is not.
    IsNull {
        of: Boxed<Expr>,
        negated: bool,
    },
    Binary {
        op: Op,
        left: Boxed<Expr>,
        right: Boxed<Expr>,
    },
}

/// Expressions in the order of the text.
pub type Exprs = Items<Expr>;

/// A table's name, its columns, of which the first is the key, and the checks that each row meets.
pub struct TableDef {
    pub name: Name,
    pub columns: Fields,
    pub checks: Exprs,
}

impl Drop for TableDef {
    fn drop(self) {
        let TableDef {
            name: _name,
            columns: _columns,
            checks: _checks,
        } = self;
    }
}

/// What a SELECT shows.
pub enum What {
    /// All columns of each row.
    All,
    /// These columns of each row, in this order.
    Columns(Names),
    /// The number of rows.
    Count,
    Sum(Name),
    Min(Name),
    Max(Name),
}

impl Drop for What {
    fn drop(self) {
        match self {
            What::All => {}
            What::Columns(_names) => {}
            What::Count => {}
            What::Sum(_column) => {}
            What::Min(_column) => {}
            What::Max(_column) => {}
        }
    }
}

/// A column and the value that it takes.
#[derive(Drop)]
pub struct Set {
    pub column: Name,
    pub value: Expr,
}

/// What an `update` sets, in the order of the text.
pub type Sets = Items<Set>;

/// Which keys a statement goes over.
pub enum Bound {
    All,
    /// The one key.
    Key(Expr),
    /// From the first key to the second, both included.
    Between(Expr, Expr),
}

impl Drop for Bound {
    fn drop(self) {
        match self {
            Bound::All => {}
            Bound::Key(_key) => {}
            Bound::Between(_low, _high) => {}
        }
    }
}

/// Which rows a statement is for: those with a key in the bound for which the filter holds.
pub struct Scan {
    pub bound: Bound,
    pub filter: Option<Expr>,
}

impl Drop for Scan {
    fn drop(self) {
        let Scan {
            bound: _bound,
            filter: _filter,
        } = self;
    }
}

/// A statement of a session or of a program.
pub enum Statement {
    Insert {
        table: Name,
        values: Exprs,
    },
    Select {
        what: What,
        table: Name,
        scan: Scan,
    },
    /// A column of the row with the key is kept in a variable of the program.
    SelectInto {
        column: Name,
        var: Name,
        table: Name,
        key: Expr,
    },
    Update {
        table: Name,
        sets: Sets,
        scan: Scan,
    },
    Delete {
        table: Name,
        scan: Scan,
    },
    /// The condition must hold.
    Ensure(Expr),
}

/// Statements in the order of the text.
pub type Statements = Items<Shared<Statement>>;

impl Drop for Statement {
    fn drop(self) {
        match self {
            Statement::Insert {
                table: _table,
                values: _values,
            } => {}
            Statement::Select {
                what: _what,
                table: _table,
                scan: _scan,
            } => {}
            Statement::SelectInto {
                column: _column,
                var: _var,
                table: _table,
                key: _key,
            } => {}
            Statement::Update {
                table: _table,
                sets: _sets,
                scan: _scan,
            } => {}
            Statement::Delete {
                table: _table,
                scan: _scan,
            } => {}
            Statement::Ensure(_condition) => {}
        }
    }
}

/// The parameters and variables of a program, which its statements may name; a session's statements
/// have none.
#[derive(Drop)]
pub struct Scope {
    pub params: Fields,
    pub vars: Fields,
}
