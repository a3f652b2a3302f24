//! Trees of which the lines are made.

ghost use Rattle.std.specs.Prelude.{◌≡◌, [], ◌∷◌, IfOk, None, Some, codes, pos};
ghost use Rattle.salt_ast.specs.Sample.{acct, all_rows, bal, field, move, part, scan, set};
ghost use Rattle.salt_ast.specs.Trees.{number, operation};
ghost use Rattle.salt_ast.specs.declared.trees.ColType.TheVariants as kind;
ghost use Rattle.salt_ast.specs.declared.trees.Expr.{Column, Variable};

use salt_ast::{Bound, ColType, Expr, Field, Next, Op, PartDef, Scan, Set, Shared, Statement};
use salt_values::{Name, Value};
use sqlite_items::{Boxed, Items};
use std::alloc::{AllocError, Global};

/// A name of these bytes.
pub fn name(alloc: Global, bytes: &[u8]) -> Result<Name, AllocError>
    ensures { IfOk result (λ made. made ≡ bytes.now) }
{
    Items::from_slice(alloc, bytes)
}

/// A list of one item.
pub fn one<T: Drop>(alloc: Global, item: T) -> Result<Items<T>, AllocError>
    ensures { IfOk result (λ made. made ≡ item ∷ []) }
{
    let mut items = Items::new(alloc);
    items.push(item)?;
    Ok(items)
}

/// A column or a parameter that holds numbers.
pub fn int_field(alloc: Global, bytes: &[u8]) -> Result<Field, AllocError>
    ensures { IfOk result (λ made. made ≡ field bytes.now kind.Int) }
{
    Ok(Field {
        name: name(alloc, bytes)?,
        kind: ColType::Int,
        nullable: false,
    })
}

/// A number that is written out.
pub fn number(n: i64) -> Expr
    ensures { result ≡ number n }
{
    Expr::Lit(Value::Int(n))
}

/// The column of the balance_column.
pub fn balance_column(alloc: Global) -> Result<Expr, AllocError>
    ensures { IfOk result (λ made. made ≡ Column bal) }
{
    Ok(Expr::Column(name(alloc, b"bal")?))
}

/// A parameter's value.
fn variable(alloc: Global, bytes: &[u8]) -> Result<Expr, AllocError>
    ensures { IfOk result (λ made. made ≡ Variable bytes.now) }
{
    Ok(Expr::Variable(name(alloc, bytes)?))
}

/// An operation on two expressions.
pub fn operation(alloc: Global, op: Op, left: Expr, right: Expr) -> Result<Expr, AllocError>
    ensures { IfOk result (λ made. made ≡ operation op left right) }
{
    let left = Boxed::new(alloc, left)?;
    let right = Boxed::new(alloc, right)?;
    Ok(Expr::Binary { op, left, right })
}

/// The statement that changes the balance of an account, whose key a parameter has, by the amount.
pub fn move_amount(alloc: Global, op: Op, key: &[u8]) -> Result<Statement, AllocError>
    ensures { IfOk result (λ made. made ≡ move op key.now) }
{
    let column = name(alloc, b"bal")?;
    let old = balance_column(alloc)?;
    let amount = variable(alloc, b"amt")?;
    let value = operation(alloc, op, old, amount)?;
    let sets = one(alloc, Set { column, value })?;
    let key = variable(alloc, key)?;
    let table = name(alloc, b"acct")?;
    let scan = Scan {
        bound: Bound::Key(key),
        filter: None,
    };
    Ok(Statement::Update { table, sets, scan })
}

/// The part of the program that has this one statement, and is not tried again.
pub fn part(
    alloc: Global,
    statement: Statement,
    then: Option<Next>,
    on_failure: Option<Next>,
) -> Result<PartDef, AllocError>
    ensures { IfOk result (λ made. made ≡ part (statement ∷ []) then on_failure) }
{
    Ok(PartDef {
        block: one(alloc, Shared::new(alloc, statement)?)?,
        then,
        retry: None,
        on_failure,
    })
}
