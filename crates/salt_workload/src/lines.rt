//! The lines of which a workload is made.

ghost use Rattle.salt_ast.specs.declared.lines.Line.TheVariants as line;
ghost use Rattle.std.specs.Prelude.{◌≡◌, ◌<◌, ◌≤◌, IfOk};
ghost use Rattle.salt_ast.specs.Sample.{amounts, transfer as transfer_def, transfer_parts};
ghost use Rattle.salt_values.specs.declared.limits.TheConstants.{CALLS_MOST};
ghost use Rattle.salt_promise.specs.Workload.{account_def, balance, deposit, transfer, transfer_args};

use crate::trees::{balance_column, int_field, move_amount, name, number, one, operation, part};
use salt_ast::{
    Act, Body, Bound, Fields, Line, Next, Op, Parts, ProgramDef, Scan, Shared, Statement, TableDef,
    What,
};
use salt_values::limits::SESSION_MOST;
use salt_values::{Row, Value};
use sqlite_items::Items;
use std::alloc::{AllocError, Global};

/// The table of the accounts.
pub fn account_table(alloc: Global) -> Result<Line, AllocError>
    ensures { IfOk result (λ made. made ≡ line.Table account_def) }
{
    let mut columns = one(alloc, int_field(alloc, b"id")?)?;
    columns.push(int_field(alloc, b"bal")?)?;
    let balance = balance_column(alloc)?;
    let check = operation(alloc, Op::AtLeast, balance, number(0))?;
    let checks = one(alloc, check)?;
    Ok(Line::Table(TableDef {
        name: name(alloc, b"acct")?,
        columns,
        checks,
    }))
}

/// The parameters of the transfer.
fn amounts(alloc: Global) -> Result<Fields, AllocError>
    ensures { IfOk result (λ made. made ≡ amounts) }
{
    let mut params = one(alloc, int_field(alloc, b"a")?)?;
    params.push(int_field(alloc, b"b")?)?;
    params.push(int_field(alloc, b"amt")?)?;
    Ok(params)
}

/// The parts of the transfer.
fn transfer_parts(alloc: Global) -> Result<Parts, AllocError>
    ensures { IfOk result (λ made. made ≡ transfer_parts) }
{
    let take = move_amount(alloc, Op::Sub, b"a")?;
    let mut parts = one(alloc, part(alloc, take, None, None)?)?;
    let bring = move_amount(alloc, Op::Add, b"b")?;
    let bring = part(alloc, bring, Some(Next::End), Some(Next::Part(3)))?;
    parts.push(bring)?;
    let bring_back = move_amount(alloc, Op::Add, b"a")?;
    let bring_back = part(alloc, bring_back, None, Some(Next::End))?;
    parts.push(bring_back)?;
    Ok(parts)
}

/// The program of the transfers.
pub fn transfer_program(alloc: Global) -> Result<Line, AllocError>
    ensures { IfOk result (λ made. made ≡ line.Program transfer_def) }
{
    let params = amounts(alloc)?;
    let parts = transfer_parts(alloc)?;
    Ok(Line::Program(ProgramDef {
        name: name(alloc, b"transfer")?,
        params,
        vars: Items::new(alloc),
        body: Body::Base(parts),
    }))
}

/// The line that puts an account into the table.
pub fn deposit(alloc: Global, account: u64) -> Result<Line, AllocError>
    requires { account < 100 }
    ensures { IfOk result (λ made. made ≡ deposit account) }
{
    let mut values = one(alloc, number(account as i64))?;
    values.push(number(1000))?;
    let table = name(alloc, b"acct")?;
    let statement = Statement::Insert { table, values };
    Ok(Line::Session {
        session: 1,
        act: Act::Do(Shared::new(alloc, statement)?),
    })
}

/// The arguments of a call: the account to take from, the account to bring to, and the amount.
fn transfer_args(alloc: Global, call: u64) -> Result<Row, AllocError>
    requires { call ≤ CALLS_MOST }
    ensures { IfOk result (λ made. made ≡ transfer_args call) }
{
    let from = 7 * call % 100;
    let to = (7 * call + 13) % 100;
    let amount = 1 + call % 50;
    let mut args = one(alloc, Value::Int(from as i64))?;
    args.push(Value::Int(to as i64))?;
    args.push(Value::Int(amount as i64))?;
    Ok(args)
}

/// The line of a call.
pub fn transfer(alloc: Global, call: u64) -> Result<Line, AllocError>
    requires { call ≤ CALLS_MOST }
    ensures { IfOk result (λ made. made ≡ transfer call) }
{
    let args = transfer_args(alloc, call)?;
    let program = name(alloc, b"transfer")?;
    Ok(Line::Session {
        session: (1 + call % 63) as u8,
        act: Act::Call { program, args },
    })
}

/// The line that asks for the sum over all accounts.
pub fn balance(alloc: Global) -> Result<Line, AllocError>
    ensures { IfOk result (λ made. made ≡ balance) }
{
    let column = name(alloc, b"bal")?;
    let table = name(alloc, b"acct")?;
    let scan = Scan {
        bound: Bound::All,
        filter: None,
    };
    let statement = Statement::Select {
        what: What::Sum(column),
        table,
        scan,
    };
    Ok(Line::Session {
        session: SESSION_MOST as u8,
        act: Act::Do(Shared::new(alloc, statement)?),
    })
}
