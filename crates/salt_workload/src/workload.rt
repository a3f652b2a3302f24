//! The lines of a workload, each found by its number.

ghost use Rattle.std.specs.Prelude.{◌≡◌, ◌<◌, ◌≤◌, ◌++◌, IfOk, length, slice_get};
ghost use Rattle.salt_promise.specs.Workload.{behind, behind_eighth, behind_fiftieth, call_lines, calls, closing, load_lines};
ghost use Rattle.salt_workload.specs.Places.{lines_through};
ghost use Rattle.salt_values.specs.declared.limits.TheConstants.{CALLS_MOST};

use crate::lines::{account_table, balance, deposit, transfer, transfer_program};
use crate::places::{calls_over, lines_through};
use salt_ast::Line;
use std::alloc::{AllocError, Global};

/// The lines before the first call: the table, the program and the accounts.
const OPENING_LINES: u64 = 102;

/// A line of what follows a fiftieth call.
fn behind_fiftieth(alloc: Global, call: u64, at: u64) -> Result<Option<Line>, AllocError>
    ensures { IfOk result (λ found. found ≡ slice_get (behind_fiftieth call) at) }
{
    if call % 50 != 0 {
        return Ok(None);
    }
    match at {
        0 => Ok(Some(balance(alloc)?)),
        1 | 2 => Ok(Some(Line::GoAll)),
        _ => Ok(None),
    }
}

/// A line of what follows a call.
fn behind(alloc: Global, call: u64, at: u64) -> Result<Option<Line>, AllocError>
    ensures { IfOk result (λ found. found ≡ slice_get (behind call) at) }
{
    if call % 8 != 0 {
        behind_fiftieth(alloc, call, at)
    } else if at == 0 {
        Ok(Some(Line::GoAll))
    } else {
        behind_fiftieth(alloc, call, at - 1)
    }
}

/// A line of a call and what follows it.
fn call_line(alloc: Global, call: u64, at: u64) -> Result<Option<Line>, AllocError>
    requires { call ≤ CALLS_MOST }
    ensures { IfOk result (λ found. found ≡ slice_get (call_lines call) at) }
{
    if at == 0 {
        Ok(Some(transfer(alloc, call)?))
    } else {
        behind(alloc, call, at - 1)
    }
}

/// A line of the turns and the sum behind the last call.
fn closing_line(alloc: Global, at: u64) -> Result<Option<Line>, AllocError>
    ensures { IfOk result (λ found. found ≡ slice_get closing at) }
{
    match at {
        0 | 1 => Ok(Some(Line::GoAll)),
        2 => Ok(Some(balance(alloc)?)),
        _ => Ok(None),
    }
}

/// A line of the calls.
fn line_of_calls(alloc: Global, n: u64, at: u64) -> Result<Option<Line>, AllocError>
    requires most { n ≤ CALLS_MOST }
    requires within { at < lines_through n }
    ensures { IfOk result (λ found. found ≡ slice_get (calls n) at) }
{
    let over = calls_over(at);
    call_line(alloc, over + 1, at - lines_through(over))
}

/// A line behind the opening.
fn line_behind_opening(alloc: Global, n: u64, at: u64) -> Result<Option<Line>, AllocError>
    requires { n ≤ CALLS_MOST }
    ensures { IfOk result (λ found. found ≡ slice_get (calls n ++ closing) at) }
{
    let lines = lines_through(n);
    if at < lines {
        line_of_calls(alloc, n, at)
    } else {
        closing_line(alloc, at - lines)
    }
}

/// Line i, from 0, of the workload with n calls; `None` exactly where the workload is over. A later
/// line takes no longer, since arithmetic finds it.
pub fn load_line(alloc: Global, n: u64, i: u64) -> Result<Option<Line>, AllocError>
    requires least { 1 ≤ n }
    requires most { n ≤ CALLS_MOST }
    ensures { IfOk result (λ found. found ≡ slice_get (load_lines n) i) }
{
    match i {
        0 => Ok(Some(account_table(alloc)?)),
        1 => Ok(Some(transfer_program(alloc)?)),
        _ if i < OPENING_LINES => Ok(Some(deposit(alloc, i - 2)?)),
        _ => line_behind_opening(alloc, n, i - OPENING_LINES),
    }
}

/// How many lines the workload with n calls has.
#[tactic(auto, using(crate::proofs::Blocks::length_load))]
pub fn line_count(n: u64) -> u64
    requires { n ≤ CALLS_MOST }
    ensures { result ≡ length (load_lines n) }
{
    OPENING_LINES + lines_through(n) + 3
}
