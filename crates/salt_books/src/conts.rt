//! The continuations, looked up and moved.

ghost use Rattle.law_states.specs.Rising.{Rising};
ghost use Rattle.salt_books.specs.Bases.{bases_in};
ghost use Rattle.salt_cont.specs.Move.TheVariants.{Continue, Finish};
ghost use Rattle.salt_stands.specs.OpenConts.{make_move, replace_cont};
ghost use Rattle.salt_values.specs.Id.{is_older, is_same_id};
ghost use Rattle.salt_values.specs.declared.cont.Cont.{Cont};
ghost use Rattle.std.specs.List.{find};
ghost use Rattle.std.specs.List.Sorted.{IsPartitionPoint};
ghost use Rattle.std.specs.Option.{option_copied};
ghost use Rattle.std.specs.Prelude.{IfOk, IsTrue, List, None, OnOk, Some, false, get_or, is_some, length, map, true, ℕ, ◌<◌, ◌≡◌, ◌≤◌};

use crate::going::Going;
use salt_cont::Move;
use salt_values::{Cont, Id, TryCopy, is_older, is_same_id};
use std::alloc::{AllocError, Global};

/// The continuation of a program. All are looked at up to it.
fn cont_in(conts: &[Cont], base: Id) -> Option<&Cont>
    ensures { option_copied result ≡ find (λ (c : Cont). is_same_id base c.base) conts.now }
{
    conts.iter().find(|cont| is_same_id(base, cont.base))
}

fn has_cont(conts: &[Cont], base: Id) -> bool
    ensures { result ≡ is_some (find (λ (c : Cont). is_same_id base c.base) conts.now) }
{
    cont_in(conts, base).is_some()
}

/// How many of the continuations are of older programs.
fn count_older(conts: &[Cont], base: Id) -> usize
    requires { Rising (bases_in conts.now) }
    ensures counted { IsPartitionPoint (λ (c : Cont). is_older c.base base ≡ true) (λ (c : Cont). is_older c.base base ≡ false) conts.now result }
    ensures bound { result ≤ length conts.now }
{
    conts.partition_point(
        |cont: &Cont| -> bool
            ensures { result ≡ is_older cont.now.base base }
        { is_older(cont.base, base) },
    )
}

/// Whether the continuation at a place is a program's.
fn is_at(conts: &[Cont], at: usize, base: Id) -> bool
    ensures there { result ≡ true → (at < length conts.now) × ((d : Cont) → is_same_id base (get_or conts.now at d).base ≡ true) }
    ensures another { result ≡ false → at < length conts.now → (d : Cont) → is_same_id base (get_or conts.now at d).base ≡ false }
{
    if at < conts.len() {
        is_same_id(base, conts[at].base)
    } else {
        false
    }
}

/// Where the continuation of a program stands among some in the order of their programs.
fn place_of(conts: &[Cont], base: Id) -> Option<usize>
    requires { Rising (bases_in conts.now) }
    ensures there { (at : ℕ) → result ≡ Some at → (at < length conts.now) × ((d : Cont) → is_same_id base (get_or conts.now at d).base ≡ true) }
    ensures none { result ≡ None → (k : ℕ) (d : Cont) → k < length conts.now → is_same_id base (get_or conts.now k d).base ≡ false }
{
    let at = count_older(conts, base);
    if is_at(conts, at, base) {
        Some(at)
    } else {
        None
    }
}

/// The continuation of a program among some in the order of their programs.
fn cont_at(conts: &[Cont], base: Id) -> Option<&Cont>
    requires { Rising (bases_in conts.now) }
    ensures { option_copied result ≡ find (λ (c : Cont). is_same_id base c.base) conts.now }
{
    match place_of(conts, base) {
        Some(at) => Some(&conts[at]),
        None => None,
    }
}

/// The continuation of a program, where it is known or not that all stand in the order of their programs.
pub fn cont_among(conts: &[Cont], rising: bool, base: Id) -> Option<&Cont>
    requires { IsTrue rising → Rising (bases_in conts.now) }
    ensures { option_copied result ≡ find (λ (c : Cont). is_same_id base c.base) conts.now }
{
    if rising {
        cont_at(conts, base)
    } else {
        cont_in(conts, base)
    }
}

/// Whether all of some continuations in the order of their programs are of older programs.
fn are_all_older(conts: &[Cont], base: Id) -> bool
    requires { Rising (bases_in conts.now) }
    ensures { result ≡ true → (k : ℕ) (d : Cont) → k < length conts.now → is_older (get_or conts.now k d).base base ≡ true }
{
    count_older(conts, base) == conts.len()
}

/// Puts a continuation in the place of each one of its program.
fn replace_cont(alloc: Global, conts: &mut Going, cont: &Cont) -> Result<(), AllocError>
    ensures { OnOk result (conts.new ≡ replace_cont cont.now conts.old) }
{
    let mut at = 0;
    while at < conts.len() {
        if is_same_id(cont.base, conts.as_slice()[at].base) {
            conts.set(at, cont.copy(alloc)?);
        }
        at += 1;
    }
    Ok(())
}

/// Puts a continuation in the place of its program's, or behind the others. Whether all stand in order then, as before.
fn go_in_order(alloc: Global, conts: &mut Going, cont: Cont) -> Result<bool, AllocError>
    requires { Rising (bases_in conts.old) }
    ensures moved { OnOk result ((cs : List Cont) → make_move conts.old (Continue cont) ≡ Some cs → conts.new ≡ cs) }
    ensures rising { IfOk result (λ rising. IsTrue rising → Rising (bases_in conts.new)) }
{
    match place_of(conts.as_slice(), cont.base) {
        Some(at) => {
            conts.set(at, cont);
            Ok(true)
        }
        None => {
            let last = are_all_older(conts.as_slice(), cont.base);
            conts.push(alloc, cont)?;
            Ok(last)
        }
    }
}

/// The same where they may stand in any order. Whether it is known behind it that they stand in order.
fn go_to(alloc: Global, conts: &mut Going, cont: Cont) -> Result<bool, AllocError>
    ensures moved { OnOk result ((cs : List Cont) → make_move conts.old (Continue cont) ≡ Some cs → conts.new ≡ cs) }
    ensures rising { IfOk result (λ rising. IsTrue rising → Rising (bases_in conts.new)) }
{
    if has_cont(conts.as_slice(), cont.base) {
        replace_cont(alloc, conts, &cont)?;
        return Ok(false);
    }
    let first = conts.is_empty();
    conts.push(alloc, cont)?;
    Ok(first)
}

/// Takes out the continuation of a program.
fn finish(alloc: Global, conts: &mut Going, base: Id)
    ensures { (cs : List Cont) → make_move conts.old (Finish base) ≡ Some cs → conts.new ≡ cs }
{
    let mut at = conts.len();
    while at > 0 {
        at -= 1;
        if is_same_id(base, conts.as_slice()[at].base) {
            conts.remove(alloc, at);
        }
    }
}

/// The same where they stand in the order of their programs, as they do then.
fn finish_in_order(alloc: Global, conts: &mut Going, base: Id)
    requires { Rising (bases_in conts.old) }
    ensures moved { (cs : List Cont) → make_move conts.old (Finish base) ≡ Some cs → conts.new ≡ cs }
    ensures rising { Rising (bases_in conts.new) }
{
    if let Some(at) = place_of(conts.as_slice(), base) {
        conts.remove(alloc, at);
    }
}

/// Makes a move that the continuations allow, where it is known or not that they stand in the order of their programs. Whether it is
/// known behind it. Where memory runs out they are in no state that is told.
pub fn make_move(
    alloc: Global,
    conts: &mut Going,
    rising: bool,
    made: Move,
) -> Result<bool, AllocError>
    requires { IsTrue rising → Rising (bases_in conts.old) }
    ensures moved { OnOk result ((cs : List Cont) → make_move conts.old made ≡ Some cs → conts.new ≡ cs) }
    ensures rising { IfOk result (λ known. IsTrue known → Rising (bases_in conts.new)) }
{
    match made {
        Move::Continue(cont) => {
            if rising {
                go_in_order(alloc, conts, cont)
            } else {
                go_to(alloc, conts, cont)
            }
        }
        Move::Finish(base) => {
            if rising {
                finish_in_order(alloc, conts, base);
                return Ok(true);
            }
            finish(alloc, conts, base);
            Ok(conts.is_empty())
        }
        Move::Plain => Ok(rising),
    }
}
