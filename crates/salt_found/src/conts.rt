//! Where BASE programs go on.

ghost use Rattle.salt_stands.specs.Fitting.{programs_defined};
ghost use Rattle.salt_decisions.specs.Kept.{IsKept};
ghost use Rattle.salt_found.specs.Conts.{OpensConts, fits_header, fits_kept, followed, is_booted, open_conts_of};
ghost use Rattle.salt_model.specs.Kept.{Definition};
ghost use Rattle.salt_stands.specs.CoordinatorLog.{CoordinatorLog};
ghost use Rattle.salt_stands.specs.OpenConts.{do_rise, is_later_than};
ghost use Rattle.salt_values.specs.declared.cont.Cont.{Cont};
ghost use Rattle.std.specs.List.{list_all};
ghost use Rattle.std.specs.Prelude.{List, Some, ◌≡◌, option_and_then};
ghost use Rattle.std.specs.Bool.{then_some};

use crate::error::ContErr;
use crate::fits::fits_kept;
use crate::moves::follow;
use salt_decisions::Kept;
use salt_program::Catalogue;
use salt_values::{Cont, Conts, copies};
use std::alloc::Global;

fn is_later_than(first: &Cont, cont: &Cont) -> bool
    ensures { result ≡ is_later_than first.now cont.now }
{
    first.accepted < cont.accepted && first.base != cont.base
}

fn are_later_than(first: &Cont, conts: &[Cont]) -> bool
    ensures { result ≡ list_all (is_later_than first.now) conts.now }
{
    conts.iter().all(|cont| is_later_than(first, cont))
}

/// Whether no two are of one program, and the numbers of their acceptance rise.
fn do_rise(conts: &[Cont]) -> bool
    ensures { result ≡ do_rise conts.now }
{
    for (at, first) in conts.iter().enumerate() {
        if !are_later_than(first, &conts[at + 1..]) {
            return false;
        }
    }
    true
}

fn fit_kept(catalogue: &Catalogue, kept: &Kept, conts: &[Cont]) -> bool
    ensures { result ≡ list_all (fits_kept catalogue.now kept.now) conts.now }
{
    conts.iter().all(|cont| fits_kept(catalogue, kept, cont))
}

/// Whether no unit that was decided is of a later boot.
fn are_booted(kept: &Kept) -> bool
    ensures { result ≡ list_all (is_booted kept.now) kept.now.decided }
{
    let units = kept.decided.as_slice();
    units.iter().all(|unit| unit.boot <= kept.boot)
}

/// Whether the continuations of the header may stand there, and no unit that was decided is of a later boot.
fn fits_header(catalogue: &Catalogue, kept: &Kept) -> bool
    ensures { result ≡ fits_header catalogue.now kept.now }
{
    do_rise(kept.conts.as_slice())
        && fit_kept(catalogue, kept, kept.conts.as_slice())
        && are_booted(kept)
}

/// The continuations that are kept, as far as they can be followed.
fn follow_all(alloc: Global, catalogue: &Catalogue, kept: &Kept) -> Result<Conts, ContErr>
    ensures { OpensConts result (option_and_then (then_some (fits_header catalogue.now kept.now)) (followed catalogue.now kept.now (Some kept.now.conts) kept.now.moves)) }
{
    if !fits_header(catalogue, kept) {
        return Err(ContErr::NotMove);
    }
    let mut conts = copies(alloc, kept.conts.as_slice())?;
    for mv in kept.moves.as_slice() {
        follow(alloc, catalogue, kept, &mut conts, mv.as_slice())?;
    }
    Ok(conts)
}

/// The open continuations of what a log keeps, in the order of acceptance, under the programs of its definitions. `NotMove`
/// exactly where the log does not stand under these: a continuation is none that one of the programs may have, or names a later
/// boot or decision than is kept; in the header two are of one program, or the numbers of acceptance do not rise; a unit is of a
/// later boot; or a move is no move, or goes on with or ends what is not open so.
pub fn open_conts(alloc: Global, catalogue: &Catalogue, kept: &Kept) -> Result<Conts, ContErr>
    ensures { (log : CoordinatorLog) (ds : List Definition) → IsKept kept.now log → catalogue.now ≡ programs_defined ds → OpensConts result (open_conts_of log ds) }
{
    follow_all(alloc, catalogue, kept)
}
