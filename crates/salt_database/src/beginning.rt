//! A boot begins over what was found.

ghost use Rattle.salt_database.specs.Finding.{BeginsOpening, CanFly, Flies, IsOpenedBy, Rests, RestsOrFlies, first_in};
ghost use Rattle.salt_books.specs.Books.{decisions_in};
ghost use Rattle.salt_books.specs.Known.{programs_known, tables_known};
ghost use Rattle.law_states.specs.States.{State};
ghost use Rattle.salt_model.specs.declared.events.Event.{Event};
ghost use Rattle.salt_drain.specs.Follows.{rest_in};
ghost use Rattle.salt_drain.specs.Recovering.{AnswersWith, books_of};
ghost use Rattle.salt_program.specs.Refusals.{parts_in, program_refusal};
ghost use Rattle.std.specs.Prelude.{IfOk, IsSome, IsTrue, None, Option, Some, false, length, nat_lt, true, ℕ, ◌+◌, ◌<◌, ◌^◌, ◌≡◌};

use salt_ast::ProgramDef;
use salt_books::{Books, Coming, Known};
use salt_cont::parts_of;
use salt_disk::Disks;
use salt_drain::Recovery;
use salt_engine::{InFlight, is_open};
use salt_model::Event;
use salt_values::next_number;
use std::alloc::{AllocError, Global};

/// The number of the decision that was in flight: it is the one behind the last that is known.
fn number_in_flight(recovery: &Recovery) -> Result<u64, AllocError>
    ensures { IfOk result (λ number. number ≡ decisions_in (books_of recovery.now) + 1) }
{
    next_number(recovery.books().known().decisions())
}

/// Whether a program has as few parts as may be numbered.
fn has_few_parts(def: &ProgramDef) -> bool
    ensures { result ≡ true → length (parts_in def.now.body) < 2 ^ 32 }
{
    parts_of(def).len() <= u32::MAX as usize
}

/// Whether a program can be defined behind what is known.
fn can_define(known: &Known, def: &ProgramDef) -> bool
    ensures { result ≡ true → (length (parts_in def.now.body) < 2 ^ 32) × (program_refusal (tables_known known.now) (programs_known known.now) def.now ≡ None) }
{
    if !has_few_parts(def) {
        return false;
    }
    known.catalogue().judge(known.schema(), def).is_ok()
}

/// Whether the decision that was in flight can be told over these books.
fn can_fly(books: &Books, in_flight: &Option<InFlight>) -> bool
    ensures { result ≡ true → CanFly books.now in_flight.now }
{
    let Some(in_flight) = in_flight else {
        return true;
    };
    match in_flight {
        InFlight::Commit(unit) => is_open(books, *unit),
        InFlight::Branch { unit, .. } => is_open(books, *unit),
        InFlight::Table { def, .. } => books.known().schema().judge(def).is_ok(),
        InFlight::Program { def, .. } => can_define(books.known(), def),
    }
}

/// Whether the decision that was in flight fits nothing that is known. Where the disks tell it always fits, so it is looked at over
/// others alone.
fn is_astray<D: Disks>(disks: &D, books: &Books, in_flight: &Option<InFlight>) -> bool
    ensures untold { result ≡ true → (D.view disks.now).told ≡ false }
    ensures fits { result ≡ false → (D.view disks.now).told ≡ false → CanFly books.now in_flight.now }
{
    if disks.is_told() {
        return false;
    }
    !can_fly(books, in_flight)
}

/// The decision that was in flight stands: it is told.
fn flown(recovery: &mut Recovery, in_flight: &InFlight) -> Result<Event, AllocError>
    requires { CanFly (books_of recovery.old) (Some in_flight.now) }
    ensures { IfOk result (λ e. (s : State) (f : Event) → Flies recovery.old in_flight.now f s → AnswersWith s (Some f) recovery.new (Some e)) }
{
    match in_flight {
        InFlight::Commit(unit) => {
            let made = recovery.books().move_of_commit(*unit)?;
            let number = number_in_flight(recovery)?;
            recovery.committed(*unit, made, number)
        }
        InFlight::Branch { unit, base, cause } => {
            let made = recovery.books().move_of_branch(*unit)?;
            let number = number_in_flight(recovery)?;
            recovery.branched(*unit, *base, *cause, made, number)
        }
        InFlight::Table { def, .. } => recovery.table_defined(def),
        InFlight::Program { def, .. } => recovery.program_defined(def),
    }
}

/// No decision in flight stands: a unit is cut, or a program goes on, or the opening is done.
fn resting(recovery: &mut Recovery) -> Result<Option<Event>, AllocError>
    ensures { IfOk result (λ next. (s : State) → Rests recovery.old s → AnswersWith s (rest_in s.units) recovery.new next) }
{
    let coming = recovery.opened()?;
    match coming {
        Coming::Told(event) => Ok(Some(event)),
        // What there is to tell is told at once.
        _ => Ok(None),
    }
}

/// The first event of an opening, where the decision number that was found is above the last that is known, or not.
fn first(
    recovery: &mut Recovery,
    in_flight: &Option<InFlight>,
    later: bool,
) -> Result<Option<Event>, AllocError>
    requires { CanFly (books_of recovery.old) in_flight.now }
    ensures { IfOk result (λ next. (s : State) (f : Option Event) → RestsOrFlies recovery.old in_flight.now f s → AnswersWith s (first_in later f s.units) recovery.new next) }
{
    match in_flight {
        Some(in_flight) => {
            if later {
                let event = flown(recovery, in_flight)?;
                Ok(Some(event))
            } else {
                resting(recovery)
            }
        }
        None => resting(recovery),
    }
}

/// Behind an Opened with this boot, whose decision number is above the last that is known, or not: the recovery, and the first event,
/// which it has done. Over disks that tell nothing there may be none.
pub fn begin<D: Disks>(
    alloc: Global,
    disks: &D,
    books: Books,
    single: bool,
    in_flight: &Option<InFlight>,
    boot: u64,
    later: bool,
) -> Result<(Recovery, Option<Event>), AllocError>
    requires { IsTrue (D.view disks.now).told → (f : Option Event) × (number : ℕ) × (old : State) × (new : State) × IsOpenedBy books single in_flight.now f boot number old new }
    ensures begins { IfOk result (λ r. (e : Event) → r.1 ≡ Some e → (f : Option Event) (number : ℕ) (old new : State) → IsOpenedBy books single in_flight.now f boot number old new
        → later ≡ nat_lt (decisions_in books) number → BeginsOpening f number new r.0 e) }
    ensures comes { IfOk result (λ r. IsTrue (D.view disks.now).told → IsSome r.1) }
{
    let mut books = books;
    books.begin_boot(boot);
    let mut recovery = Recovery::new(alloc, books, single);
    if is_astray(disks, recovery.books(), in_flight) {
        return Ok((recovery, None));
    }
    let first = first(&mut recovery, in_flight, later)?;
    Ok((recovery, first))
}
