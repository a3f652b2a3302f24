//! What is to come, with what the storage gives for it.

ghost use Rattle.salt_books.specs.declared.coming.Coming.TheVariants.{Nothing};
ghost use Rattle.salt_disk.specs.Disks.{HasCause};
ghost use Rattle.salt_books.specs.Books.{HaveUnit};
ghost use Rattle.salt_engine.specs.Giving.{AsksForOver, CanBeDone, CanTake, LeavesUngiven, Provides, SendsGiven};
ghost use Rattle.law_states.specs.States.{State};
ghost use Rattle.salt_storage.specs.Answers.{disk_err};
ghost use Rattle.salt_storage.specs.Staying.{StaysWithin};
ghost use Rattle.salt_place.specs.Placement.{GivesPlaceOf, TakesEachKey};
ghost use Rattle.std.specs.Prelude.{IfErr, IfOk, IsTrue, None, OnOk, false, true, ◌≡◌};

use crate::deciding::{Decided, decide_branch, decide_commit, load};
use crate::flights::InFlight;
use salt_books::{Asking, Books, Coming};
use salt_cont::Move;
use salt_disk::Disks;
use salt_loaded::Loaded;
use salt_model::{Cause, Event};
use salt_place::{PlaceKind, Placement};
use salt_storage::{Halt, Storage};
use salt_units::leaves_keys;
use salt_values::{Id, Key};
use std::alloc::Global;

/// What is to come, with what the storage has given for it.
#[derive(Drop)]
pub enum Given {
    Nothing,
    /// The event is done already: nothing was asked for it.
    Told(Event),
    /// The rows in the reach of the statement that a unit is to do.
    Rows {
        asking: Asking,
        rows: Loaded,
    },
    /// The commit of a unit is decided, by the decision of this number and with this move of its program.
    Committed {
        unit: Id,
        made: Move,
        number: u64,
    },
    /// The branch of a unit of a later part of this program is decided, by the decision of this number and with this move.
    Branched {
        unit: Id,
        base: Id,
        cause: Cause,
        made: Move,
        number: u64,
    },
}

/// Whether a unit is open.
pub fn is_open(books: &Books, unit: Id) -> bool
    ensures { result ≡ true → HaveUnit books.now unit }
{
    match books.unit_named(unit) {
        Some(_held) => true,
        None => false,
    }
}

/// Whether what is to come is of an open unit, and its statement sets no key.
fn can_be_done(books: &Books, coming: &Coming) -> bool
    ensures { result ≡ true → CanBeDone books.now coming.now }
{
    match coming {
        Coming::Nothing => true,
        Coming::Told(_event) => true,
        Coming::Act(asking) => {
            if !is_open(books, asking.unit) {
                return false;
            }
            leaves_keys(books.known().schema(), asking.statement.get())
        }
        Coming::Commit(unit) => is_open(books, *unit),
        Coming::Branch { unit, .. } => is_open(books, *unit),
    }
}

/// Whether what is to come fits nothing that is known. Where the disks tell it always fits, so it is looked at over others alone.
fn is_astray<D: Disks>(disks: &D, books: &Books, coming: &Coming) -> bool
    ensures untold { result ≡ true → (D.view disks.now).told ≡ false }
    ensures fits { result ≡ false → (D.view disks.now).told ≡ false → CanBeDone books.now coming.now }
{
    if disks.is_told() {
        return false;
    }
    !can_be_done(books, coming)
}

/// What the storage gives for what is to come, whether in a line or in an opening: the rows that a statement reaches, or a decision,
/// which is in flight from when it is asked.
pub fn provide<S: Storage, D: Disks, F: Fn(PlaceKind, &Key, u32) -> u32>(
    alloc: Global,
    storage: &mut S,
    disks: &mut D,
    place: &Placement<F>,
    books: &Books,
    in_flight: &mut Option<InFlight>,
    coming: Coming,
) -> Result<Given, Halt>
    requires callable { TakesEachKey (F.pre place.now.place) }
    requires answers { GivesPlaceOf (F.post place.now.place) }
    requires none { in_flight.old ≡ None }
    requires able { S.able (D.view disks.old) storage.old }
    requires ready { IsTrue (D.view disks.old).told → (s : State) × AsksForOver S.holds S.is_new (D.view disks.old) storage.old books.now coming s }
    ensures able { S.able (D.view disks.new) storage.new }
    ensures taken { IfOk result (CanTake books.now) }
    ensures given { IfOk result (Provides S.holds S.is_new (D.view disks.old) (D.view disks.new) storage.old storage.new books.now in_flight.new coming) }
    ensures undone { IfErr result (LeavesUngiven S.holds S.is_new S.leaves S.fills (D.view disks.old) (D.view disks.new) storage.old storage.new books.now in_flight.new coming) }
    ensures sent { OnOk result (SendsGiven S.holds S.is_new S.asked S.net (D.view disks.old) storage.old storage.new books.now coming) }
    ensures within { StaysWithin (S.asked storage.old) (S.asked storage.new) (D.view disks.old) (D.view disks.new) }
    ensures cause { HasCause (D.view disks.old) (D.view disks.new) (disk_err result) }
    ensures still { coming ≡ Nothing → IsTrue (D.view disks.old).told → disks.new ≡ disks.old }
{
    storage.stands(disks);
    if is_astray(disks, books, &coming) {
        return Err(storage.reject(disks));
    }
    match coming {
        Coming::Nothing => Ok(Given::Nothing),
        Coming::Told(event) => Ok(Given::Told(event)),
        Coming::Act(asking) => {
            let rows = load(alloc, storage, disks, place, books, &asking)?;
            Ok(Given::Rows { asking, rows })
        }
        Coming::Commit(unit) => {
            *in_flight = Some(InFlight::Commit(unit));
            let decided = decide_commit(alloc, storage, disks, place, books, unit)?;
            let Decided { made, number } = decided;
            Ok(Given::Committed { unit, made, number })
        }
        Coming::Branch { unit, base, cause } => {
            *in_flight = Some(InFlight::Branch { unit, base, cause });
            let decided = decide_branch(storage, disks, place, books, unit)?;
            let Decided { made, number } = decided;
            Ok(Given::Branched {
                unit,
                base,
                cause,
                made,
                number,
            })
        }
    }
}
