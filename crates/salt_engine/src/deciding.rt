//! What is asked of the storage: the rows that a statement reaches, and decisions of units.

ghost use Rattle.salt_books.specs.Books.{AreBooks, HaveUnit};
ghost use Rattle.salt_disk.specs.Disks.{HasCause};
ghost use Rattle.salt_engine.specs.Deciding.{AreAsked, CanBranch, CanCommit, CanLoad, DecidesBranch, DecidesCommit, LeavesUnbranched, LeavesUncommitted, LeavesUndone, SendsBranch, SendsCommit, StaysStored};
ghost use Rattle.salt_eval.specs.Scans.{IsKeyed};
ghost use Rattle.law_states.specs.OpenUnits.{OpenUnit, UnitState, unit_named};
ghost use Rattle.salt_storage.specs.Answers.{disk_err};
ghost use Rattle.salt_storage.specs.Staying.{StaysWithin};
ghost use Rattle.salt_place.specs.Placement.{GivesPlaceOf, TakesEachKey};
ghost use Rattle.std.specs.Cow.{cow_slice_items};
ghost use Rattle.std.specs.Prelude.{IfErr, IfOk, IsTrue, OnOk, Some, map, ◌≡◌};
ghost use Rattle.salt_stands.specs.Turning.{change_at};

use law_decisions::decided_ends_may_be_kept;
use salt_books::{Asking, Books};
use salt_cont::Move;
use salt_disk::Disks;
use salt_loaded::Loaded;
use salt_place::{PlaceKind, Placement};
use salt_storage::{Halt, Storage};
use salt_values::{Change, Id, Key};
use std::alloc::{AllocError, Global};
use std::borrow::CowSlice;

/// The rows in the reach of the statement that a unit is to do; none where it reaches nothing.
pub(crate) fn load<S: Storage, D: Disks, F: Fn(PlaceKind, &Key, u32) -> u32>(
    alloc: Global,
    storage: &mut S,
    disks: &mut D,
    place: &Placement<F>,
    books: &Books,
    asking: &Asking,
) -> Result<Loaded, Halt>
    requires callable { TakesEachKey (F.pre place.now.place) }
    requires answers { GivesPlaceOf (F.post place.now.place) }
    requires able { S.able (D.view disks.old) storage.old }
    requires ready { IsTrue (D.view disks.old).told → CanLoad S.holds S.is_new (D.view disks.old) storage.old books.now asking.now }
    ensures able { S.able (D.view disks.new) storage.new }
    ensures rows { IfOk result (λ rows. AreAsked S.holds S.is_new (D.view disks.old) storage.old asking.now rows) }
    ensures keyed { IfOk result (λ rows. IsKeyed rows) }
    ensures stored { OnOk result (StaysStored S.holds S.is_new (D.view disks.old) (D.view disks.new) storage.old storage.new) }
    ensures undone { IfErr result (LeavesUndone S.holds S.is_new S.leaves S.fills (D.view disks.old) (D.view disks.new) storage.old storage.new books.now asking.now) }
    ensures sent { OnOk result (S.net storage.new ≡ S.net storage.old) }
    ensures within { StaysWithin (S.asked storage.old) (S.asked storage.new) (D.view disks.old) (D.view disks.new) }
    ensures cause { HasCause (D.view disks.old) (D.view disks.new) (disk_err result) }
{
    match &asking.reach {
        Some(reach) => {
            let rows = storage.load(disks, place, books.known().schema(), reach.get())?;
            Ok(rows)
        }
        None => Ok(Loaded::none(alloc)),
    }
}

/// The changes of an open unit, lent where they stand in one piece.
fn changes_of(
    alloc: Global,
    books: &Books,
    unit: Id,
) -> Result<CowSlice<'_, Change, Global>, AllocError>
    ensures { IfOk result (λ changes. (s : UnitState) (o : OpenUnit) → AreBooks books.now s → unit_named unit s.units ≡ Some o → cow_slice_items changes ≡ map change_at o.changes) }
{
    match books.unit_named(unit) {
        Some(held) => held.open.lent_changes(alloc),
        None => Ok(CowSlice::Borrowed(&[])),
    }
}

/// What was decided of a unit: the move of its program, and the number of the decision.
#[derive(Drop)]
pub struct Decided {
    pub made: Move,
    pub number: u64,
}

/// Decides the commit of a unit.
pub(crate) fn decide_commit<S: Storage, D: Disks, F: Fn(PlaceKind, &Key, u32) -> u32>(
    alloc: Global,
    storage: &mut S,
    disks: &mut D,
    place: &Placement<F>,
    books: &Books,
    unit: Id,
) -> Result<Decided, Halt>
    requires callable { TakesEachKey (F.pre place.now.place) }
    requires answers { GivesPlaceOf (F.post place.now.place) }
    requires able { S.able (D.view disks.old) storage.old }
    requires there { HaveUnit books.now unit }
    requires ready { IsTrue (D.view disks.old).told → CanCommit S.holds S.is_new (D.view disks.old) storage.old books.now unit }
    ensures able { S.able (D.view disks.new) storage.new }
    ensures committed { IfOk result (DecidesCommit S.holds S.is_new (D.view disks.old) (D.view disks.new) storage.old storage.new books.now unit) }
    ensures undone { IfErr result (LeavesUncommitted S.holds S.is_new S.leaves S.fills (D.view disks.old) (D.view disks.new) storage.old storage.new books.now unit) }
    ensures sent { OnOk result (SendsCommit S.holds S.is_new S.asked S.net (D.view disks.old) storage.old storage.new books.now unit) }
    ensures within { StaysWithin (S.asked storage.old) (S.asked storage.new) (D.view disks.old) (D.view disks.new) }
    ensures cause { HasCause (D.view disks.old) (D.view disks.new) (disk_err result) }
{
    decided_ends_may_be_kept();
    storage.stands(disks);
    let made = books.move_of_commit(unit)?;
    let changes = changes_of(alloc, books, unit)?;
    let number = storage.commit(disks, place, unit, changes.as_slice(), &made)?;
    Ok(Decided { made, number })
}

/// Decides the branch of a unit of a later part, which has failed by this cause.
pub(crate) fn decide_branch<S: Storage, D: Disks, F: Fn(PlaceKind, &Key, u32) -> u32>(
    storage: &mut S,
    disks: &mut D,
    place: &Placement<F>,
    books: &Books,
    unit: Id,
) -> Result<Decided, Halt>
    requires callable { TakesEachKey (F.pre place.now.place) }
    requires answers { GivesPlaceOf (F.post place.now.place) }
    requires able { S.able (D.view disks.old) storage.old }
    requires there { HaveUnit books.now unit }
    requires ready { IsTrue (D.view disks.old).told → CanBranch S.holds S.is_new (D.view disks.old) storage.old books.now unit }
    ensures able { S.able (D.view disks.new) storage.new }
    ensures branched { IfOk result (DecidesBranch S.holds S.is_new (D.view disks.old) (D.view disks.new) storage.old storage.new books.now unit) }
    ensures undone { IfErr result (LeavesUnbranched S.holds S.is_new S.leaves S.fills (D.view disks.old) (D.view disks.new) storage.old storage.new books.now unit) }
    ensures sent { OnOk result (SendsBranch S.holds S.is_new S.asked S.net (D.view disks.old) storage.old storage.new books.now unit) }
    ensures within { StaysWithin (S.asked storage.old) (S.asked storage.new) (D.view disks.old) (D.view disks.new) }
    ensures cause { HasCause (D.view disks.old) (D.view disks.new) (disk_err result) }
{
    decided_ends_may_be_kept();
    storage.stands(disks);
    let made = books.move_of_branch(unit)?;
    let number = storage.commit(disks, place, unit, &[], &made)?;
    Ok(Decided { made, number })
}
