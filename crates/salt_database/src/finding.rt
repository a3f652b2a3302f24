//! What the storage holds is found again behind a fall, and opened.

ghost use Rattle.salt_books.specs.declared.books.Books.{Books};
ghost use Rattle.salt_database.specs.Finding.{IsFoundAgain, IsOpenedBy, IsOpeningWith};
ghost use Rattle.salt_database.specs.Performing.{ComesInOpening};
ghost use Rattle.salt_disk.specs.Disks.{HasCause};
ghost use Rattle.salt_engine.specs.declared.stage.Stage.TheVariants.{Down, Lost};
ghost use Rattle.law_states.specs.States.{State};
ghost use Rattle.salt_model.specs.Kept.{Kept};
ghost use Rattle.salt_model.specs.declared.events.Event.{Event};
ghost use Rattle.salt_storage.specs.Answers.{IsLater, MayFail, disk_err, open_disk_err};
ghost use Rattle.salt_storage.specs.Netted.{net_begun};
ghost use Rattle.salt_storage.specs.Staying.{StaysWithin};
ghost use Rattle.salt_storage.specs.Writing.{OfOpening};
ghost use Rattle.salt_storage.specs.declared.halt.Halt.TheVariants.{DeviceFull, Memory};
ghost use Rattle.salt_storage.specs.OpenErr.{OpenErr};
ghost use Rattle.salt_place.specs.Placement.{GivesPlaceOf, TakesEachKey};
ghost use Rattle.std.specs.Prelude.{Err, IfErr, IfOk, IsSome, IsTrue, None, OnErr, OnOk, Option, false, ℕ, [], if◌then◌else◌, ◌++◌, ◌∷◌, ◌≡◌};

use crate::beginning::begin;
use crate::opening::Opening;
use crate::recovering::of_opening;
use salt_books::Books;
use salt_disk::Disks;
use salt_engine::{InFlight, Stage};
use salt_model::{Event, Story};
use salt_place::{PlaceKind, Placement};
use salt_storage::{Halt, OpenErr, Storage};
use salt_values::Key;
use std::mem;

/// What is in flight behind an Opened: the decision that was, where it stands, until it is told.
fn still_in_flight(in_flight: Option<InFlight>, stands: bool) -> Option<InFlight>
    ensures { result ≡ (if stands then in_flight else None) }
{
    if stands { in_flight } else { None }
}

impl<S: Storage> Opening<S> {
    /// Finds behind a fall what the storage holds: the books stay.
    pub(crate) fn find_behind<D: Disks, F: Fn(PlaceKind, &Key, u32) -> u32>(
        &mut self,
        disks: &mut D,
        place: &Placement<F>,
    ) -> Result<(), OpenErr>
        requires callable { TakesEachKey (F.pre place.now.place) }
        requires answers { GivesPlaceOf (F.post place.now.place) }
        requires settled { S.settled (D.view disks.old) self.old.storage }
        requires left { IsTrue (D.view disks.old).told → (a b : Kept) × S.leaves (D.view disks.old) self.old.storage a b }
        ensures able { S.able (D.view disks.new) self.new.storage }
        ensures some { OnOk result (IsSome self.new.found) }
        ensures found { OnOk result ((x : Books) (a b : Kept) → self.old.stage ≡ Down x → S.leaves (D.view disks.old) self.old.storage a b →
            IsFoundAgain (S.holds (D.view disks.new) self.new.storage) x a b self.new.found self.new.stage) }
        ensures stage { self.new.stage ≡ self.old.stage }
        ensures begun { OnOk result (S.net self.new.storage ≡ net_begun (S.asked self.new.storage)) }
        ensures unfound { OnErr result (self.new.found ≡ self.old.found) }
        ensures leaves { OnErr result ((a b : Kept) → S.leaves (D.view disks.old) self.old.storage a b → S.leaves (D.view disks.new) self.new.storage a b) }
        ensures late { IfErr result IsLater }
        ensures known { IfErr result (λ e. (a b : Kept) → S.leaves (D.view disks.old) self.old.storage a b → MayFail (S.rests (D.view disks.new) self.new.storage) a b e) }
        ensures full { (dev : ℕ) → result ≡ Err (OpenErr.Full dev) → S.fills (D.view disks.new) self.new.storage OfOpening dev }
        ensures single { self.new.single ≡ self.old.single }
        ensures flies { self.new.in_flight ≡ self.old.in_flight }
        ensures within { StaysWithin (S.asked self.old.storage) (S.asked self.new.storage) (D.view disks.old) (D.view disks.new) }
        ensures cause { HasCause (D.view disks.old) (D.view disks.new) (open_disk_err result) }
    {
        let numbers = self.storage.reopen(disks, place)?;
        self.found = Some(numbers);
        Ok(())
    }

    /// A boot of this number has begun: its first event is done, and the Opened is told. Where that event is the decision in flight, it
    /// stays there until it is told. An error leaves the story as it was.
    pub(crate) fn open_boot<D: Disks>(
        &mut self,
        disks: &mut D,
        books: Books,
        boot: u64,
        number: u64,
        story: &mut Story,
    ) -> Result<Event, Halt>
        requires lost { self.old.stage ≡ Lost }
        requires able { S.able (D.view disks.old) self.old.storage }
        requires opened { IsTrue (D.view disks.old).told → (f : Option Event) × (old : State) × (new : State) × IsOpenedBy books self.old.single self.old.in_flight f boot number old new }
        ensures able { S.able (D.view disks.new) self.new.storage }
        ensures plain { IfOk result (λ e. (D.view disks.old).told ≡ false → ComesInOpening e) }
        ensures opens { IfOk result (λ e. (f : Option Event) (old new : State) → IsOpenedBy books self.old.single self.old.in_flight f boot number old new
            → IsOpeningWith f number new self.new.stage self.new.in_flight e) }
        ensures tells { OnOk result (story.new ≡ story.old ++ Event.Opened boot number ∷ []) }
        ensures still { OnOk result (disks.new ≡ disks.old) }
        ensures memory { IfErr result (λ halt. IsTrue (D.view disks.old).told → (halt ≡ Memory) × (disks.new ≡ disks.old)) }
        ensures full { (dev : ℕ) → result ≡ Err (DeviceFull dev) → ⊥ }
        ensures within { StaysWithin (S.asked self.old.storage) (S.asked self.new.storage) (D.view disks.old) (D.view disks.new) }
        ensures cause { HasCause (D.view disks.old) (D.view disks.new) (disk_err result) }
        ensures lost { OnErr result (self.new.stage ≡ Lost) }
        ensures flies { OnErr result (self.new.in_flight ≡ self.old.in_flight) }
        ensures untold { OnErr result (story.new ≡ story.old) }
        ensures storage { self.new.storage ≡ self.old.storage }
        ensures found { self.new.found ≡ self.old.found }
        ensures single { self.new.single ≡ self.old.single }
    {
        let stands = number > books.known().decisions();
        let (recovery, first) = begin(
            self.alloc,
            disks,
            books,
            self.single,
            &self.in_flight,
            boot,
            stands,
        )?;
        let Some(first) = of_opening(disks, first) else {
            return Err(self.storage.reject(disks));
        };
        story.push(Event::Opened {
            boot,
            decisions: number,
        })?;
        self.in_flight = still_in_flight(mem::replace(&mut self.in_flight, None), stands);
        self.stage = Stage::Going(recovery);
        Ok(first)
    }
}
