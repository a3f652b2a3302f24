//! Two-phase commit.

ghost use Rattle.salt_bytes.specs.Generations.{WhichLog};
ghost use Rattle.salt_bytes.specs.declared.moves.Move.{Move};
ghost use Rattle.salt_commit.specs.Commits.{IsCommitDevice, IsCommitLog, MayCommitUnit, StandsToCommit, UnitPassesLimit, shares_in};
ghost use Rattle.salt_commit.specs.Full.{CommitFills};
ghost use Rattle.salt_commit.specs.Messages.{IsAtRest, IsNewIn, net_of};
ghost use Rattle.salt_commit.specs.Rooms.{HasRoom};
ghost use Rattle.salt_commit.specs.Shares.{next_decision};
ghost use Rattle.salt_commit.specs.Stores.{Generation, IsStore, IsStoreDevice, StandForEither, last_boot, last_decision, reading, shape_of_store};
ghost use Rattle.salt_disk.specs.Disks.{FullWhere, HasCause, IsUnchanged, KeepsBut};
ghost use Rattle.salt_disk.specs.declared.disks.DiskErr.TheVariants.{Full};
ghost use Rattle.salt_model.specs.Kept.{Definition};
ghost use Rattle.salt_net.specs.Turns.{commits};
ghost use Rattle.salt_place.specs.Placement.{GivesPlaceOf, TakesEachKey};
ghost use Rattle.salt_room.specs.Rooms.{HaveRoom};
ghost use Rattle.salt_stands.specs.Commits.{found_after, found_of, view_after};
ghost use Rattle.salt_stands.specs.Coordinator.{Coordinator};
ghost use Rattle.salt_stands.specs.Pieces.{PartView, with_decision};
ghost use Rattle.salt_stands.specs.Placed.{nodes_in};
ghost use Rattle.salt_values.specs.Id.{is_same_id};
ghost use Rattle.salt_values.specs.declared.cont.Cont.{Cont};
ghost use Rattle.salt_values.specs.declared.id.Id.{Id};
ghost use Rattle.std.specs.Prelude.{Err, IfOk, IsTrue, List, OnOk, false, length, option_map, ℕ, ◌+◌, ◌-◌, ◌<◌, ◌^◌, ◌≡◌};
ghost use Rattle.std.specs.Result.{result_err};

use crate::each::{end_each, prepare_each};
use crate::error::StoreErr;
use crate::shares::{mask_of, shares_of};
use crate::store::Store;
use salt_codec::told_changes;
use salt_disk::Disks;
use salt_place::{PlaceKind, Placement};
use salt_values::{Change, Changes, Id, Key};
use std::alloc::AllocError;

impl Store {
    /// What each partition has of a unit's changes.
    fn shares<F: Fn(PlaceKind, &Key, u32) -> u32>(
        &self,
        place: &Placement<F>,
        changes: &[Change],
    ) -> Result<Vec<Changes>, AllocError>
        requires callable { TakesEachKey (F.pre place.now.place) }
        requires answers { GivesPlaceOf (F.post place.now.place) }
        ensures { IfOk result (λ shares. shares.items ≡ shares_in self.now changes.now) }
    {
        shares_of(self.alloc, place, self.decisions.shape(), changes)
    }

    /// Commits a unit by its shares, which are those of its changes, where there is room for their entries and for its decision.
    fn commit_shares<D: Disks>(
        &mut self,
        disks: &mut D,
        unit: Id,
        changes: &[Change],
        mut shares: Vec<Changes>,
        mv: &[u8],
    ) -> Result<u64, StoreErr>
        requires stands { StandsToCommit (D.view disks.old) self.old unit changes.now mv.now }
        requires below { last_decision self.old < 2 ^ 64 - 1 }
        requires rests { IsAtRest self.old }
        requires new { IsNewIn self.old unit }
        requires shared { shares.items ≡ shares_in self.old changes.now }
        requires room { HasRoom self.old }
        requires room_each { HaveRoom (length self.old.parts) self.old.parts shares.items }

        ensures ok { (which : WhichLog) (c : Coordinator Definition) (v : ℕ → PartView) (m : Move) (conts : List Cont) → IsStore reading (D.view disks.old) self.old which c v
            → MayCommitUnit (D.view disks.old).told reading c v unit changes.now mv.now m conts
            → OnOk result (IsStore reading (D.view disks.new) self.new which (with_decision c (next_decision c unit changes.now mv.now) conts) (view_after c v changes.now (next_decision c unit changes.now mv.now))) }
        ensures number { IfOk result (λ number. number ≡ last_decision self.old + 1) }
        ensures boot { last_boot self.new ≡ last_boot self.old }
        ensures images { (which : WhichLog) (c : Coordinator Definition) (v : ℕ → PartView) (m : Move) (conts : List Cont) → IsStore reading (D.view disks.old) self.old which c v
            → MayCommitUnit (D.view disks.old).told reading c v unit changes.now mv.now m conts → IsTrue (D.view disks.old).told
            → StandForEither reading (D.view disks.new) (found_of c v) (found_after c v changes.now (next_decision c unit changes.now mv.now) conts) }

        ensures net { OnOk result (net_of self.new ≡ option_map (commits unit (nodes_in (shape_of_store self.old) changes.now)) (net_of self.old)) }
        ensures rests { OnOk result (IsAtRest self.new) }
        ensures others_new { OnOk result ((w : Id) → is_same_id w unit ≡ false → IsNewIn self.old w → IsNewIn self.new w) }

        ensures others { KeepsBut (IsCommitDevice self.old changes.now) (D.view disks.old) (D.view disks.new) (result_err result) }
        ensures cause { HasCause (D.view disks.old) (D.view disks.new) (result_err result) }
        ensures full { IsTrue (D.view disks.old).told → FullWhere (UnitPassesLimit (D.view disks.old).limit self.old unit changes.now mv.now) (result_err result) }
        ensures untouched { IsTrue (D.view disks.old).told → (n : ℕ) → result ≡ Err (Full n) → IsCommitLog self.old changes.now n → IsUnchanged (D.view disks.old) (D.view disks.new) n }
    {
        told_changes(changes);
        let mask = mask_of(&shares);
        let mut doubted = Vec::new(self.alloc);
        prepare_each(
            self.alloc,
            disks,
            &mut self.parts,
            &mut self.messages,
            unit,
            &shares,
            &mut doubted,
        )?;
        let number = self.decisions.decide(self.alloc, disks, unit, mask, mv)?;
        end_each(
            self.alloc,
            disks,
            &mut self.parts,
            &mut self.messages,
            unit,
            &mut shares,
            doubted.as_slice(),
        )?;
        Ok(number)
    }

    /// Commits a unit, and gives the number of its decision: first room is made, in each partition that has changes of it and in the
    /// coordinator's log. Then its changes are prepared in each partition that has some, in order of numbers, then it is decided with its
    /// move, and then applied; or where commits go over messages, by turns of the net, which then rests. After Ok the unit is kept.
    /// Whatever the call answers, each image of the devices stands for what stood before, or for that with the unit: its changes in the
    /// rows, one decision more, and the continuations that its move leaves open. After an error, also of a device that is full, the unit
    /// may be decided or not: a device with pages may be full behind the decision.
    pub fn commit<D: Disks, F: Fn(PlaceKind, &Key, u32) -> u32>(
        &mut self,
        disks: &mut D,
        place: &Placement<F>,
        unit: Id,
        changes: &[Change],
        mv: &[u8],
    ) -> Result<u64, StoreErr>
        requires callable { TakesEachKey (F.pre place.now.place) }
        requires answers { GivesPlaceOf (F.post place.now.place) }
        requires stands { StandsToCommit (D.view disks.old) self.old unit changes.now mv.now }
        requires below { last_decision self.old < 2 ^ 64 - 1 }
        requires rests { IsAtRest self.old }
        requires new { IsNewIn self.old unit }

        ensures ok { (which : WhichLog) (c : Coordinator Definition) (v : ℕ → PartView) (m : Move) (conts : List Cont) → IsStore reading (D.view disks.old) self.old which c v
            → MayCommitUnit (D.view disks.old).told reading c v unit changes.now mv.now m conts
            → OnOk result ((g : Generation c v) × IsStore reading (D.view disks.new) self.new g.which (with_decision g.coordinator (next_decision g.coordinator unit changes.now mv.now) conts)
            (view_after g.coordinator g.views changes.now (next_decision g.coordinator unit changes.now mv.now))) }
        ensures number { IfOk result (λ number. number ≡ last_decision self.old + 1) }
        ensures boot { last_boot self.new ≡ last_boot self.old }
        ensures images { (which : WhichLog) (c : Coordinator Definition) (v : ℕ → PartView) (m : Move) (conts : List Cont) → IsStore reading (D.view disks.old) self.old which c v
            → MayCommitUnit (D.view disks.old).told reading c v unit changes.now mv.now m conts → IsTrue (D.view disks.old).told
            → StandForEither reading (D.view disks.new) (found_of c v) (found_after c v changes.now (next_decision c unit changes.now mv.now) conts) }

        ensures net { OnOk result (net_of self.new ≡ option_map (commits unit (nodes_in (shape_of_store self.old) changes.now)) (net_of self.old)) }
        ensures rests { OnOk result (IsAtRest self.new) }
        ensures others_new { OnOk result ((w : Id) → is_same_id w unit ≡ false → IsNewIn self.old w → IsNewIn self.new w) }

        ensures others { KeepsBut (IsStoreDevice (shape_of_store self.old).parts) (D.view disks.old) (D.view disks.new) (result_err result) }
        ensures cause { HasCause (D.view disks.old) (D.view disks.new) (result_err result) }
        ensures full { IsTrue (D.view disks.old).told → FullWhere (CommitFills (D.view disks.new) (shape_of_store self.old) unit changes.now mv.now) (result_err result) }
    {
        let shares = self.shares(place, changes)?;
        self.make_room(disks, &shares)?;
        self.commit_shares(disks, unit, changes, shares, mv)
    }
}
