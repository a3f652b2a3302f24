//! The store, and what is done in it.

ghost use Rattle.salt_bytes.specs.Generations.{WhichLog};
ghost use Rattle.salt_commit.specs.Full.{EntryOrRoomFills, next_boot, next_definition};
ghost use Rattle.salt_commit.specs.Messages.{IsAtRest, IsNewIn, messages_of, net_of, nothing_sent, with_waiting};
ghost use Rattle.salt_commit.specs.Stores.{Generation, IsStore, IsStoreDevice, MayDefine, StandForEither, StandsOnDevices, last_boot, last_decision, next_text, numbers_in, reading, shape_of_store};
ghost use Rattle.salt_disk.specs.Disks.{FullWhere, HasCause, KeepsBut};
ghost use Rattle.salt_model.specs.Kept.{Definition};
ghost use Rattle.salt_place.specs.Placement.{GivesPlaceOf, TakesEachKey};
ghost use Rattle.salt_stands.specs.Commits.{found_of};
ghost use Rattle.salt_stands.specs.Coordinator.{Coordinator};
ghost use Rattle.salt_stands.specs.Pieces.{PartView, with_boot, with_definition};
ghost use Rattle.salt_net.specs.declared.kinds.NodeStatus.TheVariants.{Unknown};
ghost use Rattle.salt_turns.specs.Amid.{status_now};
ghost use Rattle.salt_values.specs.declared.id.Id.{Id};
ghost use Rattle.std.specs.Prelude.{IfOk, IsTrue, OnErr, OnOk, Some, option_map, true, ℕ, ◌+◌, ◌-◌, ◌<◌, ◌^◌, ◌≡◌};
ghost use Rattle.std.specs.Result.{result_err};

use crate::error::StoreErr;
use salt_decisions::Decisions;
use salt_disk::Disks;
use salt_net::{Messages, Net, NodeStatus};
use salt_paged::Partition;
use salt_place::{PlaceKind, Placement};
use salt_values::{Id, Key};
use std::alloc::{AllocError, Global};
use std::marker::Model;

/// A database on its devices: the coordinator's log, and the partitions in order of their numbers. After an error of a call on
/// it that goes to the devices it is opened again before it is used.
#[derive(Drop)]
pub struct Store {
    pub(crate) alloc: Global,
    pub(crate) decisions: Decisions,
    pub(crate) parts: Vec<Partition>,
    // the net that commits go over, and its turns, where they do
    pub(crate) messages: Option<Messages>,
}

impl Model for Store {
    ghost use Rattle.salt_commit.specs.Shown.{Shown};
    ghost use Rattle.salt_decisions.specs.Decisions.{shape_of};
    ghost use Rattle.salt_paged.specs.contracts.partition.Partition as partition;
    ghost use Rattle.std.specs.Coded.{codes};
    ghost use Rattle.std.specs.Prelude.{length, ◌≡◌};

    ghost Value = { Shown };

    ghost coded = { Prim.hlevel (codes, partition.the_row.coded) };

    ghost view = { λ x. record { decisions = x.decisions; parts = x.parts.items; messages = x.messages } };

    ghost invariant = { λ x. length x.parts.items ≡ (shape_of x.decisions).parts };
}

/// Whether the coordinator knows nothing of the unit.
fn is_unknown(messages: &Messages, unit: Id) -> bool
    ensures { result ≡ true → status_now messages.now unit 0 ≡ Unknown }
{
    messages.net().status(unit, 0) == NodeStatus::Unknown
}

impl Store {
    /// The number of the last boot, 0 before the first.
    pub fn last_boot(&self) -> u64
        ensures { result ≡ last_boot self.now }
    {
        self.decisions.last_boot()
    }

    /// The number of the last decision or definition, 0 before the first.
    pub fn decisions(&self) -> u64
        ensures { result ≡ last_decision self.now }
    {
        self.decisions.last_decision()
    }

    /// From now on commits go over messages, in a net in which nothing has happened and no pairs wait.
    pub fn over_net(&mut self)
        ensures net { net_of self.new ≡ Some nothing_sent }
        ensures rests { IsAtRest self.new }
        ensures rest { self.new ≡ record self.old { messages = self.new.messages } }
    {
        self.messages = Some(Messages::new(self.alloc));
    }

    /// These pairs wait behind the others. Where commits go over no messages none wait.
    pub fn arm_net(&mut self, pairs: &[(u64, u8)]) -> Result<(), AllocError>
        ensures ok { OnOk result (net_of self.new ≡ option_map (with_waiting pairs.now) (net_of self.old)) }
        ensures err { OnErr result (net_of self.new ≡ net_of self.old) }
        ensures rests { IsAtRest self.old → IsAtRest self.new }
        ensures new { (u : Id) → IsNewIn self.old u → IsNewIn self.new u }
        ensures rest { self.new ≡ record self.old { messages = self.new.messages } }
    {
        let Some(messages) = &mut self.messages else {
            return Ok(());
        };
        messages.arm(pairs)
    }

    /// Whether the unit was not started in the net that commits go over, where they do.
    pub fn is_new(&self, unit: Id) -> bool
        ensures { IsTrue result → IsNewIn self.now unit }
    {
        match &self.messages {
            Some(messages) => is_unknown(messages, unit),
            None => true,
        }
    }

    /// Gives the net, where commits go over messages.
    pub fn into_net(self) -> Option<Net>
        requires { IsAtRest self }
        ensures { result ≡ option_map (λ turning. turning.events) (net_of self) }
    {
        let Store { messages, .. } = self;
        let Some(messages) = messages else {
            return None;
        };
        Some(messages.into_net())
    }

    /// Begins the next boot, and gives its number: first room is made for its entry. After Ok it is kept. Whatever the call answers,
    /// each image of the devices stands for what stood before, or for that with one boot more.
    pub fn boot<D: Disks>(&mut self, disks: &mut D) -> Result<u64, StoreErr>
        requires stands { StandsOnDevices (D.view disks.old) self.old }
        requires below { last_boot self.old < 2 ^ 64 - 1 }

        ensures ok { (which : WhichLog) (c : Coordinator Definition) (v : ℕ → PartView) → IsStore reading (D.view disks.old) self.old which c v
            → OnOk result ((g : Generation c v) × IsStore reading (D.view disks.new) self.new g.which (with_boot g.coordinator) g.views) }
        ensures number { IfOk result (λ boot. boot ≡ last_boot self.old + 1) }
        ensures same { OnErr result (numbers_in self.new ≡ numbers_in self.old) }
        ensures images { (which : WhichLog) (c : Coordinator Definition) (v : ℕ → PartView) → IsStore reading (D.view disks.old) self.old which c v → IsTrue (D.view disks.old).told
            → StandForEither reading (D.view disks.new) (found_of c v) (found_of (with_boot c) v) }

        ensures messages { messages_of self.new ≡ messages_of self.old }
        ensures others { KeepsBut (IsStoreDevice (shape_of_store self.old).parts) (D.view disks.old) (D.view disks.new) (result_err result) }
        ensures cause { HasCause (D.view disks.old) (D.view disks.new) (result_err result) }
        ensures full { IsTrue (D.view disks.old).told → FullWhere (EntryOrRoomFills (D.view disks.new) (shape_of_store self.old) next_boot) (result_err result) }
    {
        self.renew_full(disks)?;
        self.append_boot(disks)
    }

    /// Adds a definition by its canonical text, which the definitions before it do not refuse, and gives the number of its
    /// decision: first room is made for its entry. After Ok it is kept. Whatever the call answers, each image of the devices stands
    /// for what stood before, or for that with the definition.
    pub fn define<D: Disks, F: Fn(PlaceKind, &Key, u32) -> u32>(
        &mut self,
        disks: &mut D,
        _place: &Placement<F>,
        text: &[u8],
    ) -> Result<u64, StoreErr>
        requires callable { TakesEachKey (F.pre _place.now.place) }
        requires answers { GivesPlaceOf (F.post _place.now.place) }
        requires stands { StandsOnDevices (D.view disks.old) self.old }
        requires below { last_decision self.old < 2 ^ 64 - 1 }

        ensures ok { (which : WhichLog) (c : Coordinator Definition) (v : ℕ → PartView) (def : Definition) → IsStore reading (D.view disks.old) self.old which c v
            → (IsTrue (D.view disks.old).told → MayDefine reading c text.now def) → OnOk result ((g : Generation c v) × IsStore reading (D.view disks.new) self.new g.which (with_definition g.coordinator (next_text g.coordinator text.now) def) g.views) }
        ensures number { IfOk result (λ number. number ≡ last_decision self.old + 1) }
        ensures same { OnErr result (numbers_in self.new ≡ numbers_in self.old) }
        ensures images { (which : WhichLog) (c : Coordinator Definition) (v : ℕ → PartView) (def : Definition) → IsStore reading (D.view disks.old) self.old which c v → MayDefine reading c text.now def → IsTrue (D.view disks.old).told
            → StandForEither reading (D.view disks.new) (found_of c v) (found_of (with_definition c (next_text c text.now) def) v) }

        ensures messages { messages_of self.new ≡ messages_of self.old }
        ensures others { KeepsBut (IsStoreDevice (shape_of_store self.old).parts) (D.view disks.old) (D.view disks.new) (result_err result) }
        ensures cause { HasCause (D.view disks.old) (D.view disks.new) (result_err result) }
        ensures full { IsTrue (D.view disks.old).told → FullWhere (EntryOrRoomFills (D.view disks.new) (shape_of_store self.old) (next_definition text.now)) (result_err result) }
    {
        self.renew_full(disks)?;
        self.append_definition(disks, text)
    }
}
