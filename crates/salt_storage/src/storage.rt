//! The storage of a database.

ghost use Rattle.salt_bytes.specs.declared.moves.Move.{Move};
ghost use Rattle.law_definitions.specs.Texts.{definition_in};
ghost use Rattle.salt_disk.specs.Disks.{HasCause, KeepsAll, View};
ghost use Rattle.salt_eval.specs.Scans.{IsKeyed};
ghost use Rattle.salt_model.specs.Kept.{Definition, Kept, schema_of};
ghost use Rattle.salt_storage.specs.Answers.{IsLater, IsRefusal, MayFail, WritesNothing, disk_err, disk_err_of, open_disk_err};
ghost use Rattle.salt_net.specs.Turns.{Turning};
ghost use Rattle.salt_storage.specs.Netted.{net_armed, net_begun, net_committed};
ghost use Rattle.salt_storage.specs.Staying.{Setup, StaysWithin};
ghost use Rattle.salt_storage.specs.Storing.{IsFound, IsPartOf, IsSoundKept, MayDecide, MayDefine, Reopens, booted, decided, defined};
ghost use Rattle.salt_storage.specs.Writing.{FindsNoMore, OfBoot, OfDefinition, OfOpening, OfUnit, ToWrite};
ghost use Rattle.salt_storage.specs.declared.halt.Halt.TheVariants.{DeviceFull, DiskFault};
ghost use Rattle.salt_gatelog.specs.declared.unopened.OpenErr.{OpenErr};
ghost use Rattle.salt_stands.specs.Stands.{are_spent};
ghost use Rattle.salt_values.specs.Id.{is_same_id};
ghost use Rattle.salt_place.specs.Placement.{GivesPlaceOf, TakesEachKey};
ghost use Rattle.salt_values.specs.declared.cont.Cont.{Cont};
ghost use Rattle.salt_values.specs.declared.id.Id.{Id};
ghost use Rattle.std.specs.Prelude.{Err, IfErr, IfOk, IsTrue, List, OnErr, OnOk, Option, Some, [], false, length, option_map, ℕ, ◌++◌, ◌+◌, ◌<◌, ◌∷◌, ◌≡◌, ◌≤◌, ◌⊎◌};

use crate::found::{Found, Numbers};
use crate::halt::Halt;
use salt_bytes::Move;
use salt_disk::Disks;
use salt_gatelog::OpenErr;
use salt_loaded::Loaded;
use salt_model::Reach;
use salt_net::Net;
use salt_place::{PlaceKind, Placement};
use salt_schema::Schema;
use salt_values::{Change, Id, Key};
use std::alloc::AllocError;

/// What a database stands on. After an error of a call it is opened anew before it is used. Contracts see the devices by their
/// view alone, and what is kept on them by the definitions' record of it. What is kept is known of disks that tell alone: over others
/// any rows may be given of those that are asked for, and what fits nothing is answered by `reject` and a fault.
pub trait Storage {
    /// Whatever the disks tell, it can be called on them, and they can be started again: its devices are there, and are called as they
    /// may be.
    ghost able: { View → Self → Type 0 };

    /// It stands on devices that tell, and holds what is kept.
    ghost holds: { View → Self → Kept → Type 0 };

    /// Whatever a stop leaves of devices that tell, an opening finds the one or the other kept there.
    ghost leaves: { View → Self → Kept → Kept → Type 0 };

    /// Whatever a stop leaves of the devices, an opening finds this kept there.
    ghost rests: { View → Self → Kept → Type 0 };

    /// Its devices are there, and nothing is pending on them.
    ghost settled: { View → Self → Type 0 };

    /// It was not opened yet.
    ghost unopened: { Self → Type 0 };

    /// An opening of it was broken off by a stop, so what is there may be opened.
    ghost tried: { View → Self → Type 0 };

    /// No entry and no decision names the unit.
    ghost is_new: { View → Self → Id → Type 0 };

    /// An opening of what a stop may leave of the devices answers so.
    ghost refuses: { View → Self → OpenErr → Type 0 };

    /// An opening of what a stop may leave of the devices finds this.
    ghost finds: { View → Self → Kept → Type 0 };

    /// The shape that its devices are asked for, and whether its commits go over messages.
    ghost asked: { Self → Setup };

    /// What its commits have sent over messages since it was opened, and the pairs that wait, where they go over messages.
    ghost net: { Self → Option Turning };

    /// What is written next would pass the limit of this device.
    ghost fills: { View → Self → ToWrite → ℕ → Type 0 };

    /// Opens it at first, and gives what it has found.
    fn open<D: Disks, F: Fn(PlaceKind, &Key, u32) -> u32>(
        &mut self,
        disks: &mut D,
        place: &Placement<F>,
    ) -> Result<Found, OpenErr>
        requires callable { TakesEachKey (F.pre place.now.place) }
        requires answers { GivesPlaceOf (F.post place.now.place) }
        requires settled { settled (D.view disks.old) self.old }
        requires unopened { unopened self.old }
        ensures found { IfOk result (λ found. (k : Kept) × IsFound found k × IsSoundKept k × finds (D.view disks.old) self.old k
            × (IsTrue (D.view disks.old).told → holds (D.view disks.new) self.new k)) }
        ensures numbers { IfOk result (λ found. are_spent found.boot found.decisions ≡ false) }
        ensures refuses { IfErr result (refuses (D.view disks.old) self.old) }
        ensures still { OnErr result (FindsNoMore (refuses (D.view disks.old) self.old) (finds (D.view disks.old) self.old) (refuses (D.view disks.new) self.new) (finds (D.view disks.new) self.new)) }
        ensures rests { OnErr result ((k : Kept) → finds (D.view disks.old) self.old k → rests (D.view disks.new) self.new k) }
        ensures unopened { OnErr result (unopened self.new) }
        ensures tried { result ≡ Err OpenErr.Stopped → tried (D.view disks.new) self.new }
        ensures later { tried (D.view disks.old) self.old → IfErr result IsLater }
        ensures unwritten { (refusal : OpenErr) → IsRefusal refusal → refuses (D.view disks.old) self.old refusal → IsTrue (D.view disks.old).told
            → WritesNothing (D.view disks.old) (D.view disks.new) (open_disk_err result) }
        ensures able { able (D.view disks.new) self.new }
        ensures full { (dev : ℕ) → result ≡ Err (OpenErr.Full dev) → fills (D.view disks.new) self.new OfOpening dev }
        ensures net { OnOk result (net self.new ≡ net_begun (asked self.new)) }
        ensures within { StaysWithin (asked self.old) (asked self.new) (D.view disks.old) (D.view disks.new) }
        ensures cause { HasCause (D.view disks.old) (D.view disks.new) (open_disk_err result) };

    /// Opens it anew, after a restart, and gives the numbers that it has found.
    fn reopen<D: Disks, F: Fn(PlaceKind, &Key, u32) -> u32>(
        &mut self,
        disks: &mut D,
        place: &Placement<F>,
    ) -> Result<Numbers, OpenErr>
        requires callable { TakesEachKey (F.pre place.now.place) }
        requires answers { GivesPlaceOf (F.post place.now.place) }
        requires settled { settled (D.view disks.old) self.old }
        requires left { IsTrue (D.view disks.old).told → (a b : Kept) × leaves (D.view disks.old) self.old a b }
        ensures able { able (D.view disks.new) self.new }
        ensures holds { IfOk result (λ found. (a b : Kept) → leaves (D.view disks.old) self.old a b →
            Reopens (holds (D.view disks.new) self.new) found a ⊎ Reopens (holds (D.view disks.new) self.new) found b) }
        ensures numbers { IfOk result (λ found. are_spent found.boot found.decisions ≡ false) }
        ensures leaves { OnErr result ((a b : Kept) → leaves (D.view disks.old) self.old a b → leaves (D.view disks.new) self.new a b) }
        ensures later { IfErr result IsLater }
        ensures known { IfErr result (λ e. (a b : Kept) → leaves (D.view disks.old) self.old a b → MayFail (rests (D.view disks.new) self.new) a b e) }
        ensures full { (dev : ℕ) → result ≡ Err (OpenErr.Full dev) → fills (D.view disks.new) self.new OfOpening dev }
        ensures net { OnOk result (net self.new ≡ net_begun (asked self.new)) }
        ensures within { StaysWithin (asked self.old) (asked self.new) (D.view disks.old) (D.view disks.new) }
        ensures cause { HasCause (D.view disks.old) (D.view disks.new) (open_disk_err result) };

    /// Begins the next boot, and gives its number. Each unit of this boot is new.
    fn boot<D: Disks>(&mut self, disks: &mut D) -> Result<u64, Halt>
        requires able { able (D.view disks.old) self.old }
        requires held { IsTrue (D.view disks.old).told → (k : Kept) × holds (D.view disks.old) self.old k × (are_spent k.boot k.decisions ≡ false) }
        ensures able { able (D.view disks.new) self.new }
        ensures number { IfOk result (λ boot. (k : Kept) → holds (D.view disks.old) self.old k → boot ≡ k.boot + 1) }
        ensures holds { OnOk result ((k : Kept) → holds (D.view disks.old) self.old k → holds (D.view disks.new) self.new (booted k)) }
        ensures is_new { IfOk result (λ boot. (u : Id) → u.boot ≡ boot → is_new (D.view disks.new) self.new u) }
        ensures leaves { OnErr result ((k : Kept) → holds (D.view disks.old) self.old k → leaves (D.view disks.new) self.new k (booted k)) }
        ensures full { (dev : ℕ) → result ≡ Err (DeviceFull dev) → fills (D.view disks.new) self.new OfBoot dev }
        ensures net { OnOk result (net self.new ≡ net self.old) }
        ensures within { StaysWithin (asked self.old) (asked self.new) (D.view disks.old) (D.view disks.new) }
        ensures cause { HasCause (D.view disks.old) (D.view disks.new) (disk_err result) };

    /// The rows of a reach, whose table is defined. Nothing is written.
    fn load<D: Disks, F: Fn(PlaceKind, &Key, u32) -> u32>(
        &mut self,
        disks: &mut D,
        place: &Placement<F>,
        schema: &Schema,
        reach: &Reach,
    ) -> Result<Loaded, Halt>
        requires callable { TakesEachKey (F.pre place.now.place) }
        requires answers { GivesPlaceOf (F.post place.now.place) }
        requires able { able (D.view disks.old) self.old }
        requires reach { IsTrue (D.view disks.old).told → (k : Kept) × holds (D.view disks.old) self.old k × (schema.now ≡ schema_of k) × (reach.now.table < length (schema_of k)) }
        ensures able { able (D.view disks.new) self.new }
        ensures keyed { IfOk result (λ rows. IsKeyed rows) }
        ensures rows { IfOk result (λ rows. (k : Kept) → holds (D.view disks.old) self.old k → IsPartOf reach.now rows k.tables) }
        ensures holds { OnOk result ((k : Kept) → holds (D.view disks.old) self.old k → holds (D.view disks.new) self.new k) }
        ensures is_new { OnOk result ((u : Id) → is_new (D.view disks.old) self.old u → is_new (D.view disks.new) self.new u) }
        ensures leaves { OnErr result ((k : Kept) → holds (D.view disks.old) self.old k → leaves (D.view disks.new) self.new k k) }
        ensures full { (dev : ℕ) → result ≡ Err (DeviceFull dev) → ⊥ }
        ensures unwritten { KeepsAll (D.view disks.old) (D.view disks.new) (disk_err result) }
        ensures net { OnOk result (net self.new ≡ net self.old) }
        ensures within { StaysWithin (asked self.old) (asked self.new) (D.view disks.old) (D.view disks.new) }
        ensures cause { HasCause (D.view disks.old) (D.view disks.new) (disk_err result) };

    /// Decides a unit with its changes and its program's move, and gives the number of the decision.
    fn commit<D: Disks, F: Fn(PlaceKind, &Key, u32) -> u32>(
        &mut self,
        disks: &mut D,
        place: &Placement<F>,
        unit: Id,
        changes: &[Change],
        made: &Move,
    ) -> Result<u64, Halt>
        requires callable { TakesEachKey (F.pre place.now.place) }
        requires answers { GivesPlaceOf (F.post place.now.place) }
        requires able { able (D.view disks.old) self.old }
        requires may { IsTrue (D.view disks.old).told → (k : Kept) × holds (D.view disks.old) self.old k × ((conts : List Cont) × MayDecide k unit changes.now made.now conts) }
        requires new { IsTrue (D.view disks.old).told → is_new (D.view disks.old) self.old unit }
        ensures able { able (D.view disks.new) self.new }
        ensures number { IfOk result (λ number. (k : Kept) → holds (D.view disks.old) self.old k → number ≡ k.decisions + 1) }
        ensures holds { OnOk result ((k : Kept) (conts : List Cont) → holds (D.view disks.old) self.old k → MayDecide k unit changes.now made.now conts
            → holds (D.view disks.new) self.new (decided k changes.now conts)) }
        ensures is_new { OnOk result ((u : Id) → is_same_id u unit ≡ false → is_new (D.view disks.old) self.old u → is_new (D.view disks.new) self.new u) }
        ensures leaves { OnErr result ((k : Kept) (conts : List Cont) → holds (D.view disks.old) self.old k → MayDecide k unit changes.now made.now conts
            → leaves (D.view disks.new) self.new k (decided k changes.now conts)) }
        ensures full { (dev : ℕ) → result ≡ Err (DeviceFull dev) → fills (D.view disks.new) self.new (OfUnit unit changes.now made.now) dev }
        ensures net { OnOk result ((k : Kept) → holds (D.view disks.old) self.old k → net self.new ≡ net_committed (asked self.old) unit changes.now (net self.old)) }
        ensures within { StaysWithin (asked self.old) (asked self.new) (D.view disks.old) (D.view disks.new) }
        ensures cause { HasCause (D.view disks.old) (D.view disks.new) (disk_err result) };

    /// Decides a definition by its canonical text, and gives the number of the decision.
    fn define<D: Disks, F: Fn(PlaceKind, &Key, u32) -> u32>(
        &mut self,
        disks: &mut D,
        place: &Placement<F>,
        text: &[u8],
    ) -> Result<u64, Halt>
        requires callable { TakesEachKey (F.pre place.now.place) }
        requires answers { GivesPlaceOf (F.post place.now.place) }
        requires able { able (D.view disks.old) self.old }
        requires may { IsTrue (D.view disks.old).told → (k : Kept) × holds (D.view disks.old) self.old k × ((d : Definition) × (definition_in text.now ≡ Some d) × MayDefine k d) }
        ensures able { able (D.view disks.new) self.new }
        ensures number { IfOk result (λ number. (k : Kept) → holds (D.view disks.old) self.old k → number ≡ k.decisions + 1) }
        ensures holds { OnOk result ((k : Kept) (d : Definition) → holds (D.view disks.old) self.old k → definition_in text.now ≡ Some d → MayDefine k d
            → holds (D.view disks.new) self.new (defined k d)) }
        ensures is_new { OnOk result ((u : Id) → is_new (D.view disks.old) self.old u → is_new (D.view disks.new) self.new u) }
        ensures leaves { OnErr result ((k : Kept) (d : Definition) → holds (D.view disks.old) self.old k → definition_in text.now ≡ Some d → MayDefine k d
            → leaves (D.view disks.new) self.new k (defined k d)) }
        ensures full { (dev : ℕ) → result ≡ Err (DeviceFull dev) → fills (D.view disks.new) self.new (OfDefinition text.now) dev }
        ensures net { OnOk result (net self.new ≡ net self.old) }
        ensures within { StaysWithin (asked self.old) (asked self.new) (D.view disks.old) (D.view disks.new) }
        ensures cause { HasCause (D.view disks.old) (D.view disks.new) (disk_err result) };

    /// Arms a stop at the n-th write or sync from when its turn comes; `pick` chooses the image that it leaves.
    fn arm<D: Disks>(&mut self, disks: &mut D, calls: u64, pick: u8) -> Result<(), AllocError>
        requires able { IsTrue (D.view disks.old).can_stop }
        requires pick { pick ≤ 4 }
        ensures ok { OnOk result ((D.view disks.new).armed ≡ (D.view disks.old).armed ++ (calls, pick) ∷ []) }
        ensures err { OnErr result ((D.view disks.new).armed ≡ (D.view disks.old).armed) }
        ensures faults { (D.view disks.new).faults ≡ (D.view disks.old).faults }
        ensures net { net self.new ≡ net self.old }
        ensures within { StaysWithin (asked self.old) (asked self.new) (D.view disks.old) (D.view disks.new) }
        ensures able { able (D.view disks.old) self.old → able (D.view disks.new) self.new }
        ensures holds { (k : Kept) → holds (D.view disks.old) self.old k → holds (D.view disks.new) self.new k }
        ensures is_new { (u : Id) → is_new (D.view disks.old) self.old u → is_new (D.view disks.new) self.new u };

    /// These pairs wait behind the others. An error leaves those that waited.
    fn arm_net<D: Disks>(&mut self, disks: &D, pairs: &[(u64, u8)]) -> Result<(), AllocError>
        ensures ok { OnOk result (net self.new ≡ net_armed pairs.now (net self.old)) }
        ensures err { OnErr result (net self.new ≡ net self.old) }
        ensures asked { asked self.new ≡ asked self.old }
        ensures able { able (D.view disks.now) self.old → able (D.view disks.now) self.new }
        ensures holds { (k : Kept) → holds (D.view disks.now) self.old k → holds (D.view disks.now) self.new k }
        ensures is_new { (u : Id) → is_new (D.view disks.now) self.old u → is_new (D.view disks.now) self.new u };

    /// Whether its commits go over messages.
    fn over_net(&self) -> bool
        ensures { result ≡ (asked self.now).over_net };

    /// What the disks gave fits nothing that is known, so it is not what was written: a fault is counted.
    fn reject<D: Disks>(&self, disks: &mut D) -> Halt
        requires untold { (D.view disks.old).told ≡ false }
        requires able { able (D.view disks.old) self.now }
        ensures halt { result ≡ DiskFault }
        ensures able { able (D.view disks.new) self.now }
        ensures within { StaysWithin (asked self.now) (asked self.now) (D.view disks.old) (D.view disks.new) }
        ensures cause { HasCause (D.view disks.old) (D.view disks.new) (Some (disk_err_of result)) };

    /// Starts the devices again, after a fault or a stop.
    fn restart<D: Disks>(&mut self, disks: &mut D)
        requires { able (D.view disks.old) self.old }
        ensures settled { settled (D.view disks.new) self.new }
        ensures still { FindsNoMore (refuses (D.view disks.old) self.old) (finds (D.view disks.old) self.old) (refuses (D.view disks.new) self.new) (finds (D.view disks.new) self.new) }
        ensures unopened { unopened self.old → unopened self.new }
        ensures tried { tried (D.view disks.old) self.old → tried (D.view disks.new) self.new }
        ensures rests { (k : Kept) → rests (D.view disks.old) self.old k → rests (D.view disks.new) self.new k }
        ensures leaves { (a b : Kept) → leaves (D.view disks.old) self.old a b → leaves (D.view disks.new) self.new a b }
        ensures faults { (D.view disks.new).faults ≡ (D.view disks.old).faults }
        ensures stops { (D.view disks.new).armed ≡ (D.view disks.old).armed }
        ensures within { StaysWithin (asked self.old) (asked self.new) (D.view disks.old) (D.view disks.new) };

    /// A law: what it holds is held by disks that tell, may be kept, and a stop leaves it; where nothing is pending it can be called; and
    /// what rests there is found.
    fn stands<D: Disks>(&self, disks: &D)
        ensures told { (k : Kept) → holds (D.view disks.now) self.now k → IsTrue (D.view disks.now).told }
        ensures sound { (k : Kept) → holds (D.view disks.now) self.now k → IsSoundKept k }
        ensures stays { (k : Kept) → holds (D.view disks.now) self.now k → leaves (D.view disks.now) self.now k k }
        ensures able { settled (D.view disks.now) self.now → able (D.view disks.now) self.now }
        ensures finds { (k : Kept) → settled (D.view disks.now) self.now → rests (D.view disks.now) self.now k → finds (D.view disks.now) self.now k };

    /// It is given up: the net that its commits have gone over, where they go over messages.
    fn into_net<D: Disks>(self, disks: &D) -> Option<Net>
        requires able { able (D.view disks.now) self }
        requires held { IsTrue (D.view disks.now).told → (k : Kept) × holds (D.view disks.now) self k }
        ensures { (k : Kept) → holds (D.view disks.now) self k → result ≡ option_map (λ t. t.events) (net self) };
}
