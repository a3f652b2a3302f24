//! What is done in a store that stands.

ghost use Rattle.salt_bytes.specs.declared.moves.Move.{Move};
ghost use Rattle.law_definitions.specs.Texts.{definition_in};
ghost use Rattle.salt_devices.specs.Filling.{FillsIn};
ghost use Rattle.salt_commit.specs.Messages.{IsAtRest, IsNewIn, messages_of, net_of};
ghost use Rattle.salt_commit.specs.Stores.{last_boot, last_decision, numbers_in, shape_of_store};
ghost use Rattle.salt_devices.specs.Holding.{IsHeld, IsNewTo, IsStanding};
ghost use Rattle.salt_devices.specs.Leaving.{LeavesEither};
ghost use Rattle.salt_devices.specs.Writing.{CanBeWritten};
ghost use Rattle.salt_disk.specs.Disks.{AreUnchanged, HasCause, KeepsAll};
ghost use Rattle.salt_eval.specs.Scans.{IsKeyed};
ghost use Rattle.salt_model.specs.Kept.{Definition, Kept, schema_of};
ghost use Rattle.salt_net.specs.Turns.{commits};
ghost use Rattle.salt_stands.specs.Placed.{nodes_in};
ghost use Rattle.salt_stands.specs.Turning.{no_turns};
ghost use Rattle.salt_stands.specs.Stands.{are_spent};
ghost use Rattle.salt_storage.specs.Answers.{disk_err, disk_err_of};
ghost use Rattle.salt_storage.specs.Staying.{Setup, StaysWithin};
ghost use Rattle.salt_storage.specs.Storing.{IsPartOf, MayDecide, MayDefine, booted, decided, defined};
ghost use Rattle.salt_storage.specs.Writing.{OfBoot, OfDefinition, OfUnit};
ghost use Rattle.salt_storage.specs.declared.halt.Halt.TheVariants.{DeviceFull, DiskFault};
ghost use Rattle.salt_values.specs.Id.{is_same_id};
ghost use Rattle.salt_place.specs.Placement.{GivesPlaceOf, TakesEachKey};
ghost use Rattle.salt_values.specs.declared.cont.Cont.{Cont};
ghost use Rattle.salt_values.specs.declared.id.Id.{Id};
ghost use Rattle.salt_place.specs.declared.placement.Shape.{Shape};
ghost use Rattle.std.specs.Prelude.{Err, IfOk, IsTrue, List, None, OnErr, OnOk, Some, false, if◌then◌else◌, length, option_map, ℕ, ◌+◌, ◌-◌, ◌<◌, ◌^◌, ◌≡◌, ◌≤◌};

use crate::fits::{can_be_written, is_short_move};
use crate::told::told_move;
use law_types::typed_changes_are_sound;
use salt_bytes::{Move, moves_are_read};
use salt_codec::{spelled_move, told_changes};
use salt_commit::Store;
use salt_decisions::FORMAT;
use salt_disk::Disks;
use salt_loaded::Loaded;
use salt_model::Reach;
use salt_place::{PlaceKind, Placement, Shape};
use salt_schema::Schema;
use salt_storage::Halt;
use salt_values::{Change, Id, Key};
use std::alloc::Global;

/// Puts the commits of a store that was just opened over messages, where that is asked for: then a new net begins.
pub fn put_over(store: Store, over_net: bool) -> Store
    requires plain { messages_of store ≡ None }
    ensures net { net_of result ≡ (if over_net then Some no_turns else None) }
    ensures rests { IsAtRest result }
    ensures new { (u : Id) → IsNewIn result u }
    ensures rest { result ≡ record store { messages = messages_of result } }
{
    if !over_net {
        return store;
    }
    let mut store = store;
    store.over_net();
    store
}

/// What the disks gave fits nothing that is known, so it is not what was written: a fault is counted.
pub fn reject<D: Disks>(disks: &mut D) -> Halt
    requires { (D.view disks.old).told ≡ false }
    ensures halt { result ≡ DiskFault }
    ensures unchanged { AreUnchanged (D.view disks.old) (D.view disks.new) }
    ensures kept { KeepsAll (D.view disks.old) (D.view disks.new) (Some (disk_err_of result)) }
    ensures cause { HasCause (D.view disks.old) (D.view disks.new) (Some (disk_err_of result)) }
{
    disks.reject();
    Halt::DiskFault
}

/// Whether the disks tell nothing, and have led to a table that is not defined.
fn is_undefined<D: Disks>(disks: &D, schema: &Schema, table: u16) -> bool
    ensures mute { IsTrue result → (D.view disks.now).told ≡ false }
    ensures defined { result ≡ false → (D.view disks.now).told ≡ false → table < length schema.now }
{
    !disks.is_told() && usize::from(table) >= schema.count()
}

/// The rows of a reach, each of which meets its table and stands under its key. Nothing is written. A table that is not defined,
/// which only disks can have led to that tell nothing, is answered as their failure.
pub fn load_rows<D: Disks, F: Fn(PlaceKind, &Key, u32) -> u32>(
    store: &mut Store,
    disks: &mut D,
    place: &Placement<F>,
    schema: &Schema,
    reach: &Reach,
) -> Result<Loaded, Halt>
    requires callable { TakesEachKey (F.pre place.now.place) }
    requires answers { GivesPlaceOf (F.post place.now.place) }
    requires stands { (shape : Shape) × IsStanding (D.view disks.old) shape store.old }
    requires reach { IsTrue (D.view disks.old).told → (shape : Shape) × (k : Kept) × IsHeld (D.view disks.old) shape store.old k × (schema.now ≡ schema_of k) × (reach.now.table < length (schema_of k)) }
    ensures stands { OnOk result ((shape : Shape) → IsStanding (D.view disks.old) shape store.old → IsStanding (D.view disks.new) shape store.new) }
    ensures keyed { IfOk result (λ rows. IsKeyed rows) }
    ensures rows { IfOk result (λ rows. (shape : Shape) (k : Kept) → IsHeld (D.view disks.old) shape store.old k → IsPartOf reach.now rows k.tables) }
    ensures holds { OnOk result ((shape : Shape) (k : Kept) → IsHeld (D.view disks.old) shape store.old k → IsHeld (D.view disks.new) shape store.new k) }
    ensures is_new { OnOk result ((u : Id) → IsNewTo (D.view disks.old) u → IsNewTo (D.view disks.new) u) }
    ensures leaves { OnErr result ((shape : Shape) (k : Kept) → IsHeld (D.view disks.old) shape store.old k → LeavesEither (D.view disks.new) shape k k) }
    ensures numbers { numbers_in store.new ≡ numbers_in store.old }
    ensures messages { messages_of store.new ≡ messages_of store.old }
    ensures full { (dev : ℕ) → result ≡ Err (DeviceFull dev) → ⊥ }
    ensures kept { KeepsAll (D.view disks.old) (D.view disks.new) (disk_err result) }
    ensures cause { HasCause (D.view disks.old) (D.view disks.new) (disk_err result) }
{
    if is_undefined(&*disks, schema, reach.table) {
        return Err(reject(disks));
    }
    let rows = store.load(disks, place, schema, reach)?;
    Ok(rows)
}

/// Whether the disks tell nothing, and have led to a boot behind which there is no number.
fn is_spent<D: Disks>(disks: &D, store: &Store) -> bool
    ensures mute { IsTrue result → (D.view disks.now).told ≡ false }
    ensures below { result ≡ false → (D.view disks.now).told ≡ false → last_boot store.now < 2 ^ 64 - 1 }
{
    !disks.is_told() && store.last_boot() == u64::MAX
}

/// Begins the next boot, and gives its number. Where no number is left, which only disks can have led to that tell nothing, it is
/// answered as their failure.
pub fn begin_boot<D: Disks>(store: &mut Store, disks: &mut D) -> Result<u64, Halt>
    requires stands { (shape : Shape) × IsStanding (D.view disks.old) shape store.old }
    requires held { IsTrue (D.view disks.old).told → (shape : Shape) × (k : Kept) × IsHeld (D.view disks.old) shape store.old k × (are_spent k.boot k.decisions ≡ false) }
    ensures stands { OnOk result ((shape : Shape) → IsStanding (D.view disks.old) shape store.old → IsStanding (D.view disks.new) shape store.new) }
    ensures number { IfOk result (λ boot. boot ≡ last_boot store.old + 1) }
    ensures boot { OnOk result (last_boot store.new ≡ last_boot store.old + 1) }
    ensures holds { OnOk result ((shape : Shape) (k : Kept) → IsHeld (D.view disks.old) shape store.old k → IsHeld (D.view disks.new) shape store.new (booted k)) }
    ensures is_new { IfOk result (λ boot. (u : Id) → u.boot ≡ boot → IsNewTo (D.view disks.new) u) }
    ensures leaves { OnErr result ((shape : Shape) (k : Kept) → IsHeld (D.view disks.old) shape store.old k → LeavesEither (D.view disks.new) shape k (booted k)) }
    ensures messages { messages_of store.new ≡ messages_of store.old }
    ensures full { (dev : ℕ) → result ≡ Err (DeviceFull dev) → (shape : Shape) (k : Kept) → IsHeld (D.view disks.old) shape store.old k → FillsIn (D.view disks.new) shape OfBoot dev }
    ensures within { (setup : Setup) → IsStanding (D.view disks.old) setup.shape store.old → StaysWithin setup setup (D.view disks.old) (D.view disks.new) }
    ensures cause { HasCause (D.view disks.old) (D.view disks.new) (disk_err result) }
{
    if is_spent(&*disks, store) {
        return Err(reject(disks));
    }
    let boot = store.boot(disks)?;
    Ok(boot)
}

/// Decides a definition by its canonical text, and gives its number. Where no number is left, want of memory is answered.
pub fn decide_definition<D: Disks, F: Fn(PlaceKind, &Key, u32) -> u32>(
    store: &mut Store,
    disks: &mut D,
    place: &Placement<F>,
    text: &[u8],
) -> Result<u64, Halt>
    requires callable { TakesEachKey (F.pre place.now.place) }
    requires answers { GivesPlaceOf (F.post place.now.place) }
    requires stands { (shape : Shape) × IsStanding (D.view disks.old) shape store.old }
    requires may { IsTrue (D.view disks.old).told → (shape : Shape) × (k : Kept) × IsHeld (D.view disks.old) shape store.old k × ((d : Definition) × (definition_in text.now ≡ Some d) × MayDefine k d) }
    ensures stands { OnOk result ((shape : Shape) → IsStanding (D.view disks.old) shape store.old → IsStanding (D.view disks.new) shape store.new) }
    ensures number { IfOk result (λ number. number ≡ last_decision store.old + 1) }
    ensures boot { OnOk result (last_boot store.new ≡ last_boot store.old) }
    ensures holds { OnOk result ((shape : Shape) (k : Kept) (d : Definition) → IsHeld (D.view disks.old) shape store.old k → definition_in text.now ≡ Some d → MayDefine k d
        → IsHeld (D.view disks.new) shape store.new (defined k d)) }
    ensures is_new { OnOk result ((u : Id) → IsNewTo (D.view disks.old) u → IsNewTo (D.view disks.new) u) }
    ensures leaves { OnErr result ((shape : Shape) (k : Kept) (d : Definition) → IsHeld (D.view disks.old) shape store.old k → definition_in text.now ≡ Some d → MayDefine k d
        → LeavesEither (D.view disks.new) shape k (defined k d)) }
    ensures messages { messages_of store.new ≡ messages_of store.old }
    ensures full { (dev : ℕ) → result ≡ Err (DeviceFull dev) → (shape : Shape) (k : Kept) → IsHeld (D.view disks.old) shape store.old k → FillsIn (D.view disks.new) shape (OfDefinition text.now) dev }
    ensures within { (setup : Setup) → IsStanding (D.view disks.old) setup.shape store.old → StaysWithin setup setup (D.view disks.old) (D.view disks.new) }
    ensures cause { HasCause (D.view disks.old) (D.view disks.new) (disk_err result) }
{
    if store.decisions() == u64::MAX {
        return Err(Halt::Memory);
    }
    let number = store.define(disks, place, text)?;
    Ok(number)
}

/// Whether a unit can be written, as far as memory tells: its changes can be put and its move spelled, its boot has begun, and it was
/// not started before.
fn can_commit(store: &Store, unit: Id, changes: &[Change], made: &Move) -> bool
    ensures { IsTrue result → CanBeWritten store.now unit changes.now made.now }
{
    can_be_written(changes)
        && is_short_move(made)
        && unit.boot <= store.last_boot()
        && store.is_new(unit)
}

/// Whether the disks tell nothing, and have led to a unit that cannot be written.
fn is_astray<D: Disks>(disks: &D, store: &Store, unit: Id, changes: &[Change], made: &Move) -> bool
    ensures mute { IsTrue result → (D.view disks.now).told ≡ false }
    ensures fits { result ≡ false → (D.view disks.now).told ≡ false → CanBeWritten store.now unit changes.now made.now }
{
    !disks.is_told() && !can_commit(store, unit, changes, made)
}

/// Decides a unit with its changes and its program's move, and gives its number. Where no number is left, want of memory is
/// answered. What cannot be committed, which only disks can have led to that tell nothing, is answered as their failure.
pub fn decide_unit<D: Disks, F: Fn(PlaceKind, &Key, u32) -> u32>(
    alloc: Global,
    store: &mut Store,
    disks: &mut D,
    place: &Placement<F>,
    unit: Id,
    changes: &[Change],
    made: &Move,
) -> Result<u64, Halt>
    requires callable { TakesEachKey (F.pre place.now.place) }
    requires answers { GivesPlaceOf (F.post place.now.place) }
    requires stands { (shape : Shape) × IsStanding (D.view disks.old) shape store.old }
    requires may { IsTrue (D.view disks.old).told → (shape : Shape) × (k : Kept) × IsHeld (D.view disks.old) shape store.old k × ((conts : List Cont) × MayDecide k unit changes.now made.now conts) }
    requires new { IsNewTo (D.view disks.old) unit }
    requires rests { IsAtRest store.old }
    requires new_in { IsTrue (D.view disks.old).told → IsNewIn store.old unit }
    ensures stands { OnOk result ((shape : Shape) → IsStanding (D.view disks.old) shape store.old → IsStanding (D.view disks.new) shape store.new) }
    ensures begun { OnOk result (unit.boot ≤ last_boot store.old) }
    ensures number { IfOk result (λ number. number ≡ last_decision store.old + 1) }
    ensures boot { last_boot store.new ≡ last_boot store.old }
    ensures holds { OnOk result ((shape : Shape) (k : Kept) (conts : List Cont) → IsHeld (D.view disks.old) shape store.old k → MayDecide k unit changes.now made.now conts
        → IsHeld (D.view disks.new) shape store.new (decided k changes.now conts)) }
    ensures is_new { OnOk result ((u : Id) → is_same_id u unit ≡ false → IsNewTo (D.view disks.old) u → IsNewTo (D.view disks.new) u) }
    ensures leaves { OnErr result ((shape : Shape) (k : Kept) (conts : List Cont) → IsHeld (D.view disks.old) shape store.old k → MayDecide k unit changes.now made.now conts
        → LeavesEither (D.view disks.new) shape k (decided k changes.now conts)) }
    ensures rests { OnOk result (IsAtRest store.new) }
    ensures net { OnOk result (net_of store.new ≡ option_map (commits unit (nodes_in (shape_of_store store.old) changes.now)) (net_of store.old)) }
    ensures others_new { OnOk result ((u : Id) → is_same_id u unit ≡ false → IsNewIn store.old u → IsNewIn store.new u) }
    ensures full { (dev : ℕ) → result ≡ Err (DeviceFull dev) → (shape : Shape) (k : Kept) → IsHeld (D.view disks.old) shape store.old k → FillsIn (D.view disks.new) shape (OfUnit unit changes.now made.now) dev }
    ensures within { (setup : Setup) → IsStanding (D.view disks.old) setup.shape store.old → StaysWithin setup setup (D.view disks.old) (D.view disks.new) }
    ensures cause { HasCause (D.view disks.old) (D.view disks.new) (disk_err result) }
{
    if store.decisions() == u64::MAX {
        return Err(Halt::Memory);
    }
    if is_astray(&*disks, store, unit, changes, made) {
        return Err(reject(disks));
    }
    typed_changes_are_sound();
    moves_are_read();
    told_move(made);
    told_changes(changes);
    let spelled = spelled_move(alloc, FORMAT, made)?;
    let number = store.commit(disks, place, unit, changes, &spelled)?;
    Ok(number)
}
