//! What a storage stands on is found at first, through the stops that come meanwhile.

ghost use Rattle.salt_disk.specs.Disks.{KeepsAll, stops_left};
ghost use Rattle.salt_disk.specs.declared.disks.DiskErr.{DiskErr};
ghost use Rattle.salt_model.specs.Kept.{Kept};
ghost use Rattle.salt_driver.specs.Counting.{CountsOpening};
ghost use Rattle.salt_driver.specs.Opening.{FailsToFind, FallsUnfound, FindsFirst, IsUnfound};
ghost use Rattle.salt_storage.specs.Answers.{IsLater, IsRefusal, WritesNothing, open_disk_err};
ghost use Rattle.salt_storage.specs.Netted.{net_begun};
ghost use Rattle.salt_storage.specs.Staying.{StaysWithin};
ghost use Rattle.salt_storage.specs.Writing.{FindsNoMore, OfOpening};
ghost use Rattle.salt_storage.specs.declared.found.Found.{Found};
ghost use Rattle.salt_storage.specs.declared.halt.Halt.TheVariants.{Stopped};
ghost use Rattle.salt_storage.specs.OpenErr.{OpenErr};
ghost use Rattle.salt_place.specs.Placement.{GivesPlaceOf, TakesEachKey};
ghost use Rattle.std.specs.Prelude.{Err, IfErr, IfOk, IsTrue, None, Ok, OnErr, OnOk, Some, ℕ, [], ◌<◌, ◌≡◌, ◌⊎◌};

use salt_disk::Disks;
use salt_model::{Event, Story, Why};
use salt_place::{PlaceKind, Placement};
use salt_storage::{Found, OpenErr, Storage};
use salt_values::Key;

/// Opens a storage at first. None where a stop came meanwhile, and the run has fallen.
#[tactic(auto, using(crate::proofs::Counted::opening_cause))]
fn try_find<S: Storage, D: Disks, F: Fn(PlaceKind, &Key, u32) -> u32>(
    storage: &mut S,
    disks: &mut D,
    place: &Placement<F>,
    story: &mut Story,
) -> Result<Option<Found>, OpenErr>
    requires callable { TakesEachKey (F.pre place.now.place) }
    requires answers { GivesPlaceOf (F.post place.now.place) }
    requires unopened { S.unopened storage.old }
    requires settled { S.settled (D.view disks.old) storage.old }
    ensures found { (x : Found) → result ≡ Ok (Some x) → FindsFirst (D.view disks.old).told (S.finds (D.view disks.old) storage.old) (S.holds (D.view disks.new) storage.new) x }
    ensures untold { (x : Found) → result ≡ Ok (Some x) → story.new ≡ story.old }
    ensures net { (x : Found) → result ≡ Ok (Some x) → S.net storage.new ≡ net_begun (S.asked storage.new) }
    ensures unopened { result ≡ Ok None → S.unopened storage.new }
    ensures tried { result ≡ Ok None → S.tried (D.view disks.new) storage.new }
    ensures settled { result ≡ Ok None → S.settled (D.view disks.new) storage.new }
    ensures falls { result ≡ Ok None → FallsUnfound (S.refuses (D.view disks.old) storage.old) (S.finds (D.view disks.old) storage.old)
        (S.refuses (D.view disks.new) storage.new) (S.finds (D.view disks.new) storage.new) story.old story.new }
    ensures fewer { result ≡ Ok None → stops_left (D.view disks.new) < stops_left (D.view disks.old) }
    ensures refuses { IfErr result (λ e. S.refuses (D.view disks.old) storage.old e ⊎ (e ≡ OpenErr.Memory)) }
    ensures unrefused { OnErr result (story.new ≡ story.old) }
    ensures stays { OnErr result (S.unopened storage.new) }
    ensures able { S.able (D.view disks.new) storage.new }
    ensures unwritten { (refusal : OpenErr) → IsRefusal refusal → S.refuses (D.view disks.old) storage.old refusal → IsTrue (D.view disks.old).told
        → WritesNothing (D.view disks.old) (D.view disks.new) (open_disk_err result) × (result ≡ Ok None → ⊥) }
    ensures rests { OnErr result ((k : Kept) → S.finds (D.view disks.old) storage.old k → S.rests (D.view disks.new) storage.new k) }
    ensures finds { result ≡ Ok None → (k : Kept) → S.finds (D.view disks.old) storage.old k → S.finds (D.view disks.new) storage.new k }
    ensures still { OnErr result (FindsNoMore (S.refuses (D.view disks.old) storage.old) (S.finds (D.view disks.old) storage.old)
        (S.refuses (D.view disks.new) storage.new) (S.finds (D.view disks.new) storage.new)) }
    ensures later { S.tried (D.view disks.old) storage.old → IfErr result IsLater }
    ensures full { (dev : ℕ) → result ≡ Err (OpenErr.Full dev) → S.fills (D.view disks.new) storage.new OfOpening dev }
    ensures unstopped { result ≡ Err OpenErr.Stopped → ⊥ }
    ensures within { StaysWithin (S.asked storage.old) (S.asked storage.new) (D.view disks.old) (D.view disks.new) }
    ensures counts { CountsOpening (D.view disks.old) (D.view disks.new) (open_disk_err result) story.old story.new }
{
    match storage.open(disks, place) {
        Ok(found) => {
            storage.stands(disks);
            Ok(Some(found))
        }
        Err(OpenErr::Stopped) => {
            story.push(Event::Down(Why::Stopped))?;
            storage.restart(disks);
            storage.stands(disks);
            Ok(None)
        }
        Err(e) => Err(e),
    }
}

/// Finds at first what a storage stands on, through the stops that come meanwhile: an engine may be made over that, and opened. Nothing
/// is told but these stops. An error leaves a storage that was not opened, and a story of the stops that came before.
pub fn find<S: Storage, D: Disks, F: Fn(PlaceKind, &Key, u32) -> u32>(
    storage: &mut S,
    disks: &mut D,
    place: &Placement<F>,
    story: &mut Story,
) -> Result<Found, OpenErr>
    requires callable { TakesEachKey (F.pre place.now.place) }
    requires answers { GivesPlaceOf (F.post place.now.place) }
    requires unopened { S.unopened storage.old }
    requires settled { S.settled (D.view disks.old) storage.old }
    requires empty { story.old ≡ [] }
    ensures found { IfOk result (FindsFirst (D.view disks.old).told (S.finds (D.view disks.old) storage.old) (S.holds (D.view disks.new) storage.new)) }
    ensures net { OnOk result (S.net storage.new ≡ net_begun (S.asked storage.new)) }
    ensures unfound { IsUnfound story.new }
    ensures err { IfErr result (λ e. FailsToFind (S.refuses (D.view disks.old) storage.old) (S.finds (D.view disks.old) storage.old)
        (S.refuses (D.view disks.new) storage.new) (S.finds (D.view disks.new) storage.new) (S.fills (D.view disks.new) storage.new) e story.new) }
    ensures stays { OnErr result (S.unopened storage.new) }
    ensures able { S.able (D.view disks.new) storage.new }
    ensures unwritten { (refusal : OpenErr) → IsRefusal refusal → S.refuses (D.view disks.old) storage.old refusal → IsTrue (D.view disks.old).told
        → KeepsAll (D.view disks.old) (D.view disks.new) (open_disk_err result) × (story.new ≡ []) }
    ensures unfilled { (refusal : OpenErr) → IsRefusal refusal → S.refuses (D.view disks.old) storage.old refusal → IsTrue (D.view disks.old).told
        → (dev : ℕ) → open_disk_err result ≡ Some (DiskErr.Full dev) → ⊥ }
    ensures rests { OnErr result ((k : Kept) → S.finds (D.view disks.old) storage.old k → S.rests (D.view disks.new) storage.new k) }
    ensures unstopped { result ≡ Err OpenErr.Stopped → ⊥ }
    ensures within { StaysWithin (S.asked storage.old) (S.asked storage.new) (D.view disks.old) (D.view disks.new) }
    ensures counts { CountsOpening (D.view disks.old) (D.view disks.new) (open_disk_err result) [] story.new }
{
    'stops: loop {
        if let Some(found) = try_find(storage, disks, place, story)? {
            return Ok(found);
        }
    }
}
