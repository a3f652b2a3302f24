//! Entries of a store in the coordinator's log, each appended where there is room for it.

ghost use Rattle.salt_bytes.specs.Coordinator.{Boots, Defines, spell_entry};
ghost use Rattle.salt_bytes.specs.Generations.{WhichLog};
ghost use Rattle.salt_commit.specs.Messages.{messages_of};
ghost use Rattle.salt_commit.specs.Rooms.{HasRoom};
ghost use Rattle.salt_commit.specs.Stores.{IsStore, MayDefine, StandForEither, StandsOnDevices, coordinator_device, coordinator_gate, last_boot, last_decision, next_text, numbers_in, reading};
ghost use Rattle.salt_decisions.specs.Decisions.{next_definition};
ghost use Rattle.salt_disk.specs.Disks.{FullExactly, HasCause, IsUnchanged, KeepsOthers};
ghost use Rattle.salt_disk.specs.declared.disks.DiskErr.TheVariants.{Full};
ghost use Rattle.salt_model.specs.Kept.{Definition};
ghost use Rattle.salt_stands.specs.Commits.{found_of};
ghost use Rattle.salt_stands.specs.Coordinator.{Coordinator};
ghost use Rattle.salt_stands.specs.Pieces.{PartView, with_boot, with_definition};
ghost use Rattle.std.specs.Prelude.{Err, IfOk, IsTrue, OnErr, OnOk, length, ℕ, ◌+◌, ◌-◌, ◌<◌, ◌^◌, ◌≡◌};
ghost use Rattle.std.specs.Result.{result_err};

use crate::error::StoreErr;
use crate::store::Store;
use salt_disk::Disks;
use salt_stands::what_fits_still_fits;

impl Store {
    /// Appends the next boot's entry, for which there is room, and gives its number. After Ok it is kept. Whatever the call answers,
    /// each image of the devices stands for what stood before, or for that with one boot more.
    pub(crate) fn append_boot<D: Disks>(&mut self, disks: &mut D) -> Result<u64, StoreErr>
        requires stands { StandsOnDevices (D.view disks.old) self.old }
        requires below { last_boot self.old < 2 ^ 64 - 1 }
        requires room { HasRoom self.old }

        ensures ok { (which : WhichLog) (c : Coordinator Definition) (v : ℕ → PartView) → IsStore reading (D.view disks.old) self.old which c v
            → OnOk result (IsStore reading (D.view disks.new) self.new which (with_boot c) v) }
        ensures number { IfOk result (λ boot. boot ≡ last_boot self.old + 1) }
        ensures same { OnErr result (numbers_in self.new ≡ numbers_in self.old) }
        ensures images { (which : WhichLog) (c : Coordinator Definition) (v : ℕ → PartView) → IsStore reading (D.view disks.old) self.old which c v → IsTrue (D.view disks.old).told
            → StandForEither reading (D.view disks.new) (found_of c v) (found_of (with_boot c) v) }

        ensures messages { messages_of self.new ≡ messages_of self.old }
        ensures others { KeepsOthers (coordinator_device self.old) (D.view disks.old) (D.view disks.new) (result_err result) }
        ensures cause { HasCause (D.view disks.old) (D.view disks.new) (result_err result) }
        ensures full { FullExactly (coordinator_device self.old) ((D.view disks.old).limit (coordinator_device self.old)) (coordinator_gate self.old + 10 + length (spell_entry (Boots (last_boot self.old + 1)))) (result_err result) }
        ensures untouched { (n : ℕ) → result ≡ Err (Full n) → IsUnchanged (D.view disks.old) (D.view disks.new) (coordinator_device self.old) }
    {
        let boot = self.decisions.boot(self.alloc, disks)?;
        Ok(boot)
    }

    /// Appends the entry of a definition, for which there is room, by its canonical text, and gives the number of its decision. After
    /// Ok it is kept. Whatever the call answers, each image of the devices stands for what stood before, or for that with the
    /// definition.
    pub(crate) fn append_definition<D: Disks>(
        &mut self,
        disks: &mut D,
        text: &[u8],
    ) -> Result<u64, StoreErr>
        requires stands { StandsOnDevices (D.view disks.old) self.old }
        requires below { last_decision self.old < 2 ^ 64 - 1 }
        requires room { HasRoom self.old }

        ensures ok { (which : WhichLog) (c : Coordinator Definition) (v : ℕ → PartView) (def : Definition) → IsStore reading (D.view disks.old) self.old which c v
            → (IsTrue (D.view disks.old).told → MayDefine reading c text.now def) → OnOk result (IsStore reading (D.view disks.new) self.new which (with_definition c (next_text c text.now) def) v) }
        ensures number { IfOk result (λ number. number ≡ last_decision self.old + 1) }
        ensures same { OnErr result (numbers_in self.new ≡ numbers_in self.old) }
        ensures images { (which : WhichLog) (c : Coordinator Definition) (v : ℕ → PartView) (def : Definition) → IsStore reading (D.view disks.old) self.old which c v → MayDefine reading c text.now def → IsTrue (D.view disks.old).told
            → StandForEither reading (D.view disks.new) (found_of c v) (found_of (with_definition c (next_text c text.now) def) v) }

        ensures messages { messages_of self.new ≡ messages_of self.old }
        ensures others { KeepsOthers (coordinator_device self.old) (D.view disks.old) (D.view disks.new) (result_err result) }
        ensures cause { HasCause (D.view disks.old) (D.view disks.new) (result_err result) }
        ensures full { FullExactly (coordinator_device self.old) ((D.view disks.old).limit (coordinator_device self.old)) (coordinator_gate self.old + 10 + length (spell_entry (Defines (next_definition self.old.decisions text.now)))) (result_err result) }
        ensures untouched { (n : ℕ) → result ≡ Err (Full n) → IsUnchanged (D.view disks.old) (D.view disks.new) (coordinator_device self.old) }
    {
        what_fits_still_fits();
        let number = self.decisions.define(self.alloc, disks, text)?;
        Ok(number)
    }
}
