//! The coordinator's log that counts, and what is added to it.

ghost use Rattle.salt_bytes.specs.Coordinator.{Boots, CoordinatorEntry, Decides, Defines, entry_in, spell_entry};
ghost use Rattle.salt_bytes.specs.Generations.{Counts, WhichLog};
ghost use Rattle.salt_decisions.specs.Decisions.{BeginsWith, HasSameEntries, IsBeforeOrWith, IsCounting, IsDecisions, IsSnapshotImage, booted, conts_in, count_in, decided, defined, definitions_in, device_in, format_of, gate_in, last_boot, last_decision, log_with, next_decision, next_definition, next_header, numbers_in, shape_of, snapshot_payload, snapshotted};
ghost use Rattle.salt_disk.specs.Disks.{EachImage, FullExactly, FullOnly, HasCause, IsUnchanged, KeepsOthers};
ghost use Rattle.salt_disk.specs.declared.disks.DiskErr.TheVariants.{Full};
ghost use Rattle.salt_gatelog.specs.Log as gates;
ghost use Rattle.salt_gatelog.specs.Log.{gate_of, payload_in};
ghost use Rattle.salt_place.specs.Placement.{IsParts};
ghost use Rattle.salt_stands.specs.Coordinator.{coordinator_pair, device_of};
ghost use Rattle.salt_stands.specs.CoordinatorLog.{CoordinatorLog, Told, tell};
ghost use Rattle.salt_stands.specs.Pieces.{other_log};
ghost use Rattle.salt_stands.specs.Stands.{logs_of};
ghost use Rattle.std.specs.Prelude.{Err, IfOk, IsTrue, OnErr, OnOk, Some, length, nat_lt, true, ℕ, ◌+◌, ◌-◌, ◌<◌, ◌≤◌, ◌^◌, ◌≡◌};
ghost use Rattle.std.specs.Result.{result_err};

use crate::going::go_on;
use crate::header::{Definition, Definitions};
use crate::header_payload::{FORMAT, header_payload};
use crate::payload::{boot_frame, decision_frame, definition_frame};
use crate::which::Which;
use salt_disk::{DiskErr, Disks};
use salt_gatelog::{GateLog, create, next_generation};
use salt_place::Shape;
use salt_values::{Cont, Conts, Id};
use sqlite_items::Items;
use std::alloc::Global;
use std::marker::Model;

/// The log of the coordinator that counts. `boot`, `define` and `decide` append one entry each, and `snapshot` begins the pair's
/// other log. After an error of theirs the log is opened again before it is used.
#[derive(Drop)]
pub struct Decisions {
    pub(crate) which: Which,
    pub(crate) gate: GateLog,
    pub(crate) format: u8,
    pub(crate) generation: u64,
    pub(crate) shape: Shape,
    pub(crate) boot: u64,
    pub(crate) decisions: u64,
    pub(crate) definitions: Definitions,
    pub(crate) conts: Conts,
}

impl Model for Decisions {
    ghost use Rattle.salt_decisions.specs.Shown.{Shown};
    ghost use Rattle.salt_decisions.specs.Which.{which_in};
    ghost use Rattle.salt_place.specs.Placement.{IsParts};

    ghost Value = { Shown };

    ghost view = { λ d. record { which = which_in d.which; gate = d.gate; format = d.format; generation = d.generation; shape = d.shape; boot = d.boot; decisions = d.decisions; definitions = d.definitions; conts = d.conts } };

    ghost invariant = { λ d. IsParts d.shape.parts };
}

/// Appends the entry that a frame holds to the log that counts. After Ok the log says what the entry tells. Whatever it answers,
/// each image of the device has the entries from before, with this one or without it.
fn append_entry<D: Disks>(disks: &mut D, gate: &mut GateLog, frame: Vec<u8>) -> Result<(), DiskErr>
    requires front { 8 ≤ length frame.items }
    requires counting { (which : WhichLog) × ((log : CoordinatorLog) × IsCounting (D.view disks.old) gate.old which log) }
    ensures ok { (which : WhichLog) (log : CoordinatorLog) (entry : CoordinatorEntry) (now : Told) → IsCounting (D.view disks.old) gate.old which log
        → entry_in log.header.shape.parts (payload_in frame.items) ≡ Some entry → tell log.told entry ≡ Some now → OnOk result (IsCounting (D.view disks.new) gate.new which (log_with log now)) }
    ensures images { (which : WhichLog) (log : CoordinatorLog) → IsCounting (D.view disks.old) gate.old which log
        → EachImage (D.view disks.new) (device_of 0 which) (IsBeforeOrWith ((D.view disks.old).bytes (device_of 0 which)) (payload_in frame.items)) }
    ensures others { KeepsOthers (gates.device_of gate.old) (D.view disks.old) (D.view disks.new) (result_err result) }
    ensures cause { HasCause (D.view disks.old) (D.view disks.new) (result_err result) }
    ensures full { FullExactly (gates.device_of gate.old) ((D.view disks.old).limit (gates.device_of gate.old)) (gate_of gate.old + 10 + length (payload_in frame.items)) (result_err result) }
    ensures untouched { (n : ℕ) → result ≡ Err (Full n) → IsUnchanged (D.view disks.old) (D.view disks.new) (gates.device_of gate.old) }
{
    gate.append_frame(disks, frame)
}

impl Decisions {
    /// The last boot, 0 before the first.
    pub fn last_boot(&self) -> u64
        ensures { result ≡ last_boot self.now }
    {
        self.boot
    }

    /// The number of the last decision or definition.
    pub fn last_decision(&self) -> u64
        ensures { result ≡ last_decision self.now }
    {
        self.decisions
    }

    /// The definitions, in the order of their numbers.
    pub fn definitions(&self) -> &[Definition]
        ensures { result.now ≡ definitions_in self.now }
    {
        self.definitions.as_slice()
    }

    /// The continuations that are open, in the order in which they were accepted.
    pub fn conts(&self) -> &[Cont]
        ensures { result.now ≡ conts_in self.now }
    {
        self.conts.as_slice()
    }

    /// How many partitions there are, and how rows are spread over them.
    pub fn shape(&self) -> Shape
        ensures value { result ≡ shape_of self.now }
        ensures parts { IsParts result.parts }
    {
        self.shape
    }

    /// The format of the log's header.
    pub fn format(&self) -> u8
        ensures { result ≡ format_of self.now }
    {
        self.format
    }

    /// How many entries the log has, its header among them.
    pub fn entries(&self) -> u64
        ensures { result ≡ count_in self.now }
    {
        self.gate.count()
    }

    /// Appends the next boot's entry, and gives its number. Each image of the log's device has the entry more, or not. An error
    /// leaves the numbers as they were.
    pub fn boot<D: Disks>(&mut self, alloc: Global, disks: &mut D) -> Result<u64, DiskErr>
        requires log { (which : WhichLog) × ((log : CoordinatorLog) × IsDecisions (D.view disks.old) self.old which log) }
        requires below { last_boot self.old < 2 ^ 64 - 1 }

        ensures ok { (which : WhichLog) (log : CoordinatorLog) → IsDecisions (D.view disks.old) self.old which log → OnOk result (IsDecisions (D.view disks.new) self.new which (booted log)) }
        ensures number { IfOk result (λ boot. boot ≡ last_boot self.old + 1) }
        ensures same { OnErr result (numbers_in self.new ≡ numbers_in self.old) }
        ensures shape { shape_of self.new ≡ shape_of self.old }
        ensures images { (which : WhichLog) (log : CoordinatorLog) → IsDecisions (D.view disks.old) self.old which log
            → EachImage (D.view disks.new) (device_of 0 which) (IsBeforeOrWith ((D.view disks.old).bytes (device_of 0 which)) (spell_entry (Boots (last_boot self.old + 1)))) }

        ensures others { KeepsOthers (device_in self.old) (D.view disks.old) (D.view disks.new) (result_err result) }
        ensures cause { HasCause (D.view disks.old) (D.view disks.new) (result_err result) }
        ensures full { FullExactly (device_in self.old) ((D.view disks.old).limit (device_in self.old)) (gate_in self.old + 10 + length (spell_entry (Boots (last_boot self.old + 1)))) (result_err result) }
        ensures untouched { (n : ℕ) → result ≡ Err (Full n) → IsUnchanged (D.view disks.old) (D.view disks.new) (device_in self.old) }
    {
        let boot = self.boot + 1;
        let frame = boot_frame(alloc, boot)?;
        append_entry(disks, &mut self.gate, frame)?;
        self.boot = boot;
        Ok(boot)
    }

    /// Appends a definition's entry, under the next number of a decision, and gives that number. Each image of the log's
    /// device has the entry more, or not. An error leaves the numbers as they were.
    pub fn define<D: Disks>(
        &mut self,
        alloc: Global,
        disks: &mut D,
        text: &[u8],
    ) -> Result<u64, DiskErr>
        requires log { (which : WhichLog) × ((log : CoordinatorLog) × IsDecisions (D.view disks.old) self.old which log) }
        requires below { last_decision self.old < 2 ^ 64 - 1 }

        ensures ok { (which : WhichLog) (log : CoordinatorLog) → IsDecisions (D.view disks.old) self.old which log
            → OnOk result (IsDecisions (D.view disks.new) self.new which (defined log (next_definition self.old text.now))) }
        ensures number { IfOk result (λ number. number ≡ last_decision self.old + 1) }
        ensures same { OnErr result (numbers_in self.new ≡ numbers_in self.old) }
        ensures shape { shape_of self.new ≡ shape_of self.old }
        ensures images { (which : WhichLog) (log : CoordinatorLog) → IsDecisions (D.view disks.old) self.old which log
            → EachImage (D.view disks.new) (device_of 0 which) (IsBeforeOrWith ((D.view disks.old).bytes (device_of 0 which)) (spell_entry (Defines (next_definition self.old text.now)))) }

        ensures others { KeepsOthers (device_in self.old) (D.view disks.old) (D.view disks.new) (result_err result) }
        ensures cause { HasCause (D.view disks.old) (D.view disks.new) (result_err result) }
        ensures full { FullExactly (device_in self.old) ((D.view disks.old).limit (device_in self.old)) (gate_in self.old + 10 + length (spell_entry (Defines (next_definition self.old text.now)))) (result_err result) }
        ensures untouched { (n : ℕ) → result ≡ Err (Full n) → IsUnchanged (D.view disks.old) (D.view disks.new) (device_in self.old) }
    {
        let number = self.decisions + 1;
        let definition = Definition {
            number,
            text: Items::from_slice(alloc, text)?,
        };
        self.definitions.push(definition)?;
        let frame = definition_frame(alloc, number, text)?;
        append_entry(disks, &mut self.gate, frame)?;
        self.decisions = number;
        Ok(number)
    }

    /// Appends the entry that decides a unit, under the next number of a decision, and gives that number: `parts` are the
    /// bits of the partitions that have its changes, and `mv` is its move as it is spelled, which is made of the open
    /// continuations. Each image of the log's device has the entry more, or not.
    pub fn decide<D: Disks>(
        &mut self,
        alloc: Global,
        disks: &mut D,
        unit: Id,
        parts: u8,
        mv: &[u8],
    ) -> Result<u64, DiskErr>
        requires log { (which : WhichLog) × ((log : CoordinatorLog) × IsDecisions (D.view disks.old) self.old which log) }
        requires below { last_decision self.old < 2 ^ 64 - 1 }
        requires bits { nat_lt parts (2 ^ (shape_of self.old).parts) ≡ true }

        ensures ok { (which : WhichLog) (log : CoordinatorLog) → IsDecisions (D.view disks.old) self.old which log
            → OnOk result (IsDecisions (D.view disks.new) self.new which (decided log (next_decision self.old unit parts mv.now))) }
        ensures number { IfOk result (λ number. number ≡ last_decision self.old + 1) }
        ensures boot { last_boot self.new ≡ last_boot self.old }
        ensures shape { shape_of self.new ≡ shape_of self.old }
        ensures images { (which : WhichLog) (log : CoordinatorLog) → IsDecisions (D.view disks.old) self.old which log
            → EachImage (D.view disks.new) (device_of 0 which) (IsBeforeOrWith ((D.view disks.old).bytes (device_of 0 which)) (spell_entry (Decides (next_decision self.old unit parts mv.now)))) }

        ensures others { KeepsOthers (device_in self.old) (D.view disks.old) (D.view disks.new) (result_err result) }
        ensures cause { HasCause (D.view disks.old) (D.view disks.new) (result_err result) }
        ensures full { FullExactly (device_in self.old) ((D.view disks.old).limit (device_in self.old)) (gate_in self.old + 10 + length (spell_entry (Decides (next_decision self.old unit parts mv.now)))) (result_err result) }
        ensures untouched { (n : ℕ) → result ≡ Err (Full n) → IsUnchanged (D.view disks.old) (D.view disks.new) (device_in self.old) }
    {
        let number = self.decisions + 1;
        go_on(alloc, self.format, &mut self.conts, mv)?;
        let frame = decision_frame(alloc, number, unit, parts, mv)?;
        append_entry(disks, &mut self.gate, frame)?;
        self.decisions = number;
        Ok(number)
    }

    /// Begins the pair's other log with the next generation's header: the boot, the number of the last decision, the
    /// definitions, and the continuations that are open. The header's format is 3. From then on that log counts. Until the header
    /// stands there its device has what it had, or is blank; and where it is full, the log that counted counts.
    pub fn snapshot<D: Disks>(&mut self, alloc: Global, disks: &mut D) -> Result<(), DiskErr>
        requires log { (which : WhichLog) × ((log : CoordinatorLog) × IsDecisions (D.view disks.old) self.old which log) }

        ensures ok { (which : WhichLog) (log : CoordinatorLog) → IsDecisions (D.view disks.old) self.old which log
            → OnOk result (IsDecisions (D.view disks.new) self.new (other_log which) (snapshotted log (conts_in self.old))) }
        ensures begins { (which : WhichLog) (log : CoordinatorLog) → IsDecisions (D.view disks.old) self.old which log
            → OnOk result (BeginsWith (D.view disks.new) (device_of 0 (other_log which)) (next_header log (conts_in self.old)) (snapshot_payload self.old)) }
        ensures numbers { numbers_in self.new ≡ numbers_in self.old }
        ensures shape { shape_of self.new ≡ shape_of self.old }
        ensures entries { OnOk result (count_in self.new ≡ 1) }
        ensures counting { (which : WhichLog) (log : CoordinatorLog) → IsDecisions (D.view disks.old) self.old which log
            → EachImage (D.view disks.new) (device_of 0 which) (HasSameEntries ((D.view disks.old).bytes (device_of 0 which))) }
        ensures images { (which : WhichLog) (log : CoordinatorLog) → IsDecisions (D.view disks.old) self.old which log
            → EachImage (D.view disks.new) (device_of 0 (other_log which)) (IsSnapshotImage ((D.view disks.old).bytes (device_of 0 (other_log which))) (next_header log (conts_in self.old)) (snapshot_payload self.old)) }

        ensures others { (which : WhichLog) (log : CoordinatorLog) → IsDecisions (D.view disks.old) self.old which log
            → KeepsOthers (device_of 0 (other_log which)) (D.view disks.old) (D.view disks.new) (result_err result) }
        ensures cause { HasCause (D.view disks.old) (D.view disks.new) (result_err result) }
        ensures full { (which : WhichLog) (log : CoordinatorLog) → IsDecisions (D.view disks.old) self.old which log
            → FullOnly (device_of 0 (other_log which)) ((D.view disks.old).limit (device_of 0 (other_log which))) (10 + length (snapshot_payload self.old)) (result_err result) }
        ensures counts { (which : WhichLog) (log : CoordinatorLog) → IsDecisions (D.view disks.old) self.old which log
            → (n : ℕ) → result ≡ Err (Full n) → IsTrue (D.view disks.old).told → coordinator_pair (logs_of (D.view disks.new).bytes) ≡ Counts which log }
    {
        let generation = next_generation(self.generation);
        let definitions = self.definitions.as_slice();
        let conts = self.conts.as_slice();
        let payload = header_payload(
            alloc,
            generation,
            self.shape,
            self.boot,
            self.decisions,
            definitions,
            conts,
        )?;
        let which = self.which.other();
        let mut gate = create(disks, which.device())?;
        gate.append(alloc, disks, &payload)?;
        self.which = which;
        self.gate = gate;
        self.format = FORMAT;
        self.generation = generation;
        Ok(())
    }
}
