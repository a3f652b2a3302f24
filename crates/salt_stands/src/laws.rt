//! The laws of what stands, each on a function that does nothing. They hold whatever reads the definitions.

ghost use Rattle.salt_bytes.specs.declared.moves.Move.{Move};
ghost use Rattle.salt_model.specs.Kept.{Definition};
ghost use Rattle.salt_values.specs.declared.change.Change.{Change};
ghost use Rattle.salt_values.specs.declared.cont.Cont.{Cont};
ghost use Rattle.salt_model.specs.Words.{is_empty};
ghost use Rattle.salt_net.specs.Flags.{are_nodes, has_node};
ghost use Rattle.std.specs.Prelude.{◌≡◌, ◌≢◌, ◌⊎◌, ◌+◌, ◌++◌, ◌∷◌, ◌<◌, ◌≤◌, [], List, Ok, Some, false, not, true, ℕ};
ghost use Rattle.salt_bytes.specs.Coordinator.{Boots, Decision, Defines, NumberedText, entry_in, header_in};
ghost use Rattle.salt_bytes.specs.Generations.{LogA, WhichLog};
ghost use Rattle.salt_stands.specs.Commits.{CoordinatorBlanked, CoordinatorSame, IsCheckpointed, IsDecided, IsUndecided, MayCommit, PagesSame, PartBlanked, PartSame, Spelled, Stood, found_after, found_of, partition_count, view_after, with_view};
ghost use Rattle.salt_stands.specs.Coordinator.{Coordinator, Logs, device_of};
ghost use Rattle.salt_stands.specs.FirstOpening.{AreBlank, AreMade, first_coordinator, first_view};
ghost use Rattle.salt_stands.specs.Partition.{is_format_under, pages_device};
ghost use Rattle.salt_stands.specs.Pieces.{StaysFitting, HasOneMore, IsSameAt, PartView, ReadsSamePages, checkpointed, next_header, next_part_header, other_log, with_boot, with_decision, with_definition, with_snapshot};
ghost use Rattle.salt_stands.specs.Placed.{changes_at, nodes_in};
ghost use Rattle.salt_stands.specs.Reading.{Reading};
ghost use Rattle.salt_stands.specs.Stands.{nothing_found, stands_in};
ghost use Rattle.salt_place.specs.declared.placement.Shape.{Shape};

/// During a commit, before its decision, each image stands for what stood before: each partition may have the unit's entry.
pub fn undecided_units_change_nothing()
    ensures { (r : Reading Definition) (c : Coordinator Definition) (v : ℕ → PartView) (which : WhichLog) (cs : List Change) (d : Decision) (m : Move) (open_conts : List Cont) (decision : List ℕ) (prepared : ℕ → List ℕ)
        → MayCommit r c v cs d m open_conts → Spelled c v cs d decision prepared
        → (old new : Logs) (before after : ℕ → List ℕ) → Stood r old before which c v → PagesSame c v before after
        → (asked : Shape) → IsUndecided c v old new prepared → stands_in r new after asked ≡ Ok (found_of c v) }
{}

/// With the decision, and the unit's entry in each partition that has a bit, it stands with the unit: its changes, one
/// decision more, and the continuations that its move leaves open.
pub fn decided_units_stand()
    ensures store { (r : Reading Definition) (c : Coordinator Definition) (v : ℕ → PartView) (which : WhichLog) (cs : List Change) (d : Decision) (m : Move) (open_conts : List Cont) (decision : List ℕ) (prepared : ℕ → List ℕ)
        → MayCommit r c v cs d m open_conts → Spelled c v cs d decision prepared
        → (old new : Logs) (before after : ℕ → List ℕ) → Stood r old before which c v → PagesSame c v before after
        → IsDecided c v which old new d.mask decision prepared → Stood r new after which (with_decision c d open_conts) (view_after c v cs d) }
    ensures stands { (r : Reading Definition) (c : Coordinator Definition) (v : ℕ → PartView) (which : WhichLog) (cs : List Change) (d : Decision) (m : Move) (open_conts : List Cont) (decision : List ℕ) (prepared : ℕ → List ℕ)
        → MayCommit r c v cs d m open_conts → Spelled c v cs d decision prepared
        → (old new : Logs) (before after : ℕ → List ℕ) → Stood r old before which c v → PagesSame c v before after
        → (asked : Shape) → IsDecided c v which old new d.mask decision prepared → stands_in r new after asked ≡ Ok (found_after c v cs d open_conts) }
{}

/// A boot entry adds one to the boot, and changes nothing else.
pub fn boots_are_kept()
    ensures { (r : Reading Definition) (old new : Logs) (devices : ℕ → List ℕ) (which : WhichLog) (c : Coordinator Definition) (v : ℕ → PartView) (payload : List ℕ)
        → Stood r old devices which c v → HasOneMore old new (device_of 0 which) payload → IsSameAt (device_of 0 (other_log which)) old new
        → entry_in (partition_count c) payload ≡ Some (Boots (c.log.told.boot + 1)) → ((p : ℕ) → p < partition_count c → PartSame old new p)
        → Stood r new devices which (with_boot c) v }
{}

/// A definition's entry adds the definition, and is the next decision.
pub fn definitions_are_kept()
    ensures { (r : Reading Definition) (old new : Logs) (devices : ℕ → List ℕ) (which : WhichLog) (c : Coordinator Definition) (v : ℕ → PartView) (payload : List ℕ) (t : NumberedText) (d : Definition)
        → Stood r old devices which c v → HasOneMore old new (device_of 0 which) payload → IsSameAt (device_of 0 (other_log which)) old new
        → entry_in (partition_count c) payload ≡ Some (Defines t) → t.number ≡ c.log.told.decisions + 1 → r.read t.text ≡ Some d → r.is_refused c.definitions d ≡ false → StaysFitting r c.definitions d
        → ((p : ℕ) → p < partition_count c → PartSame old new p)
        → Stood r new devices which (with_definition c t d) v }
{}

/// Other logs that are made blank, and pages on sides that no counting header names, change nothing.
pub fn blank_logs_change_nothing()
    ensures { (r : Reading Definition) (old new : Logs) (before after : ℕ → List ℕ) (which : WhichLog) (c : Coordinator Definition) (v : ℕ → PartView)
        → Stood r old before which c v → CoordinatorSame old new ⊎ CoordinatorBlanked old new which
        → ((p : ℕ) → p < partition_count c → PartSame old new p ⊎ PartBlanked old new p (v p).which) → PagesSame c v before after
        → Stood r new after which c v }
{}

/// A checkpoint of a partition changes nothing of what stands.
pub fn checkpoints_change_nothing()
    ensures store { (r : Reading Definition) (old new : Logs) (before after : ℕ → List ℕ) (which : WhichLog) (c : Coordinator Definition) (v : ℕ → PartView) (p : ℕ) (payload : List ℕ) (format : ℕ) (sides : List ℕ) (rows : List Change)
        → Stood r old before which c v → CoordinatorSame old new → p < partition_count c
        → IsCheckpointed r c (v p) p old new after payload format sides rows
        → ((q : ℕ) → q < partition_count c → q ≢ p → PartSame old new q × ReadsSamePages (v q) (before (pages_device q)) (after (pages_device q)))
        → Stood r new after which c (with_view p (checkpointed (v p) (next_part_header (v p) format sides) rows) v) }
    ensures found { (r : Reading Definition) (old new : Logs) (after : ℕ → List ℕ) (c : Coordinator Definition) (v : ℕ → PartView) (p : ℕ) (payload : List ℕ) (format : ℕ) (sides : List ℕ) (rows : List Change)
        → IsCheckpointed r c (v p) p old new after payload format sides rows
        → found_of c (with_view p (checkpointed (v p) (next_part_header (v p) format sides) rows) v) ≡ found_of c v }
{}

/// A snapshot, behind checkpoints of all partitions, changes nothing but the format.
pub fn snapshots_change_nothing()
    ensures store { (r : Reading Definition) (old new : Logs) (devices : ℕ → List ℕ) (which : WhichLog) (c : Coordinator Definition) (v : ℕ → PartView) (payload : List ℕ) (format : ℕ)
        → Stood r old devices which c v → IsSameAt (device_of 0 which) old new → new (device_of 0 (other_log which)) ≡ Some (payload ∷ [])
        → header_in payload ≡ Some (next_header c.log c.conts format)
        → ((p : ℕ) → p < partition_count c → PartSame old new p × ((v p).log.prepared ≡ []) × (is_format_under format (v p).log.header.format ≡ true))
        → Stood r new devices (other_log which) (with_snapshot c format) v }
    ensures found { (r : Reading Definition) (c : Coordinator Definition) (v : ℕ → PartView) (format : ℕ) → ((p : ℕ) → p < partition_count c → (v p).log.prepared ≡ [])
        → found_of (with_snapshot c format) v ≡ (let before = found_of c v in record before { format = format }) }
{}

/// Until the coordinator has a log, the devices stand for a new database, whatever the others hold.
pub fn blank_devices_stand_for_nothing()
    ensures { (r : Reading Definition) (logs : Logs) (devices : ℕ → List ℕ) (asked : Shape) → AreBlank logs → stands_in r logs devices asked ≡ Ok (nothing_found asked) }
{}

/// With the headers of the first opening they stand for the same.
pub fn first_headers_stand_for_nothing()
    ensures store { (r : Reading Definition) (logs : Logs) (devices : ℕ → List ℕ) (shape : Shape) (format part_format : ℕ) (coordinator : List ℕ) (part : ℕ → List ℕ)
        → is_format_under format part_format ≡ true → AreMade logs shape format part_format coordinator part
        → Stood r logs devices LogA (first_coordinator shape format) (first_view part_format) }
    ensures found { (r : Reading Definition) (shape : Shape) (part_format : ℕ) → found_of (first_coordinator shape 3) (first_view part_format) ≡ nothing_found {D = Definition} shape }
{}

/// A unit may have the nodes of its changes: none is the coordinator, and none is named twice. A partition's node is among
/// them exactly where it has some of the changes.
pub fn nodes_are_of_changes()
    ensures may { (shape : Shape) (cs : List Change) → shape.parts ≤ 8 → are_nodes (nodes_in shape cs) ≡ true }
    ensures which { (shape : Shape) (cs : List Change) (p : ℕ) → p < shape.parts →
        has_node (p + 1) (nodes_in shape cs) ≡ not (is_empty (changes_at shape p cs)) }
{}
