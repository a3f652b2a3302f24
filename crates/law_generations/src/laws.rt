//! The laws, each on a function that does nothing. They hold whatever reads the definitions.

ghost use Rattle.law_generations.specs.AsIf.{IsAsIf, IsAsIfIn};
ghost use Rattle.salt_bytes.specs.Partition.{PartitionHeader};
ghost use Rattle.salt_model.specs.Kept.{Definition};
ghost use Rattle.salt_model.specs.Tables.{no_rows, with_changes};
ghost use Rattle.salt_stands.specs.Commits.{partition_count, with_view};
ghost use Rattle.salt_stands.specs.Coordinator.{Coordinator};
ghost use Rattle.salt_stands.specs.Pieces.{PartView, checkpointed, tables_at_part, with_snapshot};
ghost use Rattle.salt_values.specs.declared.change.Change.{Change};
ghost use Rattle.std.specs.Prelude.{List, [], ℕ, ◌<◌, ◌≡◌};

/// A store is a generation of itself, and generations go on from each other.
pub fn generations_go_on()
    ensures same { (c : Coordinator Definition) (v : ℕ → PartView) → IsAsIf c v c v }
    ensures on { (c c1 c2 : Coordinator Definition) (v v1 v2 : ℕ → PartView) → IsAsIf c v c1 v1 → IsAsIf c1 v1 c2 v2 → IsAsIf c v c2 v2 }
{}

/// A checkpoint of a partition, whose pages have the partition's tables then, makes a generation of the same store.
pub fn checkpoints_make_generations()
    ensures { (c : Coordinator Definition) (v : ℕ → PartView) (p : ℕ) (h : PartitionHeader) (rows : List Change)
        → with_changes rows no_rows ≡ tables_at_part c p (v p) → IsAsIf c v c (with_view p (checkpointed (v p) h rows) v) }
{}

/// So does a snapshot in the same format, where no partition has a prepared unit; in another one what stands is the same but for that.
pub fn snapshots_make_generations()
    ensures same { (c : Coordinator Definition) (v : ℕ → PartView) → ((p : ℕ) → p < partition_count c → (v p).log.prepared ≡ [])
        → IsAsIf c v (with_snapshot c c.log.header.format) v }
    ensures other { (c : Coordinator Definition) (v : ℕ → PartView) (format : ℕ) → ((p : ℕ) → p < partition_count c → (v p).log.prepared ≡ [])
        → IsAsIfIn format c v (with_snapshot c format) v }
{}
