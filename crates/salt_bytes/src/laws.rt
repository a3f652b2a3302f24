//! The laws of the spellings, each on a function that does nothing.

ghost use Rattle.salt_bytes.specs.declared.moves.Move.{Move};
ghost use Rattle.salt_values.specs.declared.value.Value.{Value};
ghost use Rattle.std.specs.Prelude.{◌≡◌, ◌++◌, Bool, List, Some, length, ℕ};
ghost use Rattle.salt_bytes.specs.Conts.{move_in, spell_move};
ghost use Rattle.salt_bytes.specs.Coordinator.{CoordinatorEntry, CoordinatorHeader, entry_in, header_in, spell_entry, spell_header};
ghost use Rattle.salt_bytes.specs.Page.{TableRow, page_length, rows_in_page, spell_page};
ghost use Rattle.salt_bytes.specs.Partition.{PartitionHeader, Prepared, partition_header_in, prepared_in, spell_partition_header, spell_prepared};
ghost use Rattle.salt_bytes.specs.Spellable.{AreBytes, IsSpellableEntry, IsSpellableHeader, IsSpellableMove, IsSpellablePage, IsSpellablePartitionHeader, IsSpellablePrepared, IsSpellableRow};
ghost use Rattle.salt_bytes.specs.Values.{take_row, spell_values};

/// A row that was spelled is taken, and what stood behind it is left.
pub fn rows_are_taken()
    ensures { (nulls : Bool) (row : List Value) (rest : List ℕ) → IsSpellableRow nulls row → take_row nulls (spell_values row ++ rest) ≡ Some (row, rest) }
{}

/// What is taken as a row was spelled so.
pub fn rows_have_one_spelling()
    ensures { (nulls : Bool) (bytes : List ℕ) (row : List Value) (rest : List ℕ) → AreBytes bytes → take_row nulls bytes ≡ Some (row, rest) → bytes ≡ spell_values row ++ rest }
{}

/// No spelling of a row is the beginning of another one's.
pub fn no_row_begins_another()
    ensures { (nulls : Bool) (a b : List Value) (r s : List ℕ) → IsSpellableRow nulls a → IsSpellableRow nulls b → spell_values a ++ r ≡ spell_values b ++ s → (a ≡ b) × (r ≡ s) }
{}

/// A move that was spelled is read.
pub fn moves_are_read()
    ensures { (format : ℕ) (m : Move) → IsSpellableMove format m → move_in format (spell_move format m) ≡ Some m }
{}

/// Bytes that are read as a move are its spelling.
pub fn moves_have_one_spelling()
    ensures { (format : ℕ) (bytes : List ℕ) → AreBytes bytes → (m : Move) → move_in format bytes ≡ Some m → bytes ≡ spell_move format m }
{}

/// A coordinator's header that was spelled is read.
pub fn headers_are_read()
    ensures { (h : CoordinatorHeader) → IsSpellableHeader h → header_in (spell_header h) ≡ Some h }
{}

/// So is each of its entries.
pub fn entries_are_read()
    ensures { (parts : ℕ) (e : CoordinatorEntry) → IsSpellableEntry parts e → entry_in parts (spell_entry e) ≡ Some e }
{}

/// A partition's header that was spelled is read.
pub fn partition_headers_are_read()
    ensures { (h : PartitionHeader) → IsSpellablePartitionHeader h → partition_header_in (spell_partition_header h) ≡ Some h }
{}

/// So is each of its prepared units.
pub fn prepared_units_are_read()
    ensures { (nulls : Bool) (p : Prepared) → IsSpellablePrepared nulls p → prepared_in nulls (spell_prepared p) ≡ Some p }
{}

/// A page that was spelled has its length, and its rows are read.
pub fn pages_are_read()
    ensures length { (nulls : Bool) (rows : List TableRow) → IsSpellablePage nulls rows → length (spell_page rows) ≡ page_length }
    ensures rows { (nulls : Bool) (rows : List TableRow) → IsSpellablePage nulls rows → rows_in_page nulls (spell_page rows) ≡ Some rows }
{}
