//! Whether what is given can be written: over disks that tell nothing it may have been made of anything that they gave.

ghost use Rattle.salt_bytes.specs.Changes.{are_in_order};
ghost use Rattle.salt_bytes.specs.Spellable.{Every};
ghost use Rattle.salt_bytes.specs.declared.moves.Move.{Move};
ghost use Rattle.salt_codec.specs.Entries.{CanBePut};
ghost use Rattle.salt_codec.specs.Moves.{IsShort, IsShortMove};
ghost use Rattle.salt_values.specs.declared.change.Change.{Change};
ghost use Rattle.salt_values.specs.declared.cont.Cont.{Cont};
ghost use Rattle.std.specs.Prelude.{IsTrue, true, ◌≡◌};

use salt_bytes::Move;
use salt_codec::are_in_order;
use salt_values::limits::COLUMNS_MOST;
use salt_values::{Change, Cont, Value};

/// The bytes of a name, and the values of a list, are counted by one byte.
const BYTE_MOST: usize = 255;

/// Whether a change can be put into a partition: a key that is removed is not NULL, and a row that is put has 1 to 16 values, of
/// which the first is its key.
fn can_be_put(change: &Change) -> bool
    ensures { IsTrue result → CanBePut true change.now }
{
    match &change.row {
        None => !matches!(change.key, Value::Null),
        Some(row) => match row.as_slice() {
            [first, ..] => row.len() <= COLUMNS_MOST && *first == change.key,
            [] => false,
        },
    }
}

/// Whether changes can be put: each of them, and they are in order, each key once.
pub fn can_be_written(changes: &[Change]) -> bool
    ensures put { IsTrue result → Every (CanBePut true) changes.now }
    ensures ordered { IsTrue result → are_in_order changes.now ≡ true }
{
    for change in changes {
        if !can_be_put(change) {
            return false;
        }
    }
    are_in_order(changes)
}

/// Whether a continuation can be spelled.
fn is_short(cont: &Cont) -> bool
    ensures { IsTrue result → IsShort cont.now }
{
    cont.program.len() <= BYTE_MOST && cont.args.len() <= BYTE_MOST && cont.vars.len() <= BYTE_MOST
}

/// Whether a move can be spelled.
pub fn is_short_move(made: &Move) -> bool
    ensures { IsTrue result → IsShortMove made.now }
{
    match made {
        Move::Plain | Move::Finish(_) => true,
        Move::Continue(cont) => is_short(cont),
    }
}
