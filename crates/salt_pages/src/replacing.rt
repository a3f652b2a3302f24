//! A row written over another one of its page.

ghost use Rattle.salt_bytes.specs.Page.{TableRow};
ghost use Rattle.salt_bytes.specs.Spellable.{Every};
ghost use Rattle.salt_bytes.specs.Values.{is_row_length, spell_values};
ghost use Rattle.salt_pages.specs.Pages.{IsSpelled, page_rows};
ghost use Rattle.salt_values.specs.Value.{IsValue};
ghost use Rattle.std.specs.List.{slice_set};
ghost use Rattle.std.specs.Prelude.{IsTrue, Some, false, length, slice_get, true, ◌<◌, ◌==◌, ◌≡◌};

use crate::change::place_behind;
use crate::fill::put_row;
use crate::room::row_room;
use salt_values::Value;

/// Writes a row over row `i`, behind its table's number, where both take as many bytes. Whether they do.
pub fn replace_in(bytes: &mut Vec<u8>, places: &[u16], free: usize, i: usize, row: &[Value]) -> bool
    requires spelled { IsSpelled bytes.old.items places.now free (page_rows bytes.old.items) }
    requires below { i < length (page_rows bytes.old.items) }
    requires row { is_row_length (length row.now) ≡ true }
    requires values { Every IsValue row.now }
    ensures fits { (r : TableRow) → slice_get (page_rows bytes.old.items) i ≡ Some r → result ≡ (length (spell_values r.row) == length (spell_values row.now)) }
    ensures set { (r : TableRow) → slice_get (page_rows bytes.old.items) i ≡ Some r → IsTrue result
        → IsSpelled bytes.new.items places.now free (slice_set (page_rows bytes.old.items) i (record { table = r.table; row = row.now })) }
    ensures left { result ≡ false → bytes.new.items ≡ bytes.old.items }
{
    let place = places[i] as usize;
    let end = place_behind(places, free, i);
    if end - place != row_room(row) {
        return false;
    }
    put_row(bytes.as_mut_slice(), place + 2, row);
    true
}
