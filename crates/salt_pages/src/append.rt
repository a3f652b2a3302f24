//! A row that is spelled already, put behind the others: nothing is made of it.

ghost use Rattle.salt_bytes.specs.Numbers.{spell_16};
ghost use Rattle.salt_bytes.specs.Page.{TableRow, take_table_row};
ghost use Rattle.salt_pages.specs.Filling.{filled};
ghost use Rattle.salt_pages.specs.Tags.{row_tag};
ghost use Rattle.std.specs.Prelude.{Some, [], length, true, ◌+◌, ◌≡◌, ◌≤◌};

use crate::behind::behind_value;
use crate::fill::put_bytes;

/// The tag of a row that is spelled behind its table's number.
pub fn tag_in(spelled: &[u8]) -> u8
    ensures { (r : TableRow) → take_table_row true spelled.now ≡ Some (r, []) → result ≡ row_tag r }
{
    let [_, _, _, key @ ..] = spelled else {
        return 0;
    };
    let Some(behind) = behind_value(true, key) else {
        return 0;
    };
    key[key.len() - behind.len() - 1]
}

/// A row as it is spelled, from a place on, and how many rows there are then.
fn put_spelled(out: &mut [u8], at: usize, spelled: &[u8], count: u16)
    requires room { at + length spelled.now ≤ length out.old }
    requires front { 2 ≤ at }
    ensures bytes { out.new ≡ filled (filled out.old at spelled.now) 0 (spell_16 count) }
    ensures length { length out.new ≡ length out.old }
{
    put_bytes(out, at, spelled);
    put_bytes(out, 0, &count.to_be_bytes());
}

/// The same in a page's bytes.
pub fn add_spelled(bytes: &mut Vec<u8>, at: usize, spelled: &[u8], count: u16)
    requires room { at + length spelled.now ≤ length bytes.old.items }
    requires front { 2 ≤ at }
    ensures { bytes.new.items ≡ filled (filled bytes.old.items at spelled.now) 0 (spell_16 count) }
{
    put_spelled(bytes.as_mut_slice(), at, spelled, count);
}
