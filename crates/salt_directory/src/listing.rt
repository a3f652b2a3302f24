//! Rows of pages are listed in a directory.

ghost use Rattle.salt_bytes.specs.Page.{TableRow};
ghost use Rattle.salt_directory.specs.Directories.{HasPagesBelow};
ghost use Rattle.salt_directory.specs.Listing.{HaveTwins, IsDirectory};
ghost use Rattle.salt_directory.specs.Pages.{all_rows, page_of};
ghost use Rattle.salt_directory.specs.declared.error.ListErr.TheVariants.{Twins, Unsound};
ghost use Rattle.salt_model.specs.Tables.{place, place_cmp};
ghost use Rattle.salt_values.specs.Value.{key_of};
ghost use Rattle.std.specs.BTreeMap.{insert_entry};
ghost use Rattle.std.specs.List.{list_all};
ghost use Rattle.std.specs.Prelude.{Err, List, None, OnOk, [], false, is_some, length, true, ◌+◌, ◌++◌, ◌∷◌, ◌≡◌};

use crate::directory::Directory;
use crate::error::ListErr;
use crate::judge::RowJudge;
use salt_eval::key_of;
use salt_model::Place;
use salt_pages::Page;
use salt_values::Row;
use std::alloc::Global;

/// Lists a row of a page. `Unsound` exactly where the row is not sound; `Twins` only where another one stands at its place.
fn list_row<J: RowJudge>(
    alloc: Global,
    directory: &mut Directory,
    page: u32,
    table: u16,
    row: &Row,
    judge: &J,
) -> Result<(), ListErr>
    requires { J.can_judge judge.now }
    ensures entries { OnOk result (directory.new ≡ insert_entry place_cmp directory.old (place table (key_of row.now)) page) }
    ensures absent { OnOk result (page_of directory.old (place table (key_of row.now)) ≡ None) }
    ensures sound { OnOk result (J.sound judge.now (record { table = table; row = row.now }) ≡ true) }
    ensures twin { result ≡ Err Twins → is_some (page_of directory.old (place table (key_of row.now))) ≡ true }
    ensures unsound { result ≡ Err Unsound → J.sound judge.now (record { table = table; row = row.now }) ≡ false }
{
    let key = key_of(alloc, row.as_slice())?;
    if !judge.is_sound(alloc, table, &key, row)? {
        return Err(ListErr::Unsound);
    }
    match directory.insert(Place { table, key }, page)? {
        None => Ok(()),
        Some(_) => Err(ListErr::Twins),
    }
}

/// Lists the rows of a page, which stands behind those that are listed. `Unsound` only where one of them is not sound; `Twins` only where
/// two rows stand at one place.
pub fn list_page<J: RowJudge>(
    alloc: Global,
    directory: &mut Directory,
    number: u32,
    page: &Page,
    judge: &J,
) -> Result<(), ListErr>
    requires { J.can_judge judge.now }
    ensures listed { OnOk result ((pages : List (List TableRow)) → number ≡ length pages → IsDirectory directory.old (pages ++ [] ∷ []) → IsDirectory directory.new (pages ++ page.now ∷ [])) }
    ensures sound { OnOk result (list_all (J.sound judge.now) page.now ≡ true) }
    ensures twins { result ≡ Err Twins → (pages : List (List TableRow)) → number ≡ length pages → IsDirectory directory.old (pages ++ [] ∷ []) → HaveTwins (all_rows (pages ++ page.now ∷ [])) }
    ensures unsound { result ≡ Err Unsound → list_all (J.sound judge.now) page.now ≡ false }
    ensures below { OnOk result (HasPagesBelow directory.old number → HasPagesBelow directory.new (number + 1)) }
{
    for i in 0..page.count() {
        let (table, row) = page.row(alloc, i)?;
        list_row(alloc, directory, number, table, &row, judge)?;
    }
    Ok(())
}
