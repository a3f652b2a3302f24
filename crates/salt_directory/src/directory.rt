//! The page of each row, by its place.

ghost use Rattle.salt_directory.specs.Directories.{HasPagesBelow, IsFound, IsNextPlace, first_behind};
ghost use Rattle.salt_directory.specs.Loading.{HaveAllOf, count_in};
ghost use Rattle.salt_directory.specs.Pages.{page_of};
ghost use Rattle.std.specs.BTreeMap.{insert_entry, is_at};
ghost use Rattle.std.specs.BTreeMap.Range.{entries_between};
ghost use Rattle.std.specs.List.{slice_set};
ghost use Rattle.std.specs.List.Sorted.{IsStrictlySortedBy};
ghost use Rattle.std.specs.Map.{keys_of, remove_entry};
ghost use Rattle.std.specs.Map.Iter.{deref_pair};
ghost use Rattle.std.specs.Option.{option_copied};
ghost use Rattle.std.specs.Ordering.{is_eq};
ghost use Rattle.std.specs.Prelude.{IfOk, IfSome, None, OnOk, Some, [], cond, length, option_map, true, ◌<◌, ◌^◌, ◌≡◌};
ghost use Rattle.std.specs.declared.ops.Bound.TheVariants.{Unbounded};
ghost use Rattle.salt_model.specs.Tables.{place, place_cmp};
ghost use Rattle.salt_model.specs.Words.{first_of_list};

use salt_eval::start_of;
use salt_model::{Place, first_place};
use salt_ranges::KeyRange;
use salt_values::{Key, TryCopy};
use std::alloc::{AllocError, Global};
use std::collections::BTreeMap;
use std::collections::btree_map::Range;
use std::marker::Model;
use std::ops::Bound;

/// What is found of a place.
#[derive(Clone, Copy, Debug)]
enum Standing {
    /// The page of the row there.
    On(u32),
    /// No row is there; the page of the row of the greatest place below, where there is one.
    Behind(Option<u32>),
}

/// A place that was looked for, and what was found of it.
#[derive(Drop)]
struct Asked {
    place: Place,
    standing: Standing,
}

/// What is found of a place by one search.
fn standing_in(pages: &BTreeMap<Place, u32>, place: &Place) -> Standing
    ensures { IsFound pages.now.entries place.now result }
{
    let Some((nearest, page)) = pages.range(..=place).next_back() else {
        return Standing::Behind(None);
    };
    if nearest == place {
        Standing::On(*page)
    } else {
        Standing::Behind(Some(*page))
    }
}

/// The page of each row, by its place. What was found of the place that was looked for last is kept while it is so: who changes a row has
/// looked for it before. Contracts see the pages in order of places.
#[derive(Drop)]
pub struct Directory {
    pages: BTreeMap<Place, u32>,
    asked: Option<Asked>,
}

impl Model for Directory {
    ghost use Rattle.salt_directory.specs.Directories.{IsKnown};
    ghost use Rattle.salt_model.specs.declared.places.Place.{Place};
    ghost use Rattle.std.specs.Prelude.{List, ℕ};

    ghost Value = { List (Place × ℕ) };

    ghost view = { λ d. d.pages.entries };

    ghost invariant = { λ d. IsKnown d.pages.entries d.asked };
}

impl Directory {
    /// No rows.
    pub fn new(alloc: Global) -> Directory
        ensures { result ≡ [] }
    {
        Directory {
            pages: BTreeMap::new(alloc),
            asked: None,
        }
    }

    /// What is found of a place, with no search where it was looked for last.
    fn standing(&self, place: &Place) -> Standing
        ensures { IsFound self.now place.now result }
    {
        match &self.asked {
            Some(asked) if asked.place == *place => asked.standing,
            _ => standing_in(&self.pages, place),
        }
    }

    /// The page of the row at a place, `None` exactly where there is no row. What is found is kept for who asks of the place again.
    pub fn look_for(&mut self, place: Place) -> Option<u32>
        ensures page { result ≡ page_of self.old place }
        ensures same { self.new ≡ self.old }
    {
        let standing = self.standing(&place);
        self.asked = Some(Asked { place, standing });
        match standing {
            Standing::On(page) => Some(page),
            Standing::Behind(_) => None,
        }
    }

    /// The page of the row at a place, `None` exactly where there is no row.
    pub fn page_of(&self, place: &Place) -> Option<u32>
        ensures { result ≡ page_of self.now place.now }
    {
        match self.standing(place) {
            Standing::On(page) => Some(page),
            Standing::Behind(_) => None,
        }
    }

    /// The page of the row of the greatest place that is not above this one, of which the clause says that it is one of the pages: where a
    /// new row goes is free.
    pub fn page_before(&self, place: &Place) -> Option<u32>
        ensures { (count : _) → HasPagesBelow self.now count → IfSome result (λ page. page < count) }
    {
        match self.standing(place) {
            Standing::On(page) => Some(page),
            Standing::Behind(page) => page,
        }
    }

    /// The row at a place stands on this page. The page on which one stood there before is given back.
    pub fn insert(&mut self, place: Place, page: u32) -> Result<Option<u32>, AllocError>
        ensures old { IfOk result (λ old. old ≡ page_of self.old place) }
        ensures entries { OnOk result (self.new ≡ insert_entry place_cmp self.old place page) }
    {
        self.asked = None;
        Ok(self.pages.insert(place, page)?)
    }

    /// No row stands at a place.
    pub fn remove(&mut self, place: &Place)
        ensures entries { self.new ≡ remove_entry (is_at (place_cmp place.now)) self.old }
        ensures others { (q : _) → page_of self.new q ≡ cond (is_eq (place_cmp place.now q)) None (page_of self.old q) }
    {
        self.pages.remove(place);
        self.asked = None;
    }

    /// Whether no row of the place's table is above it: so it is of rows that come in rising order.
    pub fn is_last(&self, place: &Place) -> bool {
        let mut above = self.pages.range((Bound::Excluded(place), Bound::Unbounded));
        match above.next() {
            Some((next, _page)) => next.table != place.table,
            None => true,
        }
    }

    /// The rows from a place on.
    pub(crate) fn rows_from(&self, start: Bound<Place>) -> Range<'_, Place, u32>
        ensures between { result ≡ entries_between place_cmp start Unbounded self.now }
        ensures fits { length result < 2 ^ 63 }
        ensures ordered { IsStrictlySortedBy place_cmp (keys_of self.now) }
    {
        self.pages.range((start, Bound::Unbounded))
    }
}

/// The first place from there on, with its page.
fn first_from<'a>(directory: &'a Directory, start: Bound<Place>) -> Option<(&'a Place, &'a u32)>
    ensures first { option_map deref_pair result ≡ first_of_list (entries_between place_cmp start Unbounded directory.now) }
    ensures found { IfSome result (λ e. page_of directory.now e.0.now ≡ Some e.1.now) }
    ensures ordered { IsStrictlySortedBy place_cmp (keys_of directory.now) }
{
    directory.rows_from(start).next()
}

/// The key of the next row of a range, behind a key where one is given, and its page.
pub fn next_place(
    alloc: Global,
    directory: &Directory,
    table: u16,
    range: &KeyRange,
    after: Option<&Key>,
) -> Result<Option<(Key, u32)>, AllocError>
    ensures next { IfOk result (IsNextPlace table range.now (first_behind table range.now (option_copied after.entry) directory.now)) }
    ensures found { IfOk result (λ found. IfSome found (λ f. page_of directory.now (place table f.0) ≡ Some f.1)) }
    ensures ordered { OnOk result (IsStrictlySortedBy place_cmp (keys_of directory.now)) }
{
    let start = start_of(alloc, table, &range.lo, after)?;
    let Some((place, page)) = first_from(directory, start) else {
        return Ok(None);
    };
    if place.table == table && range.has(&place.key) {
        Ok(Some((place.key.copy(alloc)?, *page)))
    } else {
        Ok(None)
    }
}

/// The rows of a range: which pages have some, and how many there are.
#[derive(Drop)]
pub struct Extent {
    pub pages: Vec<bool>,
    pub rows: usize,
}

/// A page is marked, where it is one of these.
fn mark(pages: &mut Vec<bool>, page: u32)
    ensures { pages.new.items ≡ slice_set pages.old.items page true }
{
    if (page as usize) < pages.len() {
        pages[page as usize] = true;
    }
}

/// Which of so many pages have a row of the table whose key is in the range, and how many such rows there are.
pub fn extent_of(
    alloc: Global,
    directory: &Directory,
    table: u16,
    range: &KeyRange,
    count: usize,
) -> Result<Extent, AllocError>
    ensures count { IfOk result (λ extent. length extent.pages.items ≡ count) }
    ensures all { IfOk result (λ extent. HaveAllOf table range.now directory.now extent.pages.items) }
    ensures rows { IfOk result (λ extent. extent.rows ≡ count_in table range.now directory.now) }
{
    let mut pages = vec![in alloc; false; count]?;
    let mut rows = 0;
    let start = first_place(alloc, table, &range.lo)?;
    for (place, page) in directory.rows_from(start) {
        if place.table != table || !range.has(&place.key) {
            break;
        }
        mark(&mut pages, *page);
        rows += 1;
    }
    Ok(Extent { pages, rows })
}
