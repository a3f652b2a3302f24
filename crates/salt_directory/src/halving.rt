//! A page is split, so that rows of neighbouring keys stand together.

ghost use Rattle.salt_bytes.specs.Page.{TableRow, take_table_row};
ghost use Rattle.salt_directory.specs.Halves.{HaveGone, IsHalved, place_of_row, placed_on};
ghost use Rattle.std.specs.Prelude.{IfOk, IfSome, IsTrue, OnOk, Some, [], true, ◌++◌, ◌∷◌, ◌≡◌};

use crate::directory::Directory;
use crate::page::free_bytes;
use salt_codec::take::take_value;
use salt_model::Place;
use salt_pages::{Page, PageErr};
use std::alloc::{AllocError, Global};

/// What a page that is split gives away.
#[derive(Drop)]
pub struct Half {
    /// The rows from about its middle on, in order of places, on a page of their own.
    pub page: Page,
    /// Their places.
    pub places: Vec<Place>,
    /// How many bytes are free on their page.
    pub free: u16,
    /// How many are free on the page that was split.
    pub left: u16,
}

/// How many places of a page's rows tell about where its middle is.
const SEEN: usize = 64;

/// The place of a row that is spelled behind its table's number; none is given where no row is spelled, as where memory runs out.
fn place_in(alloc: Global, spelled: &[u8]) -> Result<Place, AllocError>
    ensures { IfOk result (λ place. (r : TableRow) → take_table_row true spelled.now ≡ Some (r, []) → place_of_row r ≡ place) }
{
    let [high, low, _values, key @ ..] = spelled else {
        return Err(AllocError);
    };
    let Ok((key, _rest)) = take_value(alloc, true, key) else {
        return Err(AllocError);
    };
    Ok(Place {
        table: u16::from_be_bytes([*high, *low]),
        key,
    })
}

/// The places of some of a page's rows, in order: of each row where they are few.
fn some_places(alloc: Global, page: &Page) -> Result<Vec<Place>, AllocError> {
    let step = 1 + page.count() / SEEN;
    let mut places = Vec::with_capacity(alloc, SEEN)?;
    for i in 0..page.count() {
        if i % step == 0 {
            places.push(place_in(alloc, page.spelled(i))?)?;
        }
    }
    places.as_mut_slice().sort_unstable();
    Ok(places)
}

/// Puts a row of another page behind the others, where it has room. Whether it had.
fn append_if_room(page: &mut Page, spelled: &[u8]) -> Result<bool, AllocError>
    requires { (r : TableRow) × take_table_row true spelled.now ≡ Some (r, []) }
    ensures { IfOk result (λ put. IsTrue put → (r : TableRow) → take_table_row true spelled.now ≡ Some (r, []) → page.new ≡ page.old ++ r ∷ []) }
{
    match page.append(spelled) {
        Ok(()) => Ok(true),
        Err(PageErr::Full) => Ok(false),
        Err(PageErr::Memory) => Err(AllocError),
    }
}

/// The rows of a page on two pages: those below a place, and those from there on with their places.
#[derive(Drop)]
struct Parts {
    lower: Page,
    upper: Page,
    places: Vec<Place>,
}

/// The parts of a page at a place; none where a row has no room on the page of its part.
fn part_rows(alloc: Global, page: &Page, middle: &Place) -> Result<Option<Parts>, AllocError>
    ensures { IfOk result (λ parts. IfSome parts (λ p. HaveGone p.places.items page.now [] p.lower p.upper)) }
{
    let mut lower = Page::new(alloc)?;
    let mut upper = Page::new(alloc)?;
    let mut places = Vec::new(alloc);
    for i in 0..page.count() {
        let spelled = page.spelled(i);
        let place = place_in(alloc, spelled)?;
        if place < *middle {
            if !append_if_room(&mut lower, spelled)? {
                return Ok(None);
            }
        } else if append_if_room(&mut upper, spelled)? {
            places.push(place)?;
        } else {
            return Ok(None);
        }
    }
    Ok(Some(Parts {
        lower,
        upper,
        places,
    }))
}

/// The rows of a page from about its middle on, in order of places, go to a new page. Both are built anew, since a row that is taken out of a
/// page moves all that stand behind it.
pub fn split_page(alloc: Global, page: &mut Page) -> Result<Half, AllocError>
    ensures { IfOk result (IsHalved page.old page.new) }
{
    let some = some_places(alloc, page)?;
    let parts = match some.as_slice().get(some.len() / 2) {
        Some(middle) => part_rows(alloc, page, middle)?,
        None => None,
    };
    let (upper, places) = match parts {
        Some(
            Parts {
                lower,
                upper,
                places,
            },
        ) => {
            *page = lower;
            (upper, places)
        }
        None => (Page::new(alloc)?, Vec::new(alloc)),
    };
    let free = free_bytes(&upper);
    let left = free_bytes(page);
    Ok(Half {
        page: upper,
        places,
        free,
        left,
    })
}

/// Rows at these places come to a page.
pub fn put_places(
    directory: &mut Directory,
    places: Vec<Place>,
    page: u32,
) -> Result<(), AllocError>
    ensures { OnOk result (directory.new ≡ placed_on page places.items directory.old) }
{
    for place in places {
        directory.insert(place, page)?;
    }
    Ok(())
}
