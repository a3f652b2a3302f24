//! Rows on pages, with a directory of them by their places, and the pages by their free bytes.
#![tactic(auto)]

mod directory;
mod error;
mod halving;
mod judge;
mod listing;
mod page;
mod seats;
mod space;

pub use directory::{Directory, Extent, extent_of, next_place};
pub use error::ListErr;
pub use halving::{Half, put_places, split_page};
pub use judge::{AnyRow, RowJudge};
pub use listing::list_page;
pub use page::{Replaced, load_page, load_row, new_page, put_on, replace_on, row_of};
pub use seats::{Seat, few_seats};
pub use space::Space;
