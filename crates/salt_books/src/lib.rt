//! The books of an engine: the open units, how many have begun, and what is known of the database; and what is to come next,
//! as those tell that choose it.
#![tactic(auto)]

mod asking;
mod bindings;
mod blocks;
mod books;
mod called;
mod coming;
mod conts;
mod ends;
mod going;
mod held;
mod ids;
mod kinds;
mod known;
mod laws;
mod looks;
mod moves;
mod openings;
mod places;
mod tables;
mod texts;
mod turns;

pub use asking::{Asking, lent, unboxed};
pub use bindings::{values_kept, vars_at_call, vars_at_cont};
pub use books::Books;
pub use called::CalledNames;
pub use coming::Coming;
pub use held::Held;
pub use kinds::{cause_of, family_of, program_begun, program_of};
pub use known::{Defined, Known};
pub use laws::{later_units_stand_at_their_parts, units_can_move};
pub use texts::{program_text, table_text};
