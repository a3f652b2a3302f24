//! Rows as they are spelled, in order of their keys, of which only what is asked for is made.
#![tactic(auto)]

mod among;
mod key;
mod loaded;
mod loading;
mod meets;
mod order;
mod spelled;
mod view;

pub use loaded::Loaded;
pub use loading::Loading;
pub use view::LoadedView;
