//! The words that the program is called with, and the command that they say.
#![tactic(auto)]

mod command;
mod counts;
mod laws;
mod settings;

pub use command::{asks_audit, command_in, folder_of};
pub use laws::{
    folders_are_of_commands, settings_are_spelled, settings_in_any_order, settings_in_either_form,
};
