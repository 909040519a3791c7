// What a line of a script says: one command, or nothing; and a text cut into lines or fields.
#![tactic(auto)]

mod command;
mod digits;
mod fields;
mod line;
mod split;
mod theorems;

pub use command::Command;
pub use line::parse;
pub use split::split_once;
pub use theorems::one_reading;
