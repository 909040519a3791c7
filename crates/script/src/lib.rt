// A script of lines, run on residuals of kind small, and what it prints.
#![tactic(auto)]

mod changes;
mod commands;
mod lists;
mod queries;
mod runs;
mod session;
mod text;
mod theorems;

pub use runs::report;
pub use theorems::{one_report, patterns_read_back};
