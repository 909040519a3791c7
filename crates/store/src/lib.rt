// Residuals of kind small, kept in key order in one vector.
#![tactic(auto)]

mod checks;
mod failure;
mod place;
mod queries;
mod residuals;

pub use failure::Failure;
pub use residuals::Residuals;
