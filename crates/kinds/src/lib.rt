// What the index asks of points: which of two coordinates is earlier, which of two weights is
// stronger, and which are fit. Four kinds answer.
#![tactic(auto)]

mod code;
mod kind;
mod residual;
mod residuals;
mod station;
mod summed;
mod validity;
mod weight;

pub use code::Code;
pub use kind::Kind;
pub use residual::Residual;
pub use residuals::{Large, Residuals, Small};
pub use station::Station;
pub use summed::SummedKind;
pub use validity::Validity;
