// What refuses a call: its tests, in the order in which they run. Each function is its own list of
// tests, though both begin with the same one.
ghost use Rattle.kinds.specs.Kinds.{small};
ghost use Rattle.plain.specs.Refused.{range_refused, frontier_refused};
ghost use Rattle.store.specs.Residuals.{room, Answered};

use kinds::{Kind, Small};
use plain::{Point, Window, is_later};
use refusals::Refusal;

// How many points there is room for, and how many places a frontier has.
pub const ROOM: usize = 256;

pub fn check_range(bounds: Window<u64>, threshold: f32) -> Result<(), Refusal>
    ensures { Answered (range_refused small bounds.lower bounds.upper threshold) tt result }
{
    if is_later::<Small>(bounds.lower, bounds.upper) {
        Err(Refusal::Reversed)
    } else if !Small::is_threshold(threshold) {
        Err(Refusal::Unfit)
    } else {
        Ok(())
    }
}

pub fn check_frontier(points: &[Point<u64, f32>], bounds: Window<u64>) -> Result<(), Refusal>
    ensures { Answered (frontier_refused small bounds.lower bounds.upper room points.now) tt result }
{
    if is_later::<Small>(bounds.lower, bounds.upper) {
        Err(Refusal::Reversed)
    } else if ROOM < points.len() {
        Err(Refusal::Frontier)
    } else {
        Ok(())
    }
}
