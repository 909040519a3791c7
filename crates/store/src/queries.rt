// What the points of a window give.
ghost use Rattle.std.specs.Prelude.{length};
ghost use Rattle.kinds.specs.Kinds.{small};
ghost use Rattle.plain.specs.Windows.{matches};
ghost use Rattle.plain.specs.Refused.{range_refused, frontier_refused};
ghost use Rattle.store.specs.Residuals.{room, sum_of_window, Answered, Listed};

use crate::checks::{check_frontier, check_range};
use crate::residuals::Residuals;
use kinds::Small;
use plain::{Point, Window, count_matches, list_first, sum_window};
use refusals::Refusal;

impl Residuals {
    // The sum of the points in a window, from the earliest key on, and how many they are.
    pub fn sum(&self, bounds: Window<u64>) -> Result<(f32, usize), Refusal>
        ensures { Answered (frontier_refused small bounds.lower bounds.upper room self.now) (sum_of_window bounds.lower bounds.upper self.now) result }
    {
        let points = self.points();
        check_frontier(points, bounds)?;
        Ok(sum_window::<Small>(points, bounds))
    }

    // Fills the list with the first points in a window, and says how many.
    pub fn first(&self, bounds: Window<u64>, list: &mut [Point<u64, f32>]) -> Result<usize, Refusal>
        ensures { Listed bounds.lower bounds.upper self.now list.old result list.new }
    {
        let points = self.points();
        check_frontier(points, bounds)?;
        Ok(list_first::<Small>(points, bounds, list))
    }

    // How many points in a window are not weaker than the threshold.
    pub fn range(&self, bounds: Window<u64>, threshold: f32) -> Result<usize, Refusal>
        ensures { Answered (range_refused small bounds.lower bounds.upper threshold) (length (matches small bounds.lower bounds.upper threshold self.now)) result }
    {
        check_range(bounds, threshold)?;
        Ok(count_matches::<Small>(self.points(), bounds, threshold))
    }
}
