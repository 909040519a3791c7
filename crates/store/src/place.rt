// Where a key stands, or where its point would go.
ghost use Rattle.std.specs.Prelude.{MatchResult};
ghost use Rattle.kinds.specs.Kinds.{small};
ghost use Rattle.plain.specs.Set.{Rising};
ghost use Rattle.store.specs.Places.{StandsAt, GoesAt};

use kinds::Small;
use plain::{Key, Point, key_order};

pub(crate) fn place(points: &[Point<u64, f32>], key: Key<u64>) -> Result<usize, usize>
    requires { Rising small points.now }
    ensures { MatchResult result (StandsAt key points.now) (GoesAt key points.now) }
{
    // The bound grows from the front, so that an early key takes few comparisons; by four, since each
    // step is one more for a late key.
    let mut bound = 1;
    while bound < points.len() && key_order::<Small>(points[bound - 1].key, key).is_lt() {
        bound *= 4;
    }
    let near = &points[..bound.min(points.len())];
    near.binary_search_by(|p| key_order::<Small>(p.key, key))
}
