// The plain set read from a slice of points, one after the other: the definitions as they run.
ghost use Rattle.std.specs.Prelude.{◌≡◌, ◌&&◌, ◌++◌, length, drop};
ghost use Rattle.std.specs.Float.Ieee.{add};
ghost use Rattle.std.specs.Float.{binary32};
ghost use Rattle.plain.specs.Set.{weight_at};
ghost use Rattle.plain.specs.Windows.{later, inside, reaches, window, matches, firsts, total};

use crate::order::key_order;
use crate::point::{Key, Point};
use crate::window::Window;
use kinds::{Kind, SummedKind};

pub fn is_later<K: Kind>(a: K::Coordinate, b: K::Coordinate) -> bool
    ensures { result ≡ later K.Kind.meaning a b }
{
    K::order(a, b).is_gt()
}

// Whether `at` is not earlier than the lower bound and not later than the upper one.
pub fn is_inside<K: Kind>(bounds: Window<K::Coordinate>, at: K::Coordinate) -> bool
    ensures { result ≡ inside K.Kind.meaning bounds.lower bounds.upper at }
{
    !is_later::<K>(bounds.lower, at) & !is_later::<K>(at, bounds.upper)
}

// Whether `weight` is not weaker than `threshold`.
pub fn is_reaching<K: Kind>(weight: K::Weight, threshold: K::Weight) -> bool
    ensures { result ≡ reaches K.Kind.meaning weight threshold }
{
    K::strength(weight, threshold).is_le()
}

// Whether `p` is in the window and not weaker than the threshold.
pub fn is_match<K: Kind>(
    bounds: Window<K::Coordinate>,
    threshold: K::Weight,
    p: Point<K::Coordinate, K::Weight>,
) -> bool
    ensures { result ≡ (inside K.Kind.meaning bounds.lower bounds.upper p.key.at && reaches K.Kind.meaning p.weight threshold) }
{
    is_inside::<K>(bounds, p.key.at) & is_reaching::<K>(p.weight, threshold)
}

// The weight of a key, if it stands.
pub fn find<K: Kind>(
    points: &[Point<K::Coordinate, K::Weight>],
    key: Key<K::Coordinate>,
) -> Option<K::Weight>
    ensures { result ≡ weight_at K.Kind.meaning key points.now }
{
    points
        .iter()
        .find(|p| key_order::<K>(key, p.key).is_eq())
        .map(|p| p.weight)
}

// The sum so far and one number more.
fn plus<K: SummedKind>(sum: f32, weight: K::Weight) -> f32
    ensures { result ≡ add binary32 sum (K.number weight) }
{
    sum + K::number_of(weight)
}

// The sum of the points in a window, in their order, and how many they are.
pub fn sum_window<K: SummedKind>(
    points: &[Point<K::Coordinate, K::Weight>],
    bounds: Window<K::Coordinate>,
) -> (f32, usize)
    ensures { result ≡ (total K.number (window K.Kind.meaning bounds.lower bounds.upper points.now), length (window K.Kind.meaning bounds.lower bounds.upper points.now)) }
{
    // A loop and no chain: a fold over the points in the window, of the sum and the count together,
    // takes half as much time again.
    let mut sum = 0.0;
    let mut count = 0;
    for p in points {
        if is_inside::<K>(bounds, p.key.at) {
            sum = plus::<K>(sum, p.weight);
            count += 1;
        }
    }
    (sum, count)
}

// How many points match a window with a threshold.
pub fn count_matches<K: Kind>(
    points: &[Point<K::Coordinate, K::Weight>],
    bounds: Window<K::Coordinate>,
    threshold: K::Weight,
) -> usize
    ensures { result ≡ length (matches K.Kind.meaning bounds.lower bounds.upper threshold points.now) }
{
    points
        .iter()
        .filter(|p| is_match::<K>(bounds, threshold, **p))
        .count()
}

// Fills the list with the first points in a window, as many as it has places, and says how many.
pub fn list_first<K: Kind>(
    points: &[Point<K::Coordinate, K::Weight>],
    bounds: Window<K::Coordinate>,
    list: &mut [Point<K::Coordinate, K::Weight>],
) -> usize
    ensures count { result ≡ length (firsts K.Kind.meaning (length list.old) bounds.lower bounds.upper points.now) }
    ensures listed { list.new ≡ firsts K.Kind.meaning (length list.old) bounds.lower bounds.upper points.now ++ drop result list.old }
{
    let mut count = 0;
    // Tried: a `for` over the points filtered and taken gets no proof in a function with a kind.
    for p in points {
        if count == list.len() {
            return count;
        }
        if is_inside::<K>(bounds, p.key.at) {
            list[count] = *p;
            count += 1;
        }
    }
    count
}
