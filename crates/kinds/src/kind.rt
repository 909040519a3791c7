// A kind of points: four questions, answered by functions that stand alone.
ghost use Rattle.std.specs.Prelude.{◌≡◌};
ghost use Rattle.kinds.specs.Meaning.{Meaning, First, Second};

use std::cmp::Ordering;

pub trait Kind {
    type Coordinate: Copy;

    type Weight: Copy;

    // A weight as a node records it.
    type Recorded: Copy;

    // One fixed answer to each question, for all coordinates and weights, fit or not.
    ghost meaning: { Meaning Self.Coordinate Self.Weight Self.Recorded };

    // `Less` if `a` is earlier than `b`.
    fn order(a: Self::Coordinate, b: Self::Coordinate) -> Ordering
        ensures { result ≡ meaning.order a b };

    // `Less` if `a` is stronger than `b`.
    fn strength(a: Self::Weight, b: Self::Weight) -> Ordering
        ensures { result ≡ meaning.strength a b };

    // Whether the two may stand together in a point.
    fn is_fit(at: Self::Coordinate, weight: Self::Weight) -> bool
        ensures { result ≡ meaning.fit at weight };

    // Whether a range may ask for weights not weaker than this one.
    fn is_threshold(weight: Self::Weight) -> bool
        ensures { result ≡ meaning.threshold weight };

    fn record(weight: Self::Weight) -> Self::Recorded
        ensures { result ≡ meaning.recorded weight };

    fn recall(recorded: Self::Recorded) -> Self::Weight
        ensures { result ≡ meaning.recalled recorded };

    // Coordinates are in a total order, and only equal ones tie.
    ghost first: { First meaning };

    // Weights of fit points and fit thresholds are in a total order, and are recorded without loss.
    ghost second: { Second meaning };
}
