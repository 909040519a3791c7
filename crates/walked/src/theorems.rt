// What is known of the walks over every tree. Each function computes nothing: it is called for its
// promise.
ghost use Rattle.walked.specs.Theorems.{BoundsExample, WalksHold, WholesHold};

use kinds::Kind;

// Over a tree the walks list just what matches, and take few nodes.
pub fn walks_hold<K: Kind>()
    ensures { WalksHold K.Kind.meaning }
{}

// So they do over a tree or none.
pub fn wholes_hold<K: Kind>()
    ensures { WholesHold K.Kind.meaning }
{}

// The bounds for 16,384 points.
pub fn bounds_example()
    ensures { BoundsExample }
{}
