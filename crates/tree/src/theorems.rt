// What is known of every tree that stands in a table. Each function computes nothing: it is called
// for its promise.
ghost use Rattle.tree.specs.Theorems.{FewNodes, RulesHold};

use kinds::Kind;

// n points stand on at most 2n - 1 nodes, and no tree is higher than the logarithm of n.
pub fn few_nodes<K: Kind>()
    ensures { FewNodes K.Kind.meaning }
{}

// What changes keep is just what the rules of the tree say.
pub fn rules_hold<K: Kind>()
    ensures { RulesHold K.Kind.meaning }
{}
