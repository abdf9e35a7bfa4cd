ghost use Rattle.gn_lower.specs.Claims.{LoweredGraphsStand};

use gn_stands::TreeMeanings;

/// A graph that is made of a tree that keeps the rules stands for it, whatever values are filled in; no two
/// of its nodes have the same path, and each link leads to a node that stands before.
pub fn lowered_graphs_stand<N: TreeMeanings>()
    ensures { LoweredGraphsStand N.Values }
{}
