ghost use Rattle.gn_found.specs.Bodies.{RepeatsHaveBodies};
ghost use Rattle.gn_found.specs.Claims.{FoundGraphsLeadBack, FoundPathsDiffer};
ghost use Rattle.gn_found.specs.Filled.{FoundGraphsAreFilledIn, FoundGraphsExist};

use gn_stands::TreeMeanings;

/// In the graph that is found for a tree that keeps the rules, the links of each node, and those to what
/// is given out, lead to nodes that stand before.
pub fn found_graphs_lead_back<N: TreeMeanings>()
    ensures { FoundGraphsLeadBack N.Values }
{}

/// No two nodes of the graph that is found for a tree have the same path.
pub fn found_paths_differ<N: TreeMeanings>()
    ensures { FoundPathsDiffer N.Values }
{}

/// The graph that is found for a tree over given values is the one that has each constant, and the input,
/// by name, with the values filled in.
pub fn found_graphs_are_filled_in<N: TreeMeanings>()
    ensures { FoundGraphsAreFilledIn N.Values }
{}

/// A graph is found for each tree that is of its form and keeps the rules.
pub fn found_graphs_exist()
    ensures { FoundGraphsExist }
{}

/// In a tree that is of its form and keeps the rules, no node that is run alone is a repeat: each repeat has
/// a body.
pub fn repeats_have_bodies()
    ensures { RepeatsHaveBodies }
{}
