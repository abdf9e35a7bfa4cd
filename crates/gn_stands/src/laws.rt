ghost use Rattle.gn_tree.specs.NodeKinds.{Kind};
ghost use Rattle.gn_node_set.specs.Meanings.{Meanings};
ghost use Rattle.gn_stands.specs.Order.{RanksOrderBack};
ghost use Rattle.gn_stands.specs.Claims.{StandingAgrees, FoundGraphsStand, StandingPathsArePlain, FoundZonesOpen};

/// What the kinds of nodes of trees do, for contracts alone: the types of values, of their sorts and of
/// the sources of sampled fields, and the meanings over these.
pub trait TreeMeanings {
    ghost Values: { Type 0 };

    ghost Sorts: { Type 0 };

    ghost Sources: { Type 0 };

    ghost meanings: { Meanings Kind Values Sorts Sources };
}

/// Where a graph stands for a tree that keeps the rules, each solution of its equations gives what the
/// tree means: at each site the value of the link that carries it, the same demanded nodes, and the same
/// warnings in the same order.
pub fn standing_agrees<N: TreeMeanings>()
    ensures { StandingAgrees N.meanings }
{}

/// The graph that is found for a tree, with its nodes in the order of their ranks and those of a group
/// in the place of the group's node, stands for the tree.
pub fn found_graphs_stand<N: TreeMeanings>()
    ensures { FoundGraphsStand N.Values }
{}

/// Where each zone of a tree that keeps the rules opens what is found for its kind and its path, which
/// are all that it has of the tree, its zones open for their turns.
pub fn found_zones_open<N: TreeMeanings>()
    ensures { FoundZonesOpen N.meanings }
{}

/// In the order by rank each node is there once, behind all nodes that it leads to, where no node leads
/// back to itself.
pub fn ranks_order_back()
    ensures { RanksOrderBack }
{}

/// The paths of the nodes of a graph that stands for a tree lead into no turn of a zone, and each ends
/// in a node.
pub fn standing_paths_are_plain<N: TreeMeanings>()
    ensures { StandingPathsArePlain N.Values }
{}
