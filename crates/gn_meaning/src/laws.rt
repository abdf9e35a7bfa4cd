ghost use Rattle.gn_tree.specs.NodeKinds.{Kind};
ghost use Rattle.gn_node_set.specs.Meanings.{Rows};
ghost use Rattle.gn_meaning.specs.Claims.{LinksLead, PathsNameOneRun, SitesHaveOneOrigin, MeaningsAreOne, ValuesComeFromOrigins, WantedSitesHaveOneValue, RowsThatFitGiveAll, ReportsAreOne};

/// What the kinds of nodes do, for contracts alone: the type of values, and the rows over it. A
/// library of kinds gives these beside its code.
pub trait KindRows {
    ghost Values: { Type 0 };

    ghost rows: { Rows Kind Values };
}

/// A link for which the rules find what it carries leads from a site.
pub fn links_lead()
    ensures { LinksLead }
{}

/// No path names two nodes, and the path of a run is that of its node.
pub fn paths_name_one_run()
    ensures { PathsNameOneRun }
{}

/// In a tree that keeps the rules, each output that a node declares, each input of a list and each
/// item of a zone goes back, through groups and turns, to one constant, input of the tree or output
/// of a run; so a walk to it ends.
pub fn sites_have_one_origin()
    ensures { SitesHaveOneOrigin }
{}

/// No site has two values, and no run chooses two things or ends in two ways.
pub fn meanings_are_one<K: KindRows>()
    ensures { MeaningsAreOne K.rows }
{}

/// The value of a site is that of its origin after the conversions on the way; where one of the two
/// stands, the other does.
pub fn values_come_from_origins<K: KindRows>()
    ensures { ValuesComeFromOrigins K.rows }
{}

/// Every wanted site of a tree that keeps the rules has exactly one value, where the rows give an
/// output for each that a node declares: it is there, and on each site that is there stands one
/// value, and the run that it comes from ends.
pub fn wanted_sites_have_one_value<K: KindRows>()
    ensures { WantedSitesHaveOneValue K.rows }
{}

/// Rows that give, whatever a node reads, as many outputs as the table of kinds has, a value for each
/// repeat to turn by and an index to each switch, give all that the law of one value asks for, in each
/// tree that keeps the rules.
pub fn rows_that_fit_give_all<K: KindRows>()
    ensures { RowsThatFitGiveAll K.rows }
{}

/// A tree has at most one list of demanded paths in path order, and one list of warnings beside it.
pub fn reports_are_one<K: KindRows>()
    ensures { ReportsAreOne K.rows }
{}
