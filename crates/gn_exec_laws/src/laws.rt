ghost use Rattle.gn_node_set.specs.Meanings.{Meanings};
ghost use Rattle.gn_exec_laws.specs.Fits.{IsLawful};
ghost use Rattle.gn_exec_laws.specs.Claims.{NodesAreTakenOnce, WorldsOnlyGrow, WorldsFit, ReadyNodesCanRun, TagsOfSetOutputsAgree, SetOutputsAreRight, UsedNodesAreDemanded, UnfinishedNodesWait, RunsEndWell, RunsCanEnd, UsesOnlyNarrow, GraphsHaveOneSolution, DemandsCanBeListed, PathsNameOneNode, ImportsAreServedOnce, EventsAreBounded, WorldsComeOfEvents, ZoneOutputsLeadOn, TakesAreCounted, DemandedImportsAreServed};

/// What the kinds of a set of nodes do, for contracts alone: the types of kinds, values, sorts of
/// values and sources of sampled fields, the meanings over these, and a proof that the meanings keep
/// the rules of `IsLawful`. A set of nodes that runs gives these beside its code.
pub trait NodeMeanings {
    ghost Kinds: { Type 0 };

    ghost Values: { Type 0 };

    ghost Sorts: { Type 0 };

    ghost Sources: { Type 0 };

    ghost meanings: { Meanings Kinds Values Sorts Sources };

    ghost lawful: { IsLawful meanings };
}

/// Over every list of events: each node is taken at most once, and finished at most once, by the
/// worker that took it.
pub fn nodes_are_taken_once<N: NodeMeanings>()
    ensures { NodesAreTakenOnce N.meanings }
{}

/// Over every list of events: an output is set at most once, since what is set stays as it is, as do
/// the numbers of nodes, opened zones and answers; and what a run of a taken node gives doesn't change.
pub fn worlds_only_grow<N: NodeMeanings>()
    ensures { WorldsOnlyGrow N.meanings }
{}

/// Over every list of events: the tags of all outputs that are set agree, and name only nodes that
/// are finished.
pub fn tags_of_set_outputs_agree<N: NodeMeanings>()
    ensures { TagsOfSetOutputsAgree N.meanings }
{}

/// Over every list of events: the nodes of the graph, what is set and what is read fit.
pub fn worlds_fit<N: NodeMeanings>()
    ensures { WorldsFit N.meanings }
{}

/// Over every list of events: what a worker takes keeps the conditions of a run.
pub fn ready_nodes_can_run<N: NodeMeanings>()
    ensures { ReadyNodesCanRun N.meanings }
{}

/// Over every list of events: a used node may be used, and a node that may no longer be used never is.
pub fn uses_only_narrow<N: NodeMeanings>()
    ensures { UsesOnlyNarrow N.meanings }
{}

/// Over every run on files: an output that is set is what the equations of the nodes give, a link
/// whose value is set has the value that they give it, and a node that is finished has the warnings
/// of its row.
pub fn set_outputs_are_right<N: NodeMeanings>()
    ensures { SetOutputsAreRight N.meanings }
{}

/// Over every run on files: a node that is used is demanded, and one that was taken is used.
pub fn used_nodes_are_demanded<N: NodeMeanings>()
    ensures { UsedNodesAreDemanded N.meanings }
{}

/// Over every run on files: a demanded node that isn't finished is taken, or ready, or an import
/// without an answer, or has an input that isn't set, or is behind a zone that isn't opened or a
/// switch whose condition isn't set.
pub fn unfinished_nodes_wait<N: NodeMeanings>()
    ensures { UnfinishedNodesWait N.meanings }
{}

/// Where nothing may happen any more and no worker has refused, all that is demanded is set, the
/// nodes that were taken are just the demanded ones, as are those that are finished, what may be
/// used is used, and there are two events for each demanded node and one more for each import.
pub fn runs_end_well<N: NodeMeanings>()
    ensures { RunsEndWell N.meanings }
{}

/// A run on files without refusals can go on until nothing may happen any more, so that no order of
/// events gets stuck.
pub fn runs_can_end<N: NodeMeanings>()
    ensures { RunsCanEnd N.meanings }
{}

/// On any files, the equations of the nodes of a graph that an executor may begin with have one
/// solution.
pub fn graphs_have_one_solution<N: NodeMeanings>()
    ensures { GraphsHaveOneSolution N.meanings }
{}

/// The nodes that a solution demands are the members of a list, each once.
pub fn demands_can_be_listed<N: NodeMeanings>()
    ensures { DemandsCanBeListed N.meanings }
{}

/// No path names two nodes of a graph with its zones opened.
pub fn paths_name_one_node<N: NodeMeanings>()
    ensures { PathsNameOneNode N.meanings }
{}

/// Over every list of events: no import is served twice, and what is served is a used import.
pub fn imports_are_served_once<N: NodeMeanings>()
    ensures { ImportsAreServedOnce N.meanings }
{}

/// Over every list of events: there are at most three events for each node of the graph by then, and
/// 64 refusals.
pub fn events_are_bounded<N: NodeMeanings>()
    ensures { EventsAreBounded N.meanings }
{}

/// Over every list of events: what is set, opened or warned came with the finish of a node, which left
/// what the node's run gives by what is read now; what is answered came with a serve; and a node warns
/// under its own path.
pub fn worlds_come_of_events<N: NodeMeanings>()
    ensures { WorldsComeOfEvents N.meanings }
{}

/// Over every list of events: an output of an opened zone leads where its result link leads by now,
/// and any other source leads to itself.
pub fn zone_outputs_lead_on<N: NodeMeanings>()
    ensures { ZoneOutputsLeadOn N.meanings }
{}

/// Over every run on files: no more nodes are taken than are demanded, and where the run is over as
/// many.
pub fn takes_are_counted<N: NodeMeanings>()
    ensures { TakesAreCounted N.meanings }
{}

/// Over every run on files: each node that was served is a demanded import, and where the run is over
/// each demanded import was served.
pub fn demanded_imports_are_served<N: NodeMeanings>()
    ensures { DemandedImportsAreServed N.meanings }
{}
