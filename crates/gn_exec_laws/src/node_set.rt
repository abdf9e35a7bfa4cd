ghost use Rattle.std.specs.Prelude.{Bool};
ghost use Rattle.gn_node_set.specs.Meanings.{Meanings};
ghost use Rattle.gn_exec_laws.specs.Fits.{IsLawful, SharedStay};
ghost use Rattle.gn_exec_laws.specs.Claims.{SharedValuesArePlain};

use crate::laws::NodeMeanings;
use std::marker::PhantomData;

/// A set of nodes that runs, as contracts see it: the types of its kinds and values, what these stand
/// for in the meanings of its nodes, and which sorts of values can be shared.
///
/// It has its own ghost types; `MeaningsOf` hands them to the laws, which speak of `NodeMeanings`.
pub trait NodeSet {
    /// The kind of a node.
    type Kind;

    /// What a node hands to another.
    type Value;

    ghost Kinds: { Type 0 };

    ghost Values: { Type 0 };

    ghost Sorts: { Type 0 };

    ghost Sources: { Type 0 };

    ghost meanings: { Meanings Kinds Values Sorts Sources };

    ghost lawful: { IsLawful meanings };

    ghost kind_of: { Self.Kind → Kinds };

    ghost content: { Self.Value → Values };

    ghost shareable: { Sorts → Bool };

    ghost shared_stay: { SharedStay meanings shareable };
}

/// The meanings of a set of nodes that runs, for the laws: `runs_end_well::<MeaningsOf<N>>()` gives
/// `RunsEndWell N.meanings`.
pub struct MeaningsOf<N> {
    of: PhantomData<N>,
}

impl<N: NodeSet> NodeMeanings for MeaningsOf<N> {
    ghost Kinds = { N.Kinds };

    ghost Values = { N.Values };

    ghost Sorts = { N.Sorts };

    ghost Sources = { N.Sources };

    ghost meanings = { N.meanings };

    ghost lawful = { N.lawful };
}

/// Over every list of events: a link that leads to a source whose sort can be shared has no
/// conversions, neither its own nor those of the zones that it leads through.
pub fn shared_values_are_plain<N: NodeSet>()
    ensures { SharedValuesArePlain N.meanings N.shareable }
{}
