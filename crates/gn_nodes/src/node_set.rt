ghost use Rattle.std.specs.Prelude.{◌≡◌, ℕ, ◌+◌, ◌-◌, ◌^◌, ◌<◌, ◌≤◌, Bool, true, false, All, map, option_map, IfOk, Some, IsSome, is_some};
ghost use Rattle.gn_node_set.specs.Meanings as meant;
ghost use Rattle.gn_node_set.specs.Meanings.{Meanings, converted};
ghost use Rattle.gn_exec_laws.specs.Fits.{IsLawful, SharedStay, CanRun, shifted};
ghost use Rattle.gn_uses.specs.Nodes.{role_of, choice_of};
ghost use Rattle.gn_nodes.specs.Values.{answer_of, done_of};
ghost use Rattle.gn_nodes.specs.Calls.{OpensAs, MayBeFirst, NoCopy, choice_as, chosen_as};

use crate::values::{Answer, Done, Opened};
use gn_exec_laws::NodeSet as Laws;
use gn_lazy::Path;
use gn_memory::Memory;
use gn_shared::Meter;
use gn_uses::{Choice, Role};
use std::marker::PhantomData;
use std::thread::Threads;

/// A set of nodes that runs: what each kind does, as `meanings` say it.
///
/// No value of the type changes its meanings. Every refusal is want of memory. Values of a sort that
/// can't be shared are sole, and a link doesn't convert a value of a sort that can.
pub trait NodeSet: Send + Sync {
    /// The kind of a node.
    type Kind: Send + Drop;

    /// What a node hands to another.
    type Value: Send + Drop;

    ghost Kinds: { Type 0 };

    ghost Values: { Type 0 };

    ghost Sorts: { Type 0 };

    ghost Sources: { Type 0 };

    ghost meanings: { Meanings Kinds Values Sorts Sources };

    ghost kind_of: { Self.Kind → Kinds };

    ghost content: { Self.Value → Values };

    ghost shareable: { Sorts → Bool };

    ghost references: { Kinds → Bool };

    ghost sole: { Self.Value → Bool };

    ghost lawful: { IsLawful meanings };

    ghost shared_stay: { SharedStay meanings shareable };

    ghost others_are_sole: { (value : Self.Value) → shareable (meanings.sort (content value)) ≡ false → sole value ≡ true };

    /// The role of nodes of a kind.
    fn role(&self, kind: &Self::Kind) -> Role
        ensures { role_of result ≡ meanings.rows.role (kind_of kind.now) };

    /// The file that an import reads.
    ///
    /// Condition: the kind is that of an import.
    fn file<'a>(&self, kind: &'a Self::Kind) -> &'a str
        requires { meanings.rows.role (kind_of kind.now) ≡ meant.File }
        ensures { result.now ≡ meanings.rows.file (kind_of kind.now) };

    /// The same value once more, also where it is refused.
    fn second<L>(
        &self,
        value: &mut Self::Value,
        meter: &mut Meter<L>,
    ) -> Result<Self::Value, Memory>
        ensures same { content value.new ≡ content value.old }
        ensures second { IfOk result (λ other. content other ≡ content value.old) }
        ensures runs { meter.new.runs ≡ meter.old.runs }
        ensures copies { shareable (meanings.sort (content value.old)) ≡ false → NoCopy meter.old meter.new };

    /// What a switch reads behind its condition.
    ///
    /// Condition: the kind is that of a switch, and the condition is of the sort of its first input.
    fn choose(&self, kind: &Self::Kind, condition: &Self::Value) -> Result<Choice, Memory>
        requires switch { meanings.rows.role (kind_of kind.now) ≡ meant.Switch }
        requires first { MayBeFirst meanings (kind_of kind.now) (meanings.sort (content condition.now)) }
        ensures { IfOk result (λ choice. choice_of (Some choice) ≡ meanings.rows.choice (kind_of kind.now) (content condition.now)) };

    /// The kind once more.
    fn kind(&self, kind: &Self::Kind) -> Result<Self::Kind, Memory>
        ensures { IfOk result (λ other. kind_of other ≡ kind_of kind.now) };

    /// The value, converted to each of these kinds in turn.
    ///
    /// Condition: a value of its sort can be so converted.
    fn through(&self, value: Self::Value, kinds: &[u8]) -> Result<Self::Value, Memory>
        requires { IsSome (shifted meanings (meanings.sort (content value)) kinds.now) }
        ensures converts { IfOk result (λ other. content other ≡ converted meanings.rows (content value) kinds.now) }
        ensures sole { sole value ≡ true → IfOk result (λ other. sole other ≡ true) };

    /// What a zone adds to the graph, with its nodes numbered from a base on.
    ///
    /// Condition: the kind is that of a zone, and `base` is at most 2^60.
    fn open(
        &self,
        path: &Path,
        kind: &Self::Kind,
        base: u64,
        count: &Self::Value,
    ) -> Result<Opened<Self::Kind, Self::Value>, Memory>
        requires zone { meanings.rows.role (kind_of kind.now) ≡ meant.Zone }
        requires base { base ≤ 2 ^ 60 }
        ensures { IfOk result (λ opened. OpensAs meanings kind_of content path.now.steps.items kind.now base count.now opened) };

    /// Runs the node at a path, and notes the run also where it is refused.
    ///
    /// Condition: the inputs and the answer are what a node of the kind may be given.
    fn run<R: Threads + Sync, L>(
        &self,
        rt: &R,
        path: &Path,
        kind: &Self::Kind,
        inputs: Vec<Self::Value>,
        answer: Option<Answer>,
        meter: &mut Meter<L>,
    ) -> Result<Done<Self::Value>, Memory>
        requires can { CanRun meanings path.now.steps.items (kind_of kind.now) (map content inputs.items) (option_map answer_of answer) }
        requires runs { meter.old.runs < 2 ^ 63 - 1 }
        ensures row { IfOk result (λ done. done_of content done ≡ meanings.rows.row path.now.steps.items (kind_of kind.now) (map content inputs.items) (option_map answer_of answer)) }
        ensures runs { meter.new.runs ≡ meter.old.runs + 1 }
        ensures copies { references (kind_of kind.now) ≡ false → All (λ input. sole input ≡ true) inputs.items → NoCopy meter.old meter.new }
        ensures sole { references (kind_of kind.now) ≡ false → All (λ input. sole input ≡ true) inputs.items → IfOk result (λ done. All (λ output. sole output ≡ true) done.outputs.items) };
}

/// The laws of a set of nodes that runs: `runs_end_well::<MeaningsOf<LawsOf<N>>>()` gives
/// `RunsEndWell N.meanings`.
pub struct LawsOf<N> {
    of: PhantomData<N>,
}

impl<N: NodeSet> Laws for LawsOf<N> {
    type Kind = N::Kind;

    type Value = N::Value;

    ghost Kinds = { N.Kinds };

    ghost Values = { N.Values };

    ghost Sorts = { N.Sorts };

    ghost Sources = { N.Sources };

    ghost meanings = { N.meanings };

    ghost lawful = { N.lawful };

    ghost kind_of = { N.kind_of };

    ghost content = { N.content };

    ghost shareable = { N.shareable };

    ghost shared_stay = { N.shared_stay };
}

/// The value once more, as a link carries it that converts it to each of these kinds in turn. The
/// value itself stays the same.
///
/// Condition: a value of its sort can be so converted.
pub fn handed<N: NodeSet, L>(
    nodes: &N,
    value: &mut N::Value,
    kinds: &[u8],
    meter: &mut Meter<L>,
) -> Result<N::Value, Memory>
    requires { IsSome (shifted N.meanings (N.meanings.sort (N.content value.old)) kinds.now) }
    ensures same { N.content value.new ≡ N.content value.old }
    ensures carries { IfOk result (λ other. N.content other ≡ converted N.meanings.rows (N.content value.old) kinds.now) }
    ensures runs { meter.new.runs ≡ meter.old.runs }
    ensures copies { N.shareable (N.meanings.sort (N.content value.old)) ≡ false → NoCopy meter.old meter.new }
{
    let second = nodes.second(value, meter)?;
    nodes.through(second, kinds)
}

/// What a node chooses by its first value. A switch chooses as its kind says, any other node nothing.
///
/// Condition: the first value of a switch is of the sort of its first input.
pub fn chosen<N: NodeSet>(
    nodes: &N,
    kind: &N::Kind,
    first: &N::Value,
) -> Result<Option<Choice>, Memory>
    requires { N.meanings.rows.role (N.kind_of kind.now) ≡ meant.Switch → MayBeFirst N.meanings (N.kind_of kind.now) (N.meanings.sort (N.content first.now)) }
    ensures choice { IfOk result (λ made. choice_of made ≡ choice_as (N.meanings.rows.role (N.kind_of kind.now)) true (N.meanings.rows.choice (N.kind_of kind.now) (N.content first.now))) }
    ensures has_chosen { IfOk result (λ made. is_some made ≡ chosen_as (N.meanings.rows.role (N.kind_of kind.now)) true) }
{
    if nodes.role(kind) != Role::Switch {
        return Ok(None);
    }
    Ok(Some(nodes.choose(kind, first)?))
}
