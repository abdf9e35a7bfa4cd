ghost use Rattle.std.specs.Prelude.{◌≡◌, ◌<◌, ◌++◌, ◌∷◌, [], ℕ, List, map, length, IfOk, IsSome, Some, true, slice_get, slice_index_or};
ghost use Rattle.gn_node_set.specs.Meanings.{Has, converted};
ghost use Rattle.gn_exec_laws.specs.Fits.{shifted};
ghost use Rattle.gn_readers.specs.declared.place.Reader.{Reader as ReaderMeant};
ghost use Rattle.gn_readers.specs.Readers.{AreReaders, LeadsTo};
ghost use Rattle.gn_delivery.specs.Plans.{IsPlain, AllPlain, AreOf, listed, ChoosesBy, MayChooseBy, CanRead, IsPlanFor};

use gn_lazy::{Graph, Link};
use gn_memory::Memory;
use gn_nodes::{Choice, NodeSet, chosen, handed};
use gn_pending::empty_slots;
use gn_readers::{Place, Reader, link_at};
use gn_shared::Meter;
use std::alloc::Global;

/// A value that was made once more, and where it goes.
#[derive(Drop)]
pub struct Second<V> {
    /// Where it goes.
    pub place: Place,
    /// The value, as the link at the place carries it.
    pub value: V,
}

/// What a switch chooses.
#[derive(Clone, Copy, Debug, PartialEq, Eq)]
pub struct Chosen {
    /// The switch, by its number.
    pub node: usize,
    /// What it chooses.
    pub choice: Choice,
}

/// What is to be done with the outputs of a node. It is made before anything is changed, so that a
/// refusal changes nothing.
#[derive(Drop)]
pub struct Plan<V> {
    /// The values of all readers but those of `itself`.
    pub seconds: Vec<Second<V>>,
    /// Of each output the place of the reader that gets the output itself, if one does.
    pub itself: Vec<Option<Place>>,
    /// What the switches choose that get their conditions.
    pub choices: Vec<Chosen>,
}

/// Whether the link at a place converts nothing.
fn converts_nothing<K: Drop>(graph: &Graph<K>, place: Place) -> bool
    ensures { result ≡ true → IsPlain graph.now place }
{
    match link_at(graph, place) {
        Some(link) => link.through.is_empty(),
        None => false,
    }
}

/// The reader gets its output itself, if its link converts nothing.
fn note_plain<K: Drop>(graph: &Graph<K>, itself: &mut Vec<Option<Place>>, reader: &Reader)
    ensures plain { AllPlain graph.now itself.old.items → AllPlain graph.now itself.new.items }
    ensures of { (rs : List ReaderMeant) → AreOf graph.now rs itself.old.items → AreOf graph.now (rs ++ reader.now ∷ []) itself.new.items }
{
    if itself.len() <= reader.output || !converts_nothing(graph, reader.place) {
        return;
    }
    itself[reader.output] = Some(reader.place);
}

/// Of each output the place of the last reader whose link converts nothing.
fn last_plain<K: Drop>(
    alloc: Global,
    graph: &Graph<K>,
    readers: &[Reader],
    outputs: usize,
) -> Result<Vec<Option<Place>>, Memory>
    ensures plain { IfOk result (λ itself. AllPlain graph.now itself.items) }
    ensures of { IfOk result (λ itself. AreOf graph.now readers.now itself.items) }
{
    let mut itself = empty_slots(alloc, outputs)?;
    for reader in readers {
        note_plain(graph, &mut itself, reader);
    }
    Ok(itself)
}

/// What a switch chooses by a value that goes to a place, if that is the place of its condition.
///
/// Condition: the value is of the sort of the condition.
fn chosen_at<N: NodeSet>(
    nodes: &N,
    graph: &Graph<N::Kind>,
    place: Place,
    condition: &N::Value,
) -> Result<Option<Chosen>, Memory>
    requires { MayChooseBy N.meanings N.kind_of graph.now place (N.meanings.sort (N.content condition.now)) }
    ensures { IfOk result (λ made. ChoosesBy N.meanings N.kind_of graph.now place (N.content condition.now) made) }
{
    let Place::Input { node, input: 0 } = place else {
        return Ok(None);
    };
    let Some(at) = graph.node(node as u64) else {
        return Ok(None);
    };
    match chosen(nodes, &at.kind, condition)? {
        Some(choice) => Ok(Some(Chosen { node, choice })),
        None => Ok(None),
    }
}

/// Notes what a switch chooses, if one does.
fn note_choice(choices: &mut Vec<Chosen>, made: Option<Chosen>) -> Result<(), Memory>
    ensures { IfOk result (λ _. choices.new.items ≡ choices.old.items ++ listed made) }
{
    if let Some(one) = made {
        choices.push(one)?;
    }
    Ok(())
}

/// The second of an output that a reader gets.
///
/// Condition: the output is there, and the reader's link can convert it.
fn second_for<N: NodeSet, L>(
    nodes: &N,
    link: &Link,
    reader: &Reader,
    outputs: &mut Vec<N::Value>,
    meter: &mut Meter<L>,
) -> Result<Second<N::Value>, Memory>
    requires there { reader.now.output < length outputs.old.items }
    requires converts { IsSome (shifted N.meanings (N.meanings.sort (slice_index_or (map N.content outputs.old.items) reader.now.output N.meanings.nothing)) link.now.through.items) }
    ensures same { map N.content outputs.new.items ≡ map N.content outputs.old.items }
    ensures place { IfOk result (λ x. x.place ≡ reader.now.place) }
    ensures value { IfOk result (λ x. N.content x.value ≡ converted N.meanings.rows (slice_index_or (map N.content outputs.old.items) reader.now.output N.meanings.nothing) link.now.through.items) }
    ensures runs { meter.new.runs ≡ meter.old.runs }
{
    let value = handed(nodes, &mut outputs[reader.output], &link.through, meter)?;
    Ok(Second {
        place: reader.place,
        value,
    })
}

/// Whether the reader gets its output itself.
fn gets_itself(itself: &[Option<Place>], reader: &Reader) -> bool
    ensures { result ≡ true → slice_get itself.now reader.now.output ≡ Some (Some reader.now.place) }
{
    match itself.get(reader.output) {
        Some(Some(place)) => *place == reader.place,
        _ => false,
    }
}

/// Plans what one reader gets.
fn plan_one<N: NodeSet, L>(
    nodes: &N,
    graph: &Graph<N::Kind>,
    reader: &Reader,
    outputs: &mut Vec<N::Value>,
    plan: &mut Plan<N::Value>,
    meter: &mut Meter<L>,
) -> Result<(), Memory>
    requires can { CanRead N.meanings N.kind_of graph.now (map N.content outputs.old.items) reader.now }
    requires plain { AllPlain graph.now plan.old.itself.items }
    ensures same { map N.content outputs.new.items ≡ map N.content outputs.old.items }
    ensures itself { plan.new.itself.items ≡ plan.old.itself.items }
    ensures planned { IfOk result (λ _. (n : ℕ) (rs : List ReaderMeant) → LeadsTo graph.now n reader.now → IsPlanFor N.meanings N.kind_of graph.now (map N.content outputs.old.items) n N.content rs plan.old → IsPlanFor N.meanings N.kind_of graph.now (map N.content outputs.old.items) n N.content (rs ++ reader.now ∷ []) plan.new) }
    ensures runs { meter.new.runs ≡ meter.old.runs }
{
    let Some(link) = link_at(graph, reader.place) else {
        return Ok(());
    };
    if gets_itself(&plan.itself, reader) {
        let made = chosen_at(nodes, graph, reader.place, &outputs[reader.output])?;
        note_choice(&mut plan.choices, made)?;
        return Ok(());
    }
    let second = second_for(nodes, link, reader, outputs, meter)?;
    let made = chosen_at(nodes, graph, reader.place, &second.value)?;
    note_choice(&mut plan.choices, made)?;
    plan.seconds.push(second)?;
    Ok(())
}

/// What is to be done with the outputs of a node that has these readers. The outputs stay the same, also
/// where it is refused.
///
/// Condition: each reader's output is there, its link can convert it, and a switch may choose by it.
pub fn plan_of<N: NodeSet, L>(
    nodes: &N,
    graph: &Graph<N::Kind>,
    readers: &[Reader],
    outputs: &mut Vec<N::Value>,
    meter: &mut Meter<L>,
) -> Result<Plan<N::Value>, Memory>
    requires { (r : ReaderMeant) → Has readers.now r → CanRead N.meanings N.kind_of graph.now (map N.content outputs.old.items) r }
    ensures same { map N.content outputs.new.items ≡ map N.content outputs.old.items }
    ensures plan { IfOk result (λ plan. (n : ℕ) → AreReaders graph.now n readers.now → IsPlanFor N.meanings N.kind_of graph.now (map N.content outputs.old.items) n N.content readers.now plan) }
    ensures runs { meter.new.runs ≡ meter.old.runs }
{
    let alloc = *outputs.allocator();
    let itself = last_plain(alloc, graph, readers, outputs.len())?;
    let mut plan = Plan {
        seconds: Vec::new(alloc),
        itself,
        choices: Vec::new(alloc),
    };
    for reader in readers {
        plan_one(nodes, graph, reader, outputs, &mut plan, meter)?;
    }
    Ok(plan)
}
