use crate::graphs::{carried, choosing, run_next, serve_next, started};
use crate::numbers::Numbers;
use gn_exec_core::{ExecState, Taken};
use gn_nodes::Answer;
use gn_shared::{Meter, SharedArray};
use std::alloc::Global;
use std::test::Fail;

#[derive(Drop)]
struct Seal;

// One call on a state, and what it must give.
#[derive(Clone, Copy)]
enum Act {
    // A worker takes this node, whose run gets this number of inputs, the first of them being this.
    Takes(u32, u64, &'static [u64]),
    // A worker takes this node, whose run gets these inputs, and hands in what that gives.
    Runs(u32, u64, &'static [u64]),
    // The worker finds nothing to take.
    TakesNothing(u32),
    // The import that waits, which gets these bytes.
    Serves(u64, &'static [u8]),
    Refuses(u32),
    Waits(Option<u64>),
    // Is a node running, is all finished, and has a worker refused?
    Is(bool, bool, bool),
    // Is there a node with the number?
    Has(u64, bool),
}

fn when(holds: bool) -> Option<()> {
    if holds { Some(()) } else { None }
}

fn takes(state: &mut ExecState<Numbers>, worker: u32, node: u64, inputs: &[u64]) -> Option<()> {
    if worker >= 64 {
        return None;
    }
    let Taken::Job(job) = state.take(&Numbers, worker) else {
        return None;
    };
    when(job.node == node && job.inputs.as_slice() == inputs)
}

// Nothing is copied for it.
fn runs(state: &mut ExecState<Numbers>, worker: u32, node: u64, inputs: &[u64]) -> Option<()> {
    if worker >= 64 {
        return None;
    }
    let mut meter = Meter::new(Seal);
    let ran = run_next(state, worker, &mut meter);
    if meter.spend(Seal) != (0, 0) {
        return None;
    }
    let (number, values) = ran?;
    when(number == node && values.as_slice() == inputs)
}

fn takes_nothing(state: &mut ExecState<Numbers>, worker: u32) -> Option<()> {
    if worker >= 64 {
        return None;
    }
    let taken = state.take(&Numbers, worker);
    when(matches!(&taken, Taken::Nothing))
}

fn serves(alloc: Global, state: &mut ExecState<Numbers>, node: u64, text: &[u8]) -> Option<()> {
    let mut bytes = Vec::new(alloc);
    bytes.extend_from_slice(text).ok()?;
    let file = SharedArray::new(bytes).ok()?;
    when(serve_next(state, Answer::Whole(file)) == Some(node))
}

fn refuses(state: &mut ExecState<Numbers>, worker: u32) -> Option<()> {
    if worker >= 64 {
        return None;
    }
    state.refuse(worker);
    Some(())
}

fn perform(alloc: Global, state: &mut ExecState<Numbers>, act: Act) -> Option<()> {
    match act {
        Act::Takes(worker, node, inputs) => takes(state, worker, node, inputs),
        Act::Runs(worker, node, inputs) => runs(state, worker, node, inputs),
        Act::TakesNothing(worker) => takes_nothing(state, worker),
        Act::Serves(node, text) => serves(alloc, state, node, text),
        Act::Refuses(worker) => refuses(state, worker),
        Act::Waits(node) => when(state.waiting() == node),
        Act::Is(busy, finished, refused) => when(
            state.busy() == busy && state.finished() == finished && state.refused() == refused,
        ),
        Act::Has(node, there) => when(state.node(node).is_some() == there),
    }
}

// The state of the graph with a given condition. Nothing is run or copied for it.
fn begun(alloc: Global, condition: u64) -> Option<ExecState<Numbers>> {
    let graph = choosing(alloc)?;
    let mut given = Vec::new(alloc);
    given.extend_from_slice(&[condition, 2, 3]).ok()?;
    let mut meter = Meter::new(Seal);
    let state = started(graph, given, &mut meter);
    if meter.spend(Seal) != (0, 0) {
        return None;
    }
    state
}

// All calls give what they must, from the graph with a given condition.
fn all(alloc: Global, condition: u64, acts: &[Act]) -> bool {
    let Some(mut state) = begun(alloc, condition) else {
        return false;
    };
    for act in acts {
        if perform(alloc, &mut state, *act).is_none() {
            return false;
        }
    }
    true
}

// A link that converts the value 5 to these kinds carries this. Nothing is run or copied for it.
fn carries(kinds: &[u8], expected: u64) -> bool {
    let mut value = 5;
    let mut meter = Meter::new(Seal);
    let carried = carried(&mut value, kinds, &mut meter);
    if meter.spend(Seal) != (0, 0) {
        return false;
    }
    value == 5 && matches!(carried, Ok(number) if number == expected)
}

const CHOSEN: [Act; 6] = [
    Act::Is(false, false, false),
    Act::Waits(None),
    Act::Takes(5, 1, &[2, 3]),
    Act::Is(true, false, false),
    Act::TakesNothing(6),
    Act::Has(4, false),
];

const IMPORT: [Act; 7] = [
    Act::TakesNothing(0),
    Act::Is(false, false, false),
    Act::Has(0, true),
    Act::Waits(Some(0)),
    Act::Serves(0, b"three"),
    Act::Waits(None),
    Act::Takes(0, 0, &[]),
];

// Node 1 adds, node 2 hands its sum on, and the zone gets it as its count.
const SUM: [Act; 8] = [
    Act::Runs(3, 1, &[2, 3]),
    Act::Is(false, false, false),
    Act::Runs(4, 2, &[0, 5]),
    Act::Is(false, false, false),
    Act::Waits(None),
    Act::Takes(3, 3, &[5]),
    Act::Is(true, false, false),
    Act::TakesNothing(4),
];

// The length of a file goes through the choice to the zone.
const LENGTH: [Act; 7] = [
    Act::Serves(0, b"three"),
    Act::Runs(9, 0, &[]),
    Act::Waits(None),
    Act::Runs(9, 2, &[7, 5]),
    Act::Refuses(8),
    Act::TakesNothing(9),
    Act::Is(false, false, true),
];

const REFUSED: [Act; 3] = [
    Act::Refuses(63),
    Act::Is(false, false, true),
    Act::TakesNothing(0),
];

#[test]
fn a_finished_node_hands_its_output_on(rt: HostRuntime) -> Result<(), Fail> {
    assert!(rt; all(rt.alloc(), 0, &SUM));
    assert!(rt; all(rt.alloc(), 7, &LENGTH));
    Ok(())
}

#[test]
fn nodes_are_taken_as_they_get_ready(rt: HostRuntime) -> Result<(), Fail> {
    assert!(rt; all(rt.alloc(), 0, &CHOSEN));
    assert!(rt; all(rt.alloc(), 7, &IMPORT));
    assert!(rt; all(rt.alloc(), 0, &REFUSED));
    assert!(rt; carries(&[2, 3], 10));
    Ok(())
}
