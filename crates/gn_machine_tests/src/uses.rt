use gn_uses::{Choice, Out, Role, Uses};
use std::alloc::Global;
use std::test::Fail;

// One call on nodes with their uses, or what they must show.
#[derive(Clone, Copy)]
enum Step {
    // A node with one output, whose inputs come from the first outputs of these nodes, or are values.
    Add(Role, &'static [Option<usize>]),
    Want(usize),
    Fill(usize, usize),
    Choose(usize, Choice),
    // A zone, and the node that its result comes from.
    Open(usize, usize),
    Answer(usize),
    Takes(Option<usize>),
    // The used nodes, and the ready ones.
    Shows(&'static [usize], &'static [usize]),
}

fn out(node: usize) -> Out {
    Out { node, output: 0 }
}

fn add(alloc: Global, uses: &mut Uses, role: Role, inputs: &[Option<usize>]) -> Option<()> {
    let mut links = Vec::new(alloc);
    for input in inputs {
        links.push(input.map(out)).ok()?;
    }
    if !uses.are_there(&links) {
        return None;
    }
    uses.add(role, links, 1).ok()
}

fn want(uses: &mut Uses, node: usize) -> Option<()> {
    let first = out(node);
    if !uses.has_output(first) {
        return None;
    }
    uses.want(first).ok()
}

fn fill(uses: &mut Uses, node: usize, input: usize) -> Option<()> {
    if !uses.has_input(node, input) {
        return None;
    }
    uses.fill(node, input);
    Some(())
}

fn choose(uses: &mut Uses, node: usize, choice: Choice) -> Option<()> {
    if !uses.is_unchosen(node) {
        return None;
    }
    uses.choose(node, choice);
    Some(())
}

fn open(alloc: Global, uses: &mut Uses, zone: usize, origin: usize) -> Option<()> {
    let mut results = Vec::new(alloc);
    results.push(Some(out(origin))).ok()?;
    if !uses.is_shut(zone) || !uses.are_there(&results) {
        return None;
    }
    uses.open(zone, results);
    Some(())
}

fn answer(uses: &mut Uses, node: usize) -> Option<()> {
    if uses.len() <= node {
        return None;
    }
    uses.answer(node);
    Some(())
}

fn when(holds: bool) -> Option<()> {
    if holds { Some(()) } else { None }
}

// Takes one step. It is `None` where it can't be taken, or something else shows.
fn take_step(alloc: Global, uses: &mut Uses, step: Step) -> Option<()> {
    match step {
        Step::Add(role, inputs) => add(alloc, uses, role, inputs),
        Step::Want(node) => want(uses, node),
        Step::Fill(node, input) => fill(uses, node, input),
        Step::Choose(node, choice) => choose(uses, node, choice),
        Step::Open(zone, origin) => open(alloc, uses, zone, origin),
        Step::Answer(node) => answer(uses, node),
        Step::Takes(node) => when(uses.take() == node),
        Step::Shows(used, ready) => when(uses.used() == used && uses.ready() == ready),
    }
}

// All steps can be taken, and show what they must.
fn all(alloc: Global, steps: &[Step]) -> bool {
    let mut uses = Uses::new(alloc);
    for one in steps {
        if take_step(alloc, &mut uses, *one).is_none() {
            return false;
        }
    }
    true
}

// A chain becomes ready from its start.
const CHAIN: [Step; 10] = [
    Step::Add(Role::Plain, &[]),
    Step::Add(Role::Plain, &[Some(0)]),
    Step::Add(Role::Plain, &[Some(1), None]),
    Step::Shows(&[], &[]),
    Step::Want(2),
    Step::Shows(&[2, 1, 0], &[0]),
    Step::Takes(Some(0)),
    Step::Takes(None),
    Step::Fill(1, 0),
    Step::Shows(&[2, 1, 0], &[1]),
];

// A switch wants its condition and then its choice.
const SWITCH: [Step; 13] = [
    Step::Add(Role::Plain, &[]),
    Step::Add(Role::Plain, &[]),
    Step::Add(Role::Plain, &[]),
    Step::Add(Role::Switch, &[Some(0), Some(1), Some(2)]),
    Step::Want(3),
    Step::Shows(&[3, 0], &[0]),
    Step::Fill(3, 0),
    Step::Shows(&[3, 0], &[0]),
    Step::Choose(3, Choice::One { case: 1 }),
    Step::Fill(3, 1),
    Step::Shows(&[3, 0, 2], &[0, 2]),
    Step::Fill(3, 2),
    Step::Shows(&[3, 0, 2], &[0, 2, 3]),
];

// A switch that chose before it was wanted: its first case, one that it has not, all, or none.
const CHOSEN: [Step; 13] = [
    Step::Add(Role::Plain, &[]),
    Step::Add(Role::Switch, &[Some(0), Some(0), None]),
    Step::Choose(1, Choice::One { case: 2 }),
    Step::Add(Role::Plain, &[]),
    Step::Add(Role::Switch, &[None, Some(2), Some(0)]),
    Step::Choose(3, Choice::Zero),
    Step::Add(Role::Switch, &[None, Some(2), Some(0)]),
    Step::Choose(4, Choice::All),
    Step::Shows(&[], &[]),
    Step::Want(3),
    Step::Shows(&[3], &[3]),
    Step::Want(4),
    Step::Shows(&[3, 4, 2, 0], &[3, 2, 0]),
];

// A zone that is opened wants its result, and a node of its turn the zone's item.
const OPENED: [Step; 8] = [
    Step::Add(Role::Plain, &[]),
    Step::Add(Role::Zone, &[None, Some(0)]),
    Step::Add(Role::Plain, &[Some(1)]),
    Step::Add(Role::Plain, &[Some(0)]),
    Step::Want(2),
    Step::Shows(&[2, 1], &[1]),
    Step::Open(1, 3),
    Step::Shows(&[2, 1, 3, 0], &[1, 0]),
];

// The same zone, opened before it is wanted.
const OPENED_FIRST: [Step; 8] = [
    Step::Add(Role::Plain, &[]),
    Step::Add(Role::Zone, &[None, Some(0)]),
    Step::Add(Role::Plain, &[Some(1)]),
    Step::Add(Role::Plain, &[Some(0)]),
    Step::Open(1, 3),
    Step::Shows(&[], &[]),
    Step::Want(2),
    Step::Shows(&[2, 1, 3, 0], &[1, 0]),
];

// An import is ready with its answer.
const IMPORT: [Step; 5] = [
    Step::Add(Role::File, &[]),
    Step::Want(0),
    Step::Shows(&[0], &[]),
    Step::Answer(0),
    Step::Shows(&[0], &[0]),
];

#[test]
fn what_is_wanted_becomes_ready(rt: HostRuntime) -> Result<(), Fail> {
    assert!(rt; all(rt.alloc(), &CHAIN));
    assert!(rt; all(rt.alloc(), &SWITCH));
    assert!(rt; all(rt.alloc(), &CHOSEN));
    assert!(rt; all(rt.alloc(), &OPENED));
    assert!(rt; all(rt.alloc(), &OPENED_FIRST));
    assert!(rt; all(rt.alloc(), &IMPORT));
    Ok(())
}
