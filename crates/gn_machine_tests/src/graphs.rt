ghost use Rattle.std.specs.Prelude.{◌≡◌, ◌≢◌, ◌<◌, [], true, length, IfOk, IfSome};
ghost use Rattle.gn_lazy.specs.Graphs.{IsOrdered};
ghost use Rattle.gn_machine_tests.specs.declared.numbers.NumberKind.TheVariants.{Choose, Repeat};
ghost use Rattle.gn_machine_tests.specs.Named.{AreNamed, one_step};

use crate::numbers::{NumberKind, Numbers, done_by};
use gn_exec_core::{ExecState, Taken};
use gn_lazy::{Graph, GraphNode, Link, Origin, Path, PathStep};
use gn_memory::Memory;
use gn_nodes::{Answer, handed};
use gn_shared::Meter;
use smallvec::SmallVec;
use std::alloc::Global;

/// The first output of a node.
fn output_of(node: u64) -> Origin {
    Origin::Out { node, socket: 0 }
}

/// Links to these origins, which convert nothing.
fn links_to(alloc: Global, origins: &[Origin]) -> Result<Vec<Link>, Memory> {
    let mut links = Vec::new(alloc);
    for origin in origins {
        links.push(Link {
            origin: *origin,
            through: SmallVec::new(alloc),
        })?;
    }
    Ok(links)
}

/// A choice has a condition, and a zone a count and one item.
fn may_have(kind: NumberKind, inputs: &[Link]) -> bool
    ensures condition { result ≡ true → kind ≡ Choose → inputs.now ≢ [] }
    ensures item { result ≡ true → kind ≡ Repeat → length inputs.now ≡ 2 }
{
    match kind {
        NumberKind::Choose => !inputs.is_empty(),
        NumberKind::Repeat => inputs.len() == 2,
        NumberKind::Add | NumberKind::Measure => true,
    }
}

/// The path that is this one number.
fn path_of(alloc: Global, node: u32) -> Result<Path, Memory>
    ensures { IfOk result (λ path. path.steps.items ≡ one_step node) }
{
    let mut steps = Vec::with_capacity(alloc, 1)?;
    steps.push(PathStep { node, turn: None })?;
    Ok(Path { steps })
}

/// A graph without nodes.
fn empty(alloc: Global, constants: u32) -> Graph<NumberKind>
    ensures { AreNamed result.nodes }
{
    Graph::new(alloc, constants)
}

/// Adds a node with one output whose inputs come from these origins, and whose path is its number. It is
/// `None` where the graph does not take it.
fn add(
    alloc: Global,
    graph: &mut Graph<NumberKind>,
    kind: NumberKind,
    origins: &[Origin],
) -> Option<()>
    requires { AreNamed graph.old.nodes }
    ensures { IfSome result (λ _. AreNamed graph.new.nodes) }
{
    let Ok(inputs) = links_to(alloc, origins) else {
        return None;
    };
    if !may_have(kind, &inputs) {
        return None;
    }
    let Ok(number) = u32::try_from(graph.len()) else {
        return None;
    };
    let Ok(path) = path_of(alloc, number) else {
        return None;
    };
    let node = GraphNode {
        path,
        kind,
        inputs,
        outputs: 1,
    };
    match graph.add(node) {
        Ok(_) => Some(()),
        Err(_) => None,
    }
}

/// Asks for what an origin gives.
fn ask(alloc: Global, graph: &mut Graph<NumberKind>, origin: Origin) -> Option<()>
    requires { AreNamed graph.old.nodes }
    ensures { IfSome result (λ _. AreNamed graph.new.nodes) }
{
    let through = SmallVec::new(alloc);
    match graph.root(Link { origin, through }) {
        Ok(_) => Some(()),
        Err(_) => None,
    }
}

/// Node 0 measures a file, node 1 adds the constants 2 and 3, node 2 chooses node 1 or node 0 by what
/// the graph is given, node 3 is a zone that turns as often as node 2 says, with the constant 2 as its
/// item, and is asked for.
pub fn choosing(alloc: Global) -> Option<Graph<NumberKind>>
    ensures { IfSome result (λ graph. AreNamed graph.nodes) }
{
    let mut graph = empty(alloc, 2);
    let two = Origin::Constant { slot: 0 };
    let three = Origin::Constant { slot: 1 };
    let cases = [Origin::Input, output_of(1), output_of(0)];
    add(alloc, &mut graph, NumberKind::Measure, &[])?;
    add(alloc, &mut graph, NumberKind::Add, &[two, three])?;
    add(alloc, &mut graph, NumberKind::Choose, &cases)?;
    add(alloc, &mut graph, NumberKind::Repeat, &[output_of(2), two])?;
    ask(alloc, &mut graph, output_of(3))?;
    Some(graph)
}

/// The links of a graph lead back.
fn look_at(graph: &Graph<NumberKind>)
    ensures { IsOrdered graph.now }
{
    let _ = graph.node(0);
    let _ = graph.roots();
}

/// A state of that graph with these given values, one more than it has constants.
pub fn started<L>(
    graph: Graph<NumberKind>,
    given: Vec<u64>,
    meter: &mut Meter<L>,
) -> Option<ExecState<Numbers>>
    requires { AreNamed graph.nodes }
{
    if given.len() as u64 != u64::from(graph.constants()) + 1 {
        return None;
    }
    look_at(&graph);
    match ExecState::new(&Numbers, graph, given, meter) {
        Ok(state) => Some(state),
        Err(_) => None,
    }
}

/// Hands the import that waits its answer, and gives its number. It is `None` where none waits.
pub fn serve_next(state: &mut ExecState<Numbers>, answer: Answer) -> Option<u64> {
    if state.refused() {
        return None;
    }
    let node = state.waiting()?;
    match state.serve(node, answer) {
        Ok(_) => Some(node),
        Err(_) => None,
    }
}

/// Whether a node of this kind is no zone.
fn is_run(kind: NumberKind) -> bool
    ensures { result ≡ true → kind ≢ Repeat }
{
    match kind {
        NumberKind::Add | NumberKind::Choose | NumberKind::Measure => true,
        NumberKind::Repeat => false,
    }
}

/// A worker takes what is next and hands in what its run gives: the number of the node, and the values of
/// its inputs. It is `None` where there is nothing to take, where that is a zone, and for want of memory.
pub fn run_next<L>(
    state: &mut ExecState<Numbers>,
    worker: u32,
    meter: &mut Meter<L>,
) -> Option<(u64, Vec<u64>)>
    requires { worker < 64 }
{
    let Taken::Job(job) = state.take(&Numbers, worker) else {
        return None;
    };
    if !is_run(job.kind) {
        return None;
    }
    let alloc = *job.inputs.allocator();
    let Ok(done) = done_by(alloc, job.kind, &job.inputs, &job.answer) else {
        return None;
    };
    match state.finish(&Numbers, worker, job.node, done, meter) {
        Ok(_) => Some((job.node, job.inputs)),
        Err(_) => None,
    }
}

/// The value as a link carries it that converts it to these kinds in turn.
pub fn carried<L>(value: &mut u64, kinds: &[u8], meter: &mut Meter<L>) -> Result<u64, Memory> {
    handed(&Numbers, value, kinds, meter)
}
