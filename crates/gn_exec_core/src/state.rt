ghost use Rattle.std.specs.Prelude.{◌≡◌, ◌<◌, ◌+◌, false, IfOk, IfErr, OnOk, OnErr, Decides, length, map, option_map, slice_get};
ghost use Rattle.std.specs.List.{list_any};
ghost use Rattle.gn_exec_core.specs.States.{refused_by, any_refuses};
ghost use Rattle.gn_lazy.specs.Graphs.{IsOrdered};
ghost use Rattle.gn_exec_laws.specs.Fits.{CanStart};
ghost use Rattle.gn_exec_laws.specs.Tasks.{task_of};
ghost use Rattle.gn_exec_core.specs.Holds.{HaveConditions};
ghost use Rattle.gn_exec_core.specs.Jobs.{Takes};
ghost use Rattle.gn_exec_core.specs.Starts.{begun};
ghost use Rattle.gn_exec_core.specs.Finishes.{MayFinish, finished_by};
ghost use Rattle.gn_nodes.specs.Values.{answer_of, done_of};
ghost use Rattle.gn_exec_core.specs.Waits.{IsBusy, AreFinished, NodeIs, WaitsFirst, MayServe, served_by};

use crate::jobs::{
    NotFinished, Taken, answer_out, blank, choice_at, inputs_at, read_values, row_out,
};
use crate::start::{choices_of, imports_of, numbered, row_of, rows_of};
use gn_delivery::{choose_all, deliver, fill_all, plan_of};
use gn_lazy::{Graph, GraphNode};
use gn_memory::Memory;
use gn_nodes::{Answer, Done, NodeSet};
use gn_pending::{are_flagged, empty_slots, first_flagged};
use gn_readers::{Reader, readers_of};
use gn_shared::Meter;
use gn_uses::{Choice, Uses};
use std::marker::Model;
use std::snapshot::Snapshot;

/// One event. What was handed on whole stays known to contracts.
#[derive(Drop)]
enum Happened<V> {
    /// A worker took a node.
    Take {
        worker: u32,
        node: u64,
    },
    /// A worker finished a node, with these outputs.
    Finish {
        worker: u32,
        node: u64,
        outputs: Snapshot<Vec<V>>,
    },
    /// An import got its answer.
    Serve {
        node: u64,
        answer: Snapshot<Answer>,
    },
    /// A worker takes no more.
    Refuse {
        worker: u32,
    },
}

/// The state of the executor, between events.
///
/// Contracts see the graph and the values that it began with, the events since, and the outputs that
/// were handed in, the last ones first.
#[derive(Drop)]
pub struct ExecState<N: NodeSet> {
    graph: Graph<N::Kind>,
    given: Snapshot<Vec<N::Value>>,
    journal: Vec<Happened<N::Value>>,
    /// Which of the 64 workers have refused.
    refused: Vec<bool>,
    /// The nodes by their numbers: which are used, and which are ready.
    uses: Uses,
    /// What each switch has chosen, once its condition is known.
    choices: Vec<Option<Choice>>,
    /// For each input of each node its value, from when it is set until the node is taken.
    rows: Vec<Vec<Option<N::Value>>>,
    /// The answer of each import, until the node is taken.
    answers: Vec<Option<Answer>>,
    /// Which nodes are finished.
    done: Vec<bool>,
    /// Which nodes are imports without an answer.
    unanswered: Vec<bool>,
    /// How many nodes are taken and not finished.
    running: usize,
    /// Of each node the links that lead to its outputs.
    readers: Vec<Vec<Reader>>,
    /// The value of each root, once it is set.
    roots: Vec<Option<N::Value>>,
}

impl<N: NodeSet> Model for ExecState<N> {
    ghost use Rattle.std.specs.Prelude.{length, vec_capacity};
    ghost use Rattle.gn_exec_core.specs.States.{State, seen, events_of, HasFlags, IsReached};
    ghost use Rattle.gn_exec_core.specs.Jobs.{Holds, lists_of};
    ghost use Rattle.gn_exec_core.specs.Waits.{Tallies};
    ghost use Rattle.gn_exec_core.specs.Finishes.{HandsOn};
    ghost use Rattle.gn_readers.specs.Readers.{lists_of as readers_in};

    ghost Value = { State N.Kind N.Value };

    ghost view = { λ s. seen s.graph s.given.value.items s.journal.items };

    ghost invariant = { λ s. HasFlags s.refused.items (events_of s.journal.items) (vec_capacity s.journal) × IsReached N.meanings N.kind_of N.content (seen s.graph s.given.value.items s.journal.items) × Holds N.meanings N.kind_of N.content (seen s.graph s.given.value.items s.journal.items) s.uses s.choices.items (lists_of s.rows.items) s.answers.items × Tallies s.graph.nodes (events_of s.journal.items) s.uses.nodes s.done.items s.unanswered.items (length s.answers.items) s.running × HandsOn N.meanings N.kind_of N.content (seen s.graph s.given.value.items s.journal.items) (readers_in s.readers.items) s.roots.items };
}

impl<N: NodeSet> ExecState<N> {
    /// A state with no event yet. The first given value is what the graph is given, and behind it come
    /// the graph's constants. No run is noted.
    ///
    /// Condition: the graph fits with the given values, of which there is one more than the graph has
    /// constants, and each switch has a condition.
    pub fn new<L>(
        nodes: &N,
        graph: Graph<N::Kind>,
        given: Vec<N::Value>,
        meter: &mut Meter<L>,
    ) -> Result<ExecState<N>, Memory>
        requires start { CanStart N.meanings (task_of N.kind_of N.meanings.nothing graph (map N.content given.items)) }
        requires given { length given.items ≡ graph.constants + 1 }
        requires conditions { HaveConditions N.meanings N.kind_of graph.nodes }
        ensures state { IfOk result (λ s. s ≡ begun graph given.items) }
        ensures runs { meter.new.runs ≡ meter.old.runs }
    {
        let alloc = *given.allocator();
        let about = Snapshot::of(&given);
        let mut given = given;
        look_at(&graph);
        let rows = rows_of(nodes, &graph, &mut given, meter)?;
        let choices = choices_of(nodes, &graph, &rows)?;
        let uses = numbered(nodes, alloc, &graph, &choices)?;
        let journal = Vec::with_capacity(alloc, 64)?;
        let refused = vec![in alloc; false; 64]?;
        let count = graph.len() as usize;
        let answers = empty_slots(alloc, count)?;
        let done = vec![in alloc; false; count]?;
        let unanswered = imports_of(nodes, alloc, &graph)?;
        let readers = readers_of(alloc, &graph)?;
        let roots = row_of(nodes, graph.roots(), &mut given, meter)?;
        Ok(ExecState {
            graph,
            given: about,
            journal,
            refused,
            uses,
            choices,
            rows,
            answers,
            done,
            unanswered,
            running: 0,
            readers,
            roots,
        })
    }

    /// A worker takes no more. Its first refusal is an event, for which there is room; a later one
    /// changes nothing.
    ///
    /// Condition: the worker's number is below 64.
    pub fn refuse(&mut self, worker: u32)
        requires { worker < 64 }
        ensures { self.new ≡ refused_by self.old worker }
    {
        if self.refused[worker as usize] {
            return;
        }
        self.refused[worker as usize] = true;
        self.journal.push_reserved(Happened::Refuse { worker });
    }

    /// Hands out the first node that is ready, which is one event. The answer is `Nothing`, with no
    /// event, exactly where no node is ready or a worker has refused. A refusal changes nothing.
    ///
    /// Condition: the worker's number is below 64.
    pub fn take(&mut self, nodes: &N, worker: u32) -> Taken<N::Kind, N::Value>
        requires { worker < 64 }
        ensures { Takes N.meanings N.kind_of N.content self.old worker result self.new }
    {
        if any_set(&self.refused) {
            return Taken::Nothing;
        }
        let Some(number) = first_of(self.uses.ready()) else {
            return Taken::Nothing;
        };
        let Some(at) = self.graph.node(number as u64) else {
            unreachable!();
        };
        let alloc = *self.journal.allocator();
        let role = nodes.role(&at.kind);
        let room = inputs_at(&self.rows, number);
        let Ok(mut job) = blank(nodes, alloc, number as u64, at, room) else {
            return Taken::Memory;
        };
        if self.journal.reserve(65).is_err() {
            return Taken::Memory;
        }
        self.uses.take();
        let row = row_out(&mut self.rows, number, alloc);
        read_values(role, choice_at(&self.choices, number), row, &mut job.inputs);
        job.answer = answer_out(&mut self.answers, number);
        self.running += 1;
        self.journal.push_reserved(Happened::Take {
            worker,
            node: number as u64,
        });
        Taken::Job(job)
    }

    /// Whether a worker has refused.
    pub fn refused(&self) -> bool
        ensures { result ≡ any_refuses self.now.events }
    {
        any_set(&self.refused)
    }

    /// Whether a node is taken and not finished.
    pub fn busy(&self) -> bool
        ensures { Decides result (IsBusy self.now.events) }
    {
        self.running > 0
    }

    /// Whether each used node is finished.
    pub fn finished(&self) -> bool
        ensures { Decides result (AreFinished N.meanings N.kind_of N.content self.now) }
    {
        are_flagged(&self.done, self.uses.used())
    }

    /// The node with this number: its path and its kind.
    pub fn node(&self, node: u64) -> Option<&GraphNode<N::Kind>>
        ensures { NodeIs N.meanings N.kind_of N.content self.now node (option_map (λ at. at.now) result) }
    {
        self.graph.node(node)
    }

    /// The import that is to be answered next: the one whose path is first, of those that are used
    /// and have no answer yet. It is `None` exactly where none is.
    pub fn waiting(&self) -> Option<u64>
        ensures { WaitsFirst N.meanings N.kind_of N.content self.now result }
    {
        first_flagged(&self.graph, &self.unanswered, self.uses.used())
    }

    /// A worker hands in what the run of a node gave, which is one event. Where the node is finished
    /// already, nothing changes. A refusal changes nothing, and hands the same outputs and warnings back.
    ///
    /// Condition: the worker took the node, which is no zone, and its run gives this.
    pub fn finish<L>(
        &mut self,
        nodes: &N,
        worker: u32,
        node: u64,
        done: Done<N::Value>,
        meter: &mut Meter<L>,
    ) -> Result<(), NotFinished<N::Value>>
        requires { MayFinish N.meanings N.kind_of N.content self.old worker node done }
        ensures ok { OnOk result (self.new ≡ finished_by self.old worker node done.outputs.items) }
        ensures err { IfErr result (λ back. (self.new ≡ self.old) × (done_of N.content back.done ≡ done_of N.content done)) }
        ensures runs { meter.new.runs ≡ meter.old.runs }
    {
        let number = node as usize;
        if self.done[number] {
            return Ok(());
        }
        let about = Snapshot::of(&done.outputs);
        let Done {
            mut outputs,
            warnings,
        } = done;
        let readers = &self.readers[number];
        let Ok(plan) = plan_of(nodes, &self.graph, readers, &mut outputs, meter) else {
            return Err(NotFinished {
                done: Done { outputs, warnings },
            });
        };
        if self.journal.reserve(65).is_err() {
            return Err(NotFinished {
                done: Done { outputs, warnings },
            });
        }
        choose_all(&mut self.uses, &mut self.choices, &plan.choices);
        fill_all(&mut self.uses, &self.readers[number]);
        deliver(&mut self.rows, &mut self.roots, plan, outputs);
        self.done[number] = true;
        self.running -= 1;
        self.journal.push_reserved(Happened::Finish {
            worker,
            node,
            outputs: about,
        });
        Ok(())
    }

    /// Hands an import its answer, which is one event. A refusal changes nothing.
    ///
    /// Condition: the import waits for an answer, and no worker has refused.
    pub fn serve(&mut self, node: u64, answer: Answer) -> Result<(), Memory>
        requires waits { MayServe N.meanings N.kind_of N.content self.old node }
        requires none_refused { any_refuses self.old.events ≡ false }
        ensures ok { OnOk result (self.new ≡ served_by self.old node (answer_of answer)) }
        ensures err { OnErr result (self.new ≡ self.old) }
    {
        let number = node as usize;
        if self.journal.reserve(65).is_err() {
            return Err(Memory);
        }
        let kept = Snapshot::of(&answer);
        self.answers[number] = Some(answer);
        self.unanswered[number] = false;
        self.uses.answer(number);
        self.journal
            .push_reserved(Happened::Serve { node, answer: kept });
        Ok(())
    }
}

/// The links of a graph lead back.
fn look_at<K: Drop>(graph: &Graph<K>)
    ensures { IsOrdered graph.now }
{
    let _ = graph.node(0);
    let _ = graph.roots();
}

fn first_of(numbers: &[usize]) -> Option<usize>
    ensures { result ≡ slice_get numbers.now 0 }
{
    numbers.first().copied()
}

fn any_set(flags: &[bool]) -> bool
    ensures { result ≡ list_any (λ flag. flag) flags.now }
{
    flags.iter().any(|flag| *flag)
}
