ghost use Rattle.std.specs.Prelude.{◌≡◌, ◌≢◌, ℕ, ◌+◌, ◌<◌, ◌≤◌, [], ◌∷◌, ◌++◌, length, IfOk, Some, None, vec_len, vec_capacity, slice_index_or, if◌then◌else◌};
ghost use Rattle.gn_uses.specs.Nodes.{role_of, choice_of};
ghost use Rattle.gn_node_set.specs.Meanings.{selected};
ghost use Rattle.gn_exec_core.specs.Holds.{present};
ghost use Rattle.gn_exec_core.specs.Jobs as jobs;
ghost use Rattle.gn_exec_core.specs.Jobs.{lists_of, IsBlank};

use gn_lazy::{GraphNode, Path};
use gn_memory::Memory;
use gn_nodes::{Answer, Done, NodeSet};
use gn_uses::{Choice, Role};
use std::alloc::Global;
use std::mem;

/// What a worker needs to run a node.
#[derive(Drop)]
pub struct Job<K, V> {
    /// The node's number.
    pub node: u64,
    /// The node's path.
    pub path: Path,
    /// What the node is.
    pub kind: K,
    /// The values of the inputs that its run gets, in order.
    pub inputs: Vec<V>,
    /// Of an import its answer.
    pub answer: Option<Answer>,
}

/// What a worker gets.
#[derive(Drop)]
pub enum Taken<K, V> {
    /// No node is ready, or a worker has refused.
    Nothing,
    /// A node to run.
    Job(Job<K, V>),
    /// There was no memory for the job.
    Memory,
}

/// What a worker gets back whose finish was refused for want of memory: what it handed in.
#[derive(Drop)]
pub struct NotFinished<V> {
    /// The outputs and warnings, which are the same as before.
    pub done: Done<V>,
}

/// The job of a node, with room for its inputs and none of them yet.
pub(crate) fn blank<N: NodeSet>(
    nodes: &N,
    alloc: Global,
    number: u64,
    at: &GraphNode<N::Kind>,
    room: usize,
) -> Result<Job<N::Kind, N::Value>, Memory>
    ensures { IfOk result (λ job. IsBlank N.kind_of number at.now room job) }
{
    let steps = at.path.steps.to_vec(alloc)?;
    let kind = nodes.kind(&at.kind)?;
    let inputs = Vec::with_capacity(alloc, room)?;
    Ok(Job {
        node: number,
        path: Path { steps },
        kind,
        inputs,
        answer: None,
    })
}

/// Whether a run of a node gets the input with this number.
fn is_read(role: Role, choice: Option<Choice>, input: usize) -> bool
    ensures { result ≡ jobs.is_read role choice input }
{
    match (role, choice) {
        (Role::Plain | Role::File, _) => true,
        (Role::Switch, Some(Choice::All)) => true,
        (Role::Switch, Some(Choice::One { case })) => input == 0 || input - 1 == case as usize,
        _ => input == 0,
    }
}

/// Puts a value behind the others, if it is there and is read.
fn keep<V: Drop>(is_read: bool, slot: Option<V>, into: &mut Vec<V>)
    requires { vec_len into.old < vec_capacity into.old }
    ensures items { into.new.items ≡ into.old.items ++ jobs.read_one is_read slot }
    ensures len { vec_len into.new ≤ vec_len into.old + 1 }
    ensures capacity { vec_capacity into.new ≡ vec_capacity into.old }
{
    if !is_read {
        return;
    }
    if let Some(value) = slot {
        into.push_reserved(value);
    }
}

/// Moves the values out that a run gets.
pub(crate) fn read_values<V: Drop>(
    role: Role,
    choice: Option<Choice>,
    row: Vec<Option<V>>,
    into: &mut Vec<V>,
)
    requires { vec_len into.old + vec_len row ≤ vec_capacity into.old }
    ensures { into.new.items ≡ into.old.items ++ present (selected (role_of role) (choice_of choice) row.items) }
{
    let mut slots = row;
    for at in 0..slots.len() {
        keep(is_read(role, choice, at), slots[at].take(), into);
    }
}

/// What a switch has chosen.
pub(crate) fn choice_at(choices: &[Option<Choice>], node: usize) -> Option<Choice>
    ensures { result ≡ slice_index_or choices.now node None }
{
    choices.get(node).copied().unwrap_or(None)
}

/// How many inputs a node has.
pub(crate) fn inputs_at<V>(rows: &[Vec<Option<V>>], node: usize) -> usize
    ensures { result ≡ length (slice_index_or (lists_of rows.now) node []) }
{
    match rows.get(node) {
        Some(row) => row.len(),
        None => 0,
    }
}

/// Moves out all values of a node.
pub(crate) fn row_out<V: Drop>(
    rows: &mut Vec<Vec<Option<V>>>,
    node: usize,
    alloc: Global,
) -> Vec<Option<V>>
    ensures row { result.items ≡ slice_index_or (lists_of rows.old.items) node [] }
    ensures others { (k : ℕ) → k ≢ node → slice_index_or (lists_of rows.new.items) k [] ≡ slice_index_or (lists_of rows.old.items) k [] }
{
    if rows.len() <= node {
        return Vec::new(alloc);
    }
    mem::replace(&mut rows[node], Vec::new(alloc))
}

/// Moves out the answer of a node.
pub(crate) fn answer_out(answers: &mut Vec<Option<Answer>>, node: usize) -> Option<Answer>
    ensures answer { result ≡ slice_index_or answers.old.items node None }
    ensures others { (k : ℕ) → k ≢ node → slice_index_or answers.new.items k None ≡ slice_index_or answers.old.items k None }
    ensures len { length answers.new.items ≡ length answers.old.items }
{
    if answers.len() <= node {
        return None;
    }
    answers[node].take()
}
