ghost use Rattle.std.specs.Prelude.{◌≡◌, ◌<◌, [], ◌∷◌, length, map, is_none, Decides, IfOk, OnOk, OnErr, IsTrue, take, nat_le, slice_index_or, if◌then◌else◌};
ghost use Rattle.gn_uses.specs.Nodes as nodes;
ghost use Rattle.gn_uses.specs.Nodes.{HasRoom, IsUndecided, all_set};
ghost use Rattle.gn_uses.specs.Reading as reading;
ghost use Rattle.gn_uses.specs.Marks.{with_all, with_input, with_results_of};
ghost use Rattle.gn_uses.specs.Parts.{lists_of, nodes_of, ArePassed, HasSpace};

use crate::outputs::{Out, Outputs};
use crate::rows::{flags_of, set_flag};
use gn_memory::Memory;
use std::alloc::Global;

/// How a node reads its inputs.
#[derive(Clone, Copy, Debug, PartialEq, Eq)]
pub enum Role {
    /// It reads all of them.
    Plain,
    /// It reads the first one, which is its condition, and then of the others those that it chooses.
    Switch,
    /// It reads all of them, and an answer.
    File,
    /// It reads the first one alone. When it was run, it is opened, which says where its outputs come
    /// from.
    Zone,
}

/// What a switch reads behind its condition.
#[derive(Clone, Copy, Debug, PartialEq, Eq)]
pub enum Choice {
    /// The case with this number, from 0; nothing past the last one.
    One { case: u32 },
    /// All cases.
    All,
    /// None of the cases.
    Zero,
}

/// What is known of the nodes. Each list but the last one has an item for each node.
#[derive(Drop)]
pub(crate) struct Parts {
    pub(crate) roles: Vec<Role>,
    pub(crate) inputs: Vec<Vec<Option<Out>>>,
    pub(crate) choices: Vec<Option<Choice>>,
    pub(crate) results: Vec<Vec<Option<Out>>>,
    pub(crate) filled: Vec<Vec<bool>>,
    pub(crate) answered: Vec<bool>,
    pub(crate) roots: Vec<Out>,
}

/// How many inputs from the first one on a node reads.
fn front_of(role: Role, choice: Option<Choice>, inputs: usize) -> usize
    ensures { result ≡ reading.front_of role choice inputs }
{
    match (role, choice) {
        (Role::Plain | Role::File, _) => inputs,
        (Role::Switch, Some(Choice::All)) => inputs,
        _ => inputs.min(1),
    }
}

/// The one input that a switch reads behind its condition.
fn case_of(role: Role, choice: Option<Choice>) -> Option<usize>
    ensures { result ≡ reading.case_of role choice }
{
    match (role, choice) {
        (Role::Switch, Some(Choice::One { case })) => Some(case as usize + 1),
        _ => None,
    }
}

/// The inputs of a node, or the results of a zone; none of a node that isn't there.
fn links_of(lists: &[Vec<Option<Out>>], node: usize) -> &[Option<Out>]
    ensures { result.now ≡ slice_index_or (lists_of lists.now) node [] }
{
    match lists.get(node) {
        Some(links) => links.as_slice(),
        None => &[],
    }
}

/// The one input with that number, if it is there.
fn case_in(inputs: &[Option<Out>], case: Option<usize>) -> &[Option<Out>]
    ensures { result.now ≡ reading.at_case case inputs.now }
{
    let Some(case) = case else {
        return &[];
    };
    if inputs.len() <= case {
        return &[];
    }
    &inputs[case..case + 1]
}

/// Whether the input with that number has a value, if it is there.
fn is_case_set(filled: &[bool], case: Option<usize>) -> bool
    ensures { result ≡ all_set (reading.at_case case filled.now) }
{
    let Some(case) = case else {
        return true;
    };
    if filled.len() <= case {
        return true;
    }
    filled[case]
}

/// Puts in what an input comes from, unless it is a value.
pub(crate) fn want(input: Option<Out>, wanted: &mut Outputs)
    requires { HasRoom wanted.old.sizes (input ∷ []) }
    ensures { wanted.new ≡ with_all wanted.old (input ∷ []) }
{
    if let Some(out) = input {
        wanted.put(out);
    }
}

/// Puts in what inputs come from.
fn want_all(inputs: &[Option<Out>], wanted: &mut Outputs)
    requires { HasRoom wanted.old.sizes inputs.now }
    ensures { wanted.new ≡ with_all wanted.old inputs.now }
{
    for input in inputs {
        want(*input, wanted);
    }
}

/// Goes over the inputs that have values, from a cursor on and no further than `front`.
fn pass(filled: &[bool], from: usize, front: usize) -> usize
    requires { IsTrue (all_set (take from filled.now)) }
    ensures passed { IsTrue (all_set (take result filled.now)) }
    ensures full { nat_le front result ≡ all_set (take front filled.now) }
{
    let mut at = from;
    while at < front {
        if !is_case_set(filled, Some(at)) {
            return at;
        }
        at += 1;
    }
    at
}

/// Puts in what an input comes from, if it is asked for.
fn want_where(asked: bool, input: Option<Out>, wanted: &mut Outputs)
    requires { HasRoom wanted.old.sizes (input ∷ []) }
    ensures { wanted.new ≡ record wanted.old { items = if asked then with_input wanted.old.items input else wanted.old.items } }
{
    if asked {
        want(input, wanted);
    }
}

/// Puts in what the outputs of a zone come from, as far as they are in.
fn want_asked(zone: usize, results: &[Option<Out>], wanted: &mut Outputs)
    requires { HasRoom wanted.old.sizes results.now }
    ensures { wanted.new ≡ record wanted.old { items = with_results_of zone 0 results.now wanted.old.items } }
{
    for (output, result) in results.iter().enumerate() {
        let out = Out { node: zone, output };
        want_where(wanted.has(out), *result, wanted);
    }
}

/// For each input, whether it has a value from the start.
pub(crate) fn filled_of(inputs: &Vec<Option<Out>>) -> Result<Vec<bool>, Memory>
    ensures { IfOk result (λ filled. filled.items ≡ map (λ input. is_none input) inputs.now.items) }
{
    Ok(
        inputs
            .iter()
            .map(|input| input.is_none())
            .collect(*inputs.allocator())?,
    )
}

impl Parts {
    /// No nodes.
    pub(crate) fn new(alloc: Global) -> Parts
        ensures { nodes_of result [] ≡ nodes.no_nodes }
    {
        Parts {
            roles: Vec::new(alloc),
            inputs: Vec::new(alloc),
            choices: Vec::new(alloc),
            results: Vec::new(alloc),
            filled: Vec::new(alloc),
            answered: Vec::new(alloc),
            roots: Vec::new(alloc),
        }
    }

    /// Makes room for one more node.
    pub(crate) fn reserve(&mut self) -> Result<(), Memory>
        ensures same { nodes_of self.new [] ≡ nodes_of self.old [] }
        ensures room { OnOk result (HasSpace self.new) }
    {
        self.roles.reserve(1)?;
        self.inputs.reserve(1)?;
        self.choices.reserve(1)?;
        self.results.reserve(1)?;
        self.filled.reserve(1)?;
        self.answered.reserve(1)?;
        Ok(())
    }

    /// Adds a node, where there is room.
    pub(crate) fn push(&mut self, role: Role, inputs: Vec<Option<Out>>, filled: Vec<bool>)
        requires room { HasSpace self.old }
        requires filled { filled.items ≡ map (λ input. is_none input) inputs.items }
        ensures { nodes_of self.new [] ≡ record (nodes.with_node (nodes_of self.old []) role inputs.items 0) { sizes = [] } }
    {
        let alloc = *inputs.allocator();
        self.roles.push_reserved(role);
        self.inputs.push_reserved(inputs);
        self.choices.push_reserved(None);
        self.results.push_reserved(Vec::new(alloc));
        self.filled.push_reserved(filled);
        self.answered.push_reserved(false);
    }

    /// A switch has chosen.
    pub(crate) fn set_choice(&mut self, node: usize, choice: Choice)
        requires { node < length (nodes_of self.old []).choices }
        ensures { nodes_of self.new [] ≡ nodes.with_choice (nodes_of self.old []) node choice }
    {
        self.choices[node] = Some(choice);
    }

    /// A zone has its results.
    pub(crate) fn set_results(&mut self, zone: usize, results: Vec<Option<Out>>)
        requires { zone < length (nodes_of self.old []).results }
        ensures { nodes_of self.new [] ≡ nodes.with_results (nodes_of self.old []) zone results.items }
    {
        self.results[zone] = results;
    }

    /// An input has its value.
    pub(crate) fn set_value(&mut self, node: usize, input: usize)
        requires there { node < length (nodes_of self.old []).filled }
        requires input { input < length (nodes.filled (nodes_of self.old []) node) }
        ensures { nodes_of self.new [] ≡ nodes.with_value (nodes_of self.old []) node input }
    {
        set_flag(&mut self.filled, node, input);
    }

    /// An import has its answer.
    pub(crate) fn set_answer(&mut self, node: usize)
        requires { node < length (nodes_of self.old []).answered }
        ensures { nodes_of self.new [] ≡ nodes.with_answer (nodes_of self.old []) node }
    {
        self.answered[node] = true;
    }

    /// One more root. A refusal changes nothing.
    pub(crate) fn add_root(&mut self, root: Out) -> Result<(), Memory>
        ensures ok { OnOk result (nodes_of self.new [] ≡ nodes.with_root (nodes_of self.old []) root) }
        ensures err { OnErr result (nodes_of self.new [] ≡ nodes_of self.old []) }
    {
        self.roots.push(root)?;
        Ok(())
    }

    /// Whether the node has the input.
    pub(crate) fn has_input(&self, node: usize, input: usize) -> bool
        ensures { Decides result (input < length (nodes.filled (nodes_of self.now []) node)) }
    {
        input < flags_of(&self.filled, node).len()
    }

    /// Whether the node is a switch that has not chosen.
    pub(crate) fn is_unchosen(&self, node: usize) -> bool
        ensures { Decides result (IsUndecided (nodes.role (nodes_of self.now []) node) (nodes.choice (nodes_of self.now []) node)) }
    {
        match (self.role(node), self.choice(node)) {
            (Role::Switch, None) => true,
            _ => false,
        }
    }

    /// Whether the node has no results.
    pub(crate) fn is_shut(&self, node: usize) -> bool
        ensures { Decides result (nodes.results (nodes_of self.now []) node ≡ []) }
    {
        links_of(&self.results, node).is_empty()
    }

    fn role(&self, node: usize) -> Role
        ensures { result ≡ nodes.role (nodes_of self.now []) node }
    {
        self.roles.get(node).copied().unwrap_or(Role::Plain)
    }

    fn choice(&self, node: usize) -> Option<Choice>
        ensures { result ≡ nodes.choice (nodes_of self.now []) node }
    {
        self.choices.get(node).copied().unwrap_or(None)
    }

    /// Puts in what the inputs come from that the node reads.
    pub(crate) fn want_needs(&self, node: usize, wanted: &mut Outputs)
        requires { HasRoom wanted.old.sizes (nodes.inputs (nodes_of self.now []) node) }
        ensures { wanted.new ≡ with_all wanted.old (nodes.needs (nodes_of self.now []) node) }
    {
        let inputs = links_of(&self.inputs, node);
        let front = front_of(self.role(node), self.choice(node), inputs.len());
        want_all(&inputs[..front], wanted);
        let case = case_of(self.role(node), self.choice(node));
        want_all(case_in(inputs, case), wanted);
    }

    /// Puts in what the outputs of an opened zone come from, as far as they are in.
    pub(crate) fn want_results(&self, zone: usize, wanted: &mut Outputs)
        requires { HasRoom wanted.old.sizes (nodes.results (nodes_of self.now []) zone) }
        ensures { wanted.new ≡ record wanted.old { items = with_results_of zone 0 (nodes.results (nodes_of self.now []) zone) wanted.old.items } }
    {
        want_asked(zone, links_of(&self.results, zone), wanted);
    }

    /// Where an output of an opened zone comes from.
    pub(crate) fn result(&self, out: Out) -> Option<Out>
        ensures { result ≡ nodes.result_at (nodes_of self.now []) out }
    {
        links_of(&self.results, out.node)
            .get(out.output)
            .copied()
            .unwrap_or(None)
    }

    /// Whether all is there that a run of the node gets. The node's cursor goes as far as it can.
    pub(crate) fn is_full(&self, cursors: &mut Vec<usize>, node: usize) -> bool
        requires { ArePassed (nodes_of self.now []) cursors.old.items }
        ensures full { result ≡ nodes.is_full (nodes_of self.now []) node }
        ensures passed { ArePassed (nodes_of self.now []) cursors.new.items }
    {
        let filled = flags_of(&self.filled, node);
        let front = front_of(self.role(node), self.choice(node), filled.len());
        let passed = pass(filled, cursor_of(cursors, node), front);
        if node < cursors.len() {
            cursors[node] = passed;
        }
        front <= passed
            && is_case_set(filled, case_of(self.role(node), self.choice(node)))
            && self.is_set_up(node)
    }

    /// Whether a switch has chosen, and an import has its answer.
    fn is_set_up(&self, node: usize) -> bool
        ensures { result ≡ nodes.is_set_up (nodes.role (nodes_of self.now []) node) (nodes.choice (nodes_of self.now []) node) (nodes.answered (nodes_of self.now []) node) }
    {
        match self.role(node) {
            Role::Switch => self.choice(node).is_some(),
            Role::File => self.answered.get(node).copied().unwrap_or(false),
            Role::Plain | Role::Zone => true,
        }
    }
}

fn cursor_of(cursors: &[usize], node: usize) -> usize
    ensures { result ≡ slice_index_or cursors.now node 0 }
{
    cursors.get(node).copied().unwrap_or(0)
}
