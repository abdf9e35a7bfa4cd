ghost use Rattle.std.specs.Prelude.{◌≡◌, ◌<◌, [], ◌∷◌, length, Decides, OnOk, OnErr};
ghost use Rattle.gn_uses.specs.Nodes.{HasRoom, Wanted, with_node, with_root, with_choice, with_results, with_value, with_answer};
ghost use Rattle.gn_uses.specs.Sets.{IsIn};
ghost use Rattle.gn_uses.specs.Uses as uses;
ghost use Rattle.gn_uses.specs.Uses.{Changes, IsExact, IsUnchosen, HasNoResults, HasInput, TakesFirst};

use crate::nodes::{Choice, Parts, Role, filled_of};
use crate::outputs::Out;
use crate::progress::Progress;
use gn_memory::Memory;
use std::alloc::Global;
use std::marker::Model;

/// Nodes, by numbers, with the outputs that are wanted of them, the nodes that are used for these, and
/// the used nodes that are ready to be run.
///
/// Contracts see what is known of the nodes, and which nodes were taken, are ready and are used, in the
/// order in which they became so.
#[derive(Drop)]
pub struct Uses {
    parts: Parts,
    progress: Progress,
    /// How many nodes of the line were taken.
    taken: usize,
}

impl Model for Uses {
    ghost use Rattle.gn_uses.specs.Uses.{Uses};

    ghost Value = { Uses };

    ghost use Rattle.gn_uses.specs.Inside.{seen, IsRight};

    ghost view = { λ u. seen u.parts u.progress u.taken };

    ghost invariant = { λ u. IsRight u.parts u.progress u.taken };
}

impl Uses {
    /// No nodes.
    pub fn new(alloc: Global) -> Uses
        ensures { result ≡ uses.nothing }
    {
        Uses {
            parts: Parts::new(alloc),
            progress: Progress::new(alloc),
            taken: 0,
        }
    }

    /// Adds a node behind the others. An input that is a value has one; no other has.
    ///
    /// Condition: its inputs come from outputs of nodes that are there.
    pub fn add(
        &mut self,
        role: Role,
        inputs: Vec<Option<Out>>,
        outputs: usize,
    ) -> Result<(), Memory>
        requires { HasRoom self.old.nodes.sizes inputs.items }
        ensures ok { OnOk result (self.new ≡ record self.old { nodes = with_node self.old.nodes role inputs.items outputs }) }
        ensures err { OnErr result (self.new ≡ self.old) }
    {
        let filled = filled_of(&inputs)?;
        self.parts.reserve()?;
        self.progress.grow(outputs)?;
        self.parts.push(role, inputs, filled);
        Ok(())
    }

    /// An output is wanted, whatever the nodes are.
    ///
    /// Condition: it is there.
    pub fn want(&mut self, root: Out) -> Result<(), Memory>
        requires { IsIn self.old.nodes.sizes root }
        ensures ok { OnOk result (Changes self.old (with_root self.old.nodes root) self.new) }
        ensures err { OnErr result (self.new ≡ self.old) }
    {
        self.parts.add_root(root)?;
        self.progress.want(&self.parts, root);
        self.progress.settle(&self.parts);
        Ok(())
    }

    /// A switch has chosen.
    ///
    /// Condition: the node is a switch that has not chosen yet.
    pub fn choose(&mut self, node: usize, choice: Choice)
        requires { IsUnchosen self.old.nodes node }
        ensures { Changes self.old (with_choice self.old.nodes node choice) self.new }
    {
        self.parts.set_choice(node, choice);
        self.progress.feed_again(&self.parts, node);
        self.progress.settle(&self.parts);
    }

    /// A zone is opened, with where each of its outputs comes from.
    ///
    /// Condition: the zone has no results yet, and these come from outputs of nodes that are there.
    pub fn open(&mut self, zone: usize, results: Vec<Option<Out>>)
        requires there { HasNoResults self.old.nodes zone }
        requires results { HasRoom self.old.nodes.sizes results.items }
        ensures { Changes self.old (with_results self.old.nodes zone results.items) self.new }
    {
        self.parts.set_results(zone, results);
        self.progress.want_results(&self.parts, zone);
        self.progress.settle(&self.parts);
    }

    /// An input of a node has its value.
    ///
    /// Condition: the node has this input.
    pub fn fill(&mut self, node: usize, input: usize)
        requires { HasInput self.old.nodes node input }
        ensures { Changes self.old (with_value self.old.nodes node input) self.new }
    {
        self.parts.set_value(node, input);
        self.progress.look_at_used(&self.parts, node);
    }

    /// An import has its answer.
    ///
    /// Condition: the node is there.
    pub fn answer(&mut self, node: usize)
        requires { node < length self.old.nodes.sizes }
        ensures { Changes self.old (with_answer self.old.nodes node) self.new }
    {
        self.parts.set_answer(node);
        self.progress.look_at_used(&self.parts, node);
    }

    /// The nodes that are ready, in the order in which they became so: exactly the used ones for which
    /// all is there that they read, and which were not taken.
    pub fn ready(&self) -> &[usize]
        ensures list { result.now ≡ self.now.ready }
        ensures exact { IsExact self.now }
    {
        &self.progress.line.items()[self.taken..]
    }

    /// The nodes that are used, in the order in which they became so.
    pub fn used(&self) -> &[usize]
        ensures list { result.now ≡ self.now.used }
        ensures exact { IsExact self.now }
    {
        self.progress.used.items()
    }

    /// Whether the output is wanted.
    pub fn is_wanted(&self, out: Out) -> bool
        ensures { Decides result (Wanted self.now.nodes out) }
    {
        self.progress.wanted.has(out)
    }

    /// Takes the first node that is ready; there is none exactly where no node is ready.
    pub fn take(&mut self) -> Option<usize>
        ensures { TakesFirst self.old result self.new }
    {
        let node = *self.progress.line.items().get(self.taken)?;
        self.taken += 1;
        Some(node)
    }

    /// Whether there is a node with this output.
    pub fn has_output(&self, out: Out) -> bool
        ensures { Decides result (IsIn self.now.nodes.sizes out) }
    {
        self.progress.wanted.has_place(out)
    }

    /// Whether each input is a value, or comes from an output of a node that is there.
    pub fn are_there(&self, inputs: &[Option<Out>]) -> bool
        ensures { Decides result (HasRoom self.now.nodes.sizes inputs.now) }
    {
        for input in inputs {
            if !self.is_there(*input) {
                return false;
            }
        }
        true
    }

    fn is_there(&self, input: Option<Out>) -> bool
        ensures { Decides result (HasRoom self.now.nodes.sizes (input ∷ [])) }
    {
        match input {
            Some(out) => self.has_output(out),
            None => true,
        }
    }

    /// How many nodes there are.
    pub fn len(&self) -> usize
        ensures { result ≡ length self.now.nodes.sizes }
    {
        self.progress.wanted.nodes()
    }

    /// Whether the node is there, and has an input with this number.
    pub fn has_input(&self, node: usize, input: usize) -> bool
        ensures { Decides result (HasInput self.now.nodes node input) }
    {
        node < self.progress.wanted.nodes() && self.parts.has_input(node, input)
    }

    /// Whether the node is there, and is a switch that has not chosen.
    pub fn is_unchosen(&self, node: usize) -> bool
        ensures { Decides result (IsUnchosen self.now.nodes node) }
    {
        node < self.progress.wanted.nodes() && self.parts.is_unchosen(node)
    }

    /// Whether the node is there, and has no results.
    pub fn is_shut(&self, zone: usize) -> bool
        ensures { Decides result (HasNoResults self.now.nodes zone) }
    {
        zone < self.progress.wanted.nodes() && self.parts.is_shut(zone)
    }
}
