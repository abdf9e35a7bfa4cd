ghost use Rattle.std.specs.Prelude.{◌≡◌, ◌<◌, ◌≤◌, ◌++◌, ◌∷◌, [], length, Decides, IfOk, OnErr};
ghost use Rattle.gn_uses.specs.Sets.{no_outputs, with_row, with_output, has_out, IsIn};

use crate::rows::{flag_of, flags_of, set_flag};
use gn_memory::Memory;
use std::alloc::Global;
use std::marker::Model;

/// An output of a node.
#[derive(Clone, Copy, Debug, PartialEq, Eq)]
pub struct Out {
    /// The node's number.
    pub node: usize,
    /// The number of the output, among those of the node.
    pub output: usize,
}

/// A set of outputs of nodes, in the order in which they came. There is room for all of them, so that
/// putting one in takes no memory.
#[derive(Drop)]
pub(crate) struct Outputs {
    flags: Vec<Vec<bool>>,
    items: Vec<Out>,
    total: usize,
}

impl Model for Outputs {
    ghost use Rattle.std.specs.Prelude.{vec_capacity};
    ghost use Rattle.gn_uses.specs.Sets.{OutputSet, HasFlags, rows_of, sizes_of};

    ghost Value = { OutputSet };

    ghost view = { λ s. record { sizes = sizes_of (rows_of s.flags.items); total = s.total; items = s.items.items } };

    ghost invariant = { λ s. HasFlags (rows_of s.flags.items) s.items.items s.total (vec_capacity s.items) };
}

impl Outputs {
    /// No output, of no node.
    pub(crate) fn new(alloc: Global) -> Outputs
        ensures { result ≡ no_outputs }
    {
        Outputs {
            flags: Vec::new(alloc),
            items: Vec::new(alloc),
            total: 0,
        }
    }

    /// Adds a node with this number of outputs, none of which is in the set. A refusal changes nothing.
    pub(crate) fn grow(&mut self, outputs: usize) -> Result<(), Memory>
        ensures ok { IfOk result (λ _. self.new ≡ with_row self.old outputs) }
        ensures err { OnErr result (self.new ≡ self.old) }
    {
        let Some(total) = self.total.checked_add(outputs) else {
            return Err(Memory);
        };
        let row = vec![in *self.flags.allocator(); false; outputs]?;
        self.items.reserve(total - self.items.len())?;
        self.flags.push(row)?;
        self.total = total;
        Ok(())
    }

    /// How many nodes there are.
    pub(crate) fn nodes(&self) -> usize
        ensures { result ≡ length self.now.sizes }
    {
        self.flags.len()
    }

    /// Whether there is a node with the output.
    pub(crate) fn has_place(&self, out: Out) -> bool
        ensures { Decides result (IsIn self.now.sizes out) }
    {
        out.output < flags_of(&self.flags, out.node).len()
    }

    /// Whether the output is in the set.
    pub(crate) fn has(&self, out: Out) -> bool
        ensures { result ≡ has_out self.now.items out }
    {
        flag_of(&self.flags, out.node, out.output)
    }

    /// Puts the output behind the others, if it is new.
    ///
    /// Condition: there is a node with it.
    pub(crate) fn put(&mut self, out: Out)
        requires { IsIn self.old.sizes out }
        ensures { self.new ≡ with_output self.old out }
    {
        if flag_of(&self.flags, out.node, out.output) {
            return;
        }
        set_flag(&mut self.flags, out.node, out.output);
        self.items.push_reserved(out);
    }

    /// The outputs, the first one first.
    pub(crate) fn items(&self) -> &[Out]
        ensures list { result.now ≡ self.now.items }
        ensures within { length self.now.items ≤ self.now.total }
    {
        &self.items
    }
}
