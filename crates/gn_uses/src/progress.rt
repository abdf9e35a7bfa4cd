ghost use Rattle.std.specs.Prelude.{◌<◌, [], length, is_ok};
ghost use Rattle.gn_uses.specs.Sets.{IsIn};
ghost use Rattle.gn_uses.specs.Nodes.{HasRoom, results};
ghost use Rattle.gn_uses.specs.Marks as marks;
ghost use Rattle.gn_uses.specs.Parts.{nodes_of};
ghost use Rattle.gn_uses.specs.Progress.{marks_of, IsAtStart, HasGrown, Becomes, AreRightSoFar, CanGoOn, HasSettled};

use crate::nodes::{Parts, want};
use crate::numbers::Numbers;
use crate::outputs::{Out, Outputs};
use gn_memory::Memory;
use std::alloc::Global;

/// What is marked by now, and how far.
#[derive(Drop)]
pub(crate) struct Progress {
    /// The outputs that are wanted.
    pub(crate) wanted: Outputs,
    /// How many of these were followed.
    pub(crate) followed: usize,
    /// The nodes that are used.
    pub(crate) used: Numbers,
    /// The used nodes that are full.
    pub(crate) line: Numbers,
    /// How many inputs of each node are known to have values, from the first one on.
    pub(crate) cursors: Vec<usize>,
}

impl Progress {
    /// Nothing is marked, of no node.
    pub(crate) fn new(alloc: Global) -> Progress
        ensures { IsAtStart result }
    {
        Progress {
            wanted: Outputs::new(alloc),
            followed: 0,
            used: Numbers::new(alloc),
            line: Numbers::new(alloc),
            cursors: Vec::new(alloc),
        }
    }

    /// Makes room for the marks of one more node with this number of outputs. A refusal leaves the
    /// marks and the numbers of outputs.
    pub(crate) fn grow(&mut self, outputs: usize) -> Result<(), Memory>
        ensures { HasGrown self.old outputs (is_ok result) self.new }
    {
        self.cursors.truncate(self.wanted.nodes());
        self.cursors.push(0)?;
        self.used.grow()?;
        self.line.grow()?;
        self.wanted.grow(outputs)?;
        Ok(())
    }

    /// Puts the node into the line, if it is used and full.
    pub(crate) fn look_at_used(&mut self, parts: &Parts, node: usize)
        requires can { CanGoOn parts.now self.old }
        requires there { node < length self.old.wanted.sizes }
        ensures { Becomes parts.now self.old (marks.looked_at (nodes_of parts.now []) (marks_of self.old) node) self.new }
    {
        if !self.used.has(node) {
            return;
        }
        self.look_at(parts, node);
    }

    /// What the node needs by now is wanted, if it is used.
    pub(crate) fn feed_again(&mut self, parts: &Parts, node: usize)
        requires can { CanGoOn parts.now self.old }
        requires there { node < length self.old.wanted.sizes }
        ensures { Becomes parts.now self.old (marks.fed_again (nodes_of parts.now []) (marks_of self.old) node) self.new }
    {
        if !self.used.has(node) {
            return;
        }
        parts.want_needs(node, &mut self.wanted);
        self.look_at(parts, node);
    }

    /// An output is wanted.
    pub(crate) fn want(&mut self, parts: &Parts, root: Out)
        requires can { CanGoOn parts.now self.old }
        requires there { IsIn self.old.wanted.sizes root }
        ensures { Becomes parts.now self.old (marks.rooted (marks_of self.old) root) self.new }
    {
        self.wanted.put(root);
    }

    /// What the wanted outputs of a zone come from is wanted.
    pub(crate) fn want_results(&mut self, parts: &Parts, zone: usize)
        requires can { CanGoOn parts.now self.old }
        requires there { HasRoom self.old.wanted.sizes (results (nodes_of parts.now []) zone) }
        ensures { Becomes parts.now self.old (marks.opened (nodes_of parts.now []) (marks_of self.old) zone) self.new }
    {
        parts.want_results(zone, &mut self.wanted);
    }

    /// Puts a used node into the line, once it is full.
    fn look_at(&mut self, parts: &Parts, node: usize)
        requires can { CanGoOn parts.now self.old }
        requires there { node < length self.old.wanted.sizes }
        ensures { Becomes parts.now self.old (marks.lined (nodes_of parts.now []) (marks_of self.old) node) self.new }
    {
        if parts.is_full(&mut self.cursors, node) {
            self.line.put(node);
        }
    }

    /// A node becomes used, and what it needs is wanted.
    fn enter(&mut self, parts: &Parts, node: usize)
        requires can { CanGoOn parts.now self.old }
        requires there { node < length self.old.wanted.sizes }
        ensures { Becomes parts.now self.old (marks.entered (nodes_of parts.now []) (marks_of self.old) node) self.new }
    {
        if !self.used.put(node) {
            return;
        }
        parts.want_needs(node, &mut self.wanted);
        self.look_at(parts, node);
    }

    /// Goes from a wanted output to its node, and to where the output comes from.
    fn follow(&mut self, parts: &Parts, out: Out)
        requires can { CanGoOn parts.now self.old }
        requires there { out.node < length self.old.wanted.sizes }
        ensures { Becomes parts.now self.old (marks.followed (nodes_of parts.now []) (marks_of self.old) out) self.new }
    {
        self.enter(parts, out.node);
        want(parts.result(out), &mut self.wanted);
    }

    /// Follows the wanted outputs until none is left.
    pub(crate) fn settle(&mut self, parts: &Parts)
        requires can { CanGoOn parts.now self.old }
        requires right { AreRightSoFar parts.now self.old }
        ensures { HasSettled parts.now self.old self.new }
    {
        while self.followed < self.wanted.items().len() {
            let out = self.wanted.items()[self.followed];
            self.followed += 1;
            self.follow(parts, out);
        }
    }
}
