ghost use Rattle.std.specs.Prelude.{◌≡◌, ◌-◌, ◌^◌, length, min, option_map, slice_get};
ghost use Rattle.gn_lazy.specs.Graphs.{AreThere, LinksLeadBack, Adds, Roots, first_bad, is_there, no_nodes};

use crate::path::Path;
use gn_memory::Memory;
use smallvec::SmallVec;
use std::alloc::Global;
use std::marker::Model;
use thiserror::Error;

/// Where a value comes from.
#[derive(Clone, Copy, Debug, PartialEq, Eq)]
pub enum Origin {
    /// What the graph is given.
    Input,
    /// A constant of the graph, by its number.
    Constant { slot: u32 },
    /// An output of a node, both by their numbers.
    Out { node: u64, socket: u32 },
}

/// A link: where its value comes from, and how it is converted on its way.
#[derive(Drop)]
pub struct Link {
    /// Where the value comes from.
    pub origin: Origin,
    /// The kinds to which the value is converted in turn, each as its position in `ValueKind`.
    pub through: SmallVec<u8, 4, Global>,
}

/// A node of a graph.
#[derive(Drop)]
pub struct GraphNode<K> {
    /// Where the node came from.
    pub path: Path,
    /// What the node is.
    pub kind: K,
    /// The links of its inputs, in order; an input that takes a list has as many as it takes.
    pub inputs: Vec<Link>,
    /// How many outputs it has.
    pub outputs: u32,
}

/// Why a graph did not take a node or a root. It is then as before.
#[derive(Clone, Copy, Debug, PartialEq, Eq, Error)]
pub enum GraphFault {
    /// An origin is not there: an output of a node that the graph doesn't have, an output that its
    /// node doesn't have, or a constant past the last one.
    #[error("input {input} of node {node} leads to nothing")]
    BadLink {
        /// How many nodes the graph has.
        node: u64,
        /// The number of the first such input, or of the root; 2^32 - 1 where it is greater.
        input: u32,
    },
    /// There was no memory for it.
    #[error("out of memory")]
    Memory,
}

impl From<Memory> for GraphFault {
    ghost use Rattle.std.specs.Prelude.{◌≡◌};
    ghost use Rattle.gn_lazy.specs.declared.graph.GraphFault.TheVariants.{Memory};

    ghost from_gives = { λ _ fault. fault ≡ Memory };

    fn from(_: Memory) -> Self {
        GraphFault::Memory
    }
}

/// Nodes whose links lead to nodes that were added before them, and links to what the graph gives
/// out. Contracts see `Nodes`.
#[derive(Drop)]
pub struct Graph<K> {
    nodes: Vec<GraphNode<K>>,
    roots: Vec<Link>,
    constants: u32,
}

impl<K> Model for Graph<K> {
    ghost use Rattle.gn_lazy.specs.Graphs.{Nodes, IsOrdered};

    ghost Value = { Nodes K };

    ghost view = { λ g. record { nodes = g.nodes.items; roots = g.roots.items; constants = g.constants } };

    ghost invariant = { λ g. IsOrdered (record { nodes = g.nodes.items; roots = g.roots.items; constants = g.constants }) };
}

impl<K: Drop> Graph<K> {
    /// A graph with no node and no root, whose constants have the numbers below `constants`.
    pub fn new(alloc: Global, constants: u32) -> Graph<K>
        ensures { result ≡ no_nodes constants }
    {
        Graph {
            nodes: Vec::new(alloc),
            roots: Vec::new(alloc),
            constants,
        }
    }

    /// Adds a node, and gives its number.
    ///
    /// `BadLink` comes exactly where a link leads to nothing, with the graph's number of nodes and
    /// the first such input. A refusal changes nothing.
    pub fn add(&mut self, node: GraphNode<K>) -> Result<u64, GraphFault>
        ensures { Adds self.old node result self.new }
    {
        let number = self.len();
        if let Some(input) = self.first_bad(&node.inputs) {
            return Err(GraphFault::BadLink {
                node: number,
                input: stopped(input),
            });
        }
        if self.nodes.push(node).is_err() {
            return Err(GraphFault::Memory);
        }
        Ok(number)
    }

    /// Adds a link to what the graph gives out.
    ///
    /// `BadLink` comes exactly where it leads to nothing, with the graph's number of nodes and the
    /// number of roots before it. A refusal changes nothing.
    pub fn root(&mut self, link: Link) -> Result<(), GraphFault>
        ensures { Roots self.old link result self.new }
    {
        if !self.is_there(link.origin) {
            return Err(GraphFault::BadLink {
                node: self.len(),
                input: stopped(self.roots.len()),
            });
        }
        if self.roots.push(link).is_err() {
            return Err(GraphFault::Memory);
        }
        Ok(())
    }

    /// The node with this number. It is there exactly below `len`, and its links lead to nodes with
    /// lesser numbers.
    pub fn node(&self, node: u64) -> Option<&GraphNode<K>>
        ensures node { option_map (λ n. n.now) result ≡ slice_get self.now.nodes node }
        ensures back { LinksLeadBack self.now }
    {
        self.nodes.get(node as usize)
    }

    /// How many nodes the graph has.
    pub fn len(&self) -> u64
        ensures { result ≡ length self.now.nodes }
    {
        self.nodes.len() as u64
    }

    /// The links that `root` took, in order.
    pub fn roots(&self) -> &[Link]
        ensures links { result.now ≡ self.now.roots }
        ensures there { AreThere self.now.nodes self.now.constants self.now.roots }
    {
        &self.roots
    }

    /// How many constants there are.
    pub fn constants(&self) -> u32
        ensures { result ≡ self.now.constants }
    {
        self.constants
    }

    // Is there such a value?
    fn is_there(&self, origin: Origin) -> bool
        ensures { result ≡ is_there self.now.nodes self.now.constants origin }
    {
        match origin {
            Origin::Input => true,
            Origin::Constant { slot } => slot < self.constants,
            Origin::Out { node, socket } => self
                .nodes
                .get(node as usize)
                .is_some_and(|n| socket < n.outputs),
        }
    }

    // The first of the links that leads to nothing.
    fn first_bad(&self, links: &[Link]) -> Option<usize>
        ensures { result ≡ first_bad self.now links.now }
    {
        links.iter().position(|link| !self.is_there(link.origin))
    }
}

// A number, stopped at the last one of 32 bits.
fn stopped(number: usize) -> u32
    ensures { result ≡ min number (2 ^ 32 - 1) }
{
    u32::try_from(number).unwrap_or(u32::MAX)
}
