ghost use Rattle.std.specs.Prelude.{◌≡◌, ◌++◌, [], List, IfOk, OnOk};
ghost use Rattle.gn_lazy.specs.declared.graph.GraphNode.{GraphNode};
ghost use Rattle.gn_tree.specs.declared.kind.Kind.{Kind};
ghost use Rattle.gn_table.specs.Reads.{kinds_of};
ghost use Rattle.gn_lower.specs.Carried.{IsOrigin};

use gn_lazy::{Link, Origin};
use gn_memory::Memory;
use gn_table::{Constant, kind_number};
use gn_tree::SocketKind;
use smallvec::SmallVec;
use std::alloc::Global;

/// A number as 32 bits; want of memory where it is greater, since no memory holds as many nodes, sockets or
/// constants.
pub(crate) fn narrow(number: usize) -> Result<u32, Memory>
    ensures { IfOk result (λ narrowed. narrowed ≡ number) }
{
    match u32::try_from(number) {
        Ok(narrowed) => Ok(narrowed),
        Err(_) => Err(Memory),
    }
}

/// Where a value comes from that goes no further back.
#[derive(Clone, Copy)]
pub(crate) enum Source {
    /// The tree's input.
    Input,
    Constant { constant: Constant },
    /// An output of a node of the graph, both by their numbers.
    Out { node: u64, socket: u32 },
}

/// Where a value comes from, and how it is converted on its way.
#[derive(Drop)]
pub(crate) struct Carried {
    pub(crate) source: Source,
    /// The kinds to which the value is converted in turn, by their numbers.
    pub(crate) through: SmallVec<u8, 4, Global>,
}

/// The origin of a source in a graph, whose constant is behind those of the graph.
fn origin_of(source: Source, constants: &mut Vec<Constant>) -> Result<Origin, Memory>
    ensures { IfOk result (λ origin. (nodes : List (GraphNode Kind)) → IsOrigin nodes source constants.old.items constants.new.items origin) }
{
    match source {
        Source::Input => Ok(Origin::Input),
        Source::Out { node, socket } => Ok(Origin::Out { node, socket }),
        Source::Constant { constant } => {
            let slot = narrow(constants.len())?;
            constants.push(constant)?;
            Ok(Origin::Constant { slot })
        }
    }
}

impl Carried {
    ghost use Rattle.std.specs.Prelude.{◌≡◌, ◌++◌, [], List, IfOk};
    ghost use Rattle.gn_lower.specs.Carried.{IsLink, came_of, plain};

    /// What comes from there as it is.
    pub(crate) fn plain(alloc: Global, source: Source) -> Carried
        ensures { came_of result ≡ plain source }
    {
        Carried {
            source,
            through: SmallVec::new(alloc),
        }
    }

    pub(crate) fn copy(&self, alloc: Global) -> Result<Carried, Memory>
        ensures { IfOk result (λ copy. came_of copy ≡ came_of self.now) }
    {
        let through = SmallVec::from_slice(alloc, self.through.as_slice())?;
        Ok(Carried {
            source: self.source,
            through,
        })
    }

    /// The same at a socket, where its value is converted if need be.
    pub(crate) fn at_socket(mut self, conversion: Option<SocketKind>) -> Result<Carried, Memory>
        ensures { IfOk result (λ carried. (carried.source ≡ self.source) × (carried.through.items ≡ self.through.items ++ kinds_of conversion)) }
    {
        let Some(kind) = conversion else {
            return Ok(self);
        };
        self.through.push(kind_number(kind))?;
        Ok(self)
    }

    /// A link of a graph that carries it, with its constant behind those of the graph.
    pub(crate) fn link(self, constants: &mut Vec<Constant>) -> Result<Link, Memory>
        ensures { IfOk result (λ link. (nodes : List (GraphNode Kind)) → IsLink nodes (came_of self) constants.old.items constants.new.items link) }
    {
        let origin = origin_of(self.source, constants)?;
        Ok(Link {
            origin,
            through: self.through,
        })
    }
}
