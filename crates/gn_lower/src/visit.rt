ghost use Rattle.std.specs.Prelude.{◌≡◌, ℕ, None, IfOk, length};
ghost use Rattle.gn_lower.specs.Carried.{output_in};

use crate::carried::{Carried, Source, narrow};
use gn_memory::Memory;
use gn_table::{Read, Site, Table};
use std::alloc::Global;

/// What stands for a node of a list.
#[derive(Drop)]
pub(crate) enum Made {
    /// It is not unfolded yet.
    Nothing,
    /// A node of the graph, by its number.
    Node { number: u64 },
    /// What the outputs of a group node come from.
    Group { outputs: Vec<Carried> },
}

/// A list of nodes that is unfolded, node by node.
#[derive(Drop)]
pub(crate) struct Visit<'s, 't> {
    pub(crate) table: &'s Table<'t>,
    /// The position in the order of the node that comes next.
    pub(crate) next: usize,
    /// What the inputs of the list come from; of the tree's own list the graph's input.
    entries: Vec<Carried>,
    /// For each node of the list what stands for it.
    made: Vec<Made>,
}

/// Nothing stands for these nodes yet.
fn nothing_made(alloc: Global, count: usize) -> Result<Vec<Made>, Memory>
    ensures { IfOk result (λ made. (length made.items ≡ count) × ((node : ℕ) (socket : ℕ) → output_in made.items node socket ≡ None)) }
{
    let mut made = Vec::with_capacity(alloc, count)?;
    'each: for _ in 0..count {
        made.push(Made::Nothing)?;
    }
    Ok(made)
}

impl<'s, 't> Visit<'s, 't> {
    ghost use Rattle.std.specs.Prelude.{◌≡◌, ◌<◌, [], Some, length, All, IfOk, IsSome, map, slice_set};
    ghost use Rattle.gn_node_set.specs.Lists.{all_of};
    ghost use Rattle.gn_lower.specs.Carried.{Begins, Makes, came_from, came_in, came_of, output_in};

    pub(crate) fn new(
        alloc: Global,
        table: &'s Table<'t>,
        entries: Vec<Carried>,
    ) -> Result<Visit<'s, 't>, Memory>
        ensures { IfOk result (λ visit. Begins table.now (map came_of entries.items) visit) }
    {
        let made = nothing_made(alloc, table.rows.len())?;
        Ok(Visit {
            table,
            next: 0,
            entries,
            made,
        })
    }

    /// What an output of a node comes from.
    fn output(&self, alloc: Global, node: usize, socket: usize) -> Result<Carried, Memory>
        requires { IsSome (output_in self.now.made.items node socket) }
        ensures { IfOk result (λ carried. output_in self.now.made.items node socket ≡ Some (came_of carried)) }
    {
        match &self.made[node] {
            Made::Nothing => unreachable!(),
            Made::Node { number } => {
                let socket = narrow(socket)?;
                let source = Source::Out {
                    node: *number,
                    socket,
                };
                Ok(Carried::plain(alloc, source))
            }
            Made::Group { outputs } => outputs[socket].copy(alloc),
        }
    }

    /// What a site of the list has comes from there.
    fn came(&self, alloc: Global, site: Site) -> Result<Carried, Memory>
        requires { IsSome (came_from self.now site) }
        ensures { IfOk result (λ carried. came_from self.now site ≡ Some (came_of carried)) }
    {
        match site {
            Site::Output { node, socket } => self.output(alloc, node, socket),
            Site::Entry { number } => self.entries[number].copy(alloc),
            Site::Constant { constant } => {
                Ok(Carried::plain(alloc, Source::Constant { constant }))
            }
            Site::Nowhere => unreachable!(),
        }
    }

    /// What is read comes from there.
    pub(crate) fn carried(&self, alloc: Global, read: Read) -> Result<Carried, Memory>
        requires { IsSome (came_in self.now read) }
        ensures { IfOk result (λ carried. came_in self.now read ≡ Some (came_of carried)) }
    {
        self.came(alloc, read.site)?.at_socket(read.conversion)
    }

    /// What all that is read comes from.
    pub(crate) fn all_carried(&self, alloc: Global, reads: &[Read]) -> Result<Vec<Carried>, Memory>
        requires { All (λ read. IsSome (came_in self.now read)) reads.now }
        ensures { IfOk result (λ all. all_of (map (came_in self.now) reads.now) ≡ Some (map came_of all.items)) }
    {
        let mut all = Vec::with_capacity(alloc, reads.len())?;
        for read in reads {
            all.push(self.carried(alloc, *read)?)?;
        }
        Ok(all)
    }

    /// That stands for the node that comes next, and the one behind it comes next.
    pub(crate) fn make(&mut self, node: usize, made: Made)
        requires { (node < length self.old.made.items) × (self.old.next < length self.old.table.now.order.items) }
        ensures { Makes self.old node made self.new }
    {
        self.made[node] = made;
        self.next += 1;
    }
}
