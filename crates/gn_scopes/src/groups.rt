ghost use Rattle.std.specs.Prelude.{◌≡◌, [], IfOk, map, slice_get};
ghost use Rattle.std.specs.Option.{option_map_or};
ghost use Rattle.gn_tree.specs.Seen.{group_of};
ghost use Rattle.gn_rules.specs.Sockets.{group_names, group_named};
ghost use Rattle.gn_scopes.specs.Groups.{lists_in, side_of, sockets_in};

use crate::sockets::Sockets;
use gn_measure::Measures;
use gn_memory::Memory;
use gn_tree::Group;
use std::alloc::Global;

/// Which sockets of a group are meant.
#[derive(Clone, Copy)]
pub enum Side {
    Inputs,
    Outputs,
}

/// The groups of a tree, with what is looked up of them by name.
#[derive(Drop)]
pub struct Groups<'a> {
    pub list: &'a [Group],
    inputs: Vec<Sockets<'a>>,
    outputs: Vec<Sockets<'a>>,
    pub(crate) none: Sockets<'a>,
    pub measures: Measures<'a>,
    ghost named: { measures.names ≡ group_names (map group_of list.now) },
    ghost with_inputs: { lists_in inputs.items ≡ map (λ g. g.inputs) (map group_of list.now) },
    ghost with_outputs: { lists_in outputs.items ≡ map (λ g. g.outputs) (map group_of list.now) },
    ghost without: { none.list.now ≡ [] },
    ghost measured: { measures.groups.now ≡ list.now },
}

fn sockets_of<'a>(alloc: Global, group: &'a Group, side: Side) -> Result<Sockets<'a>, Memory>
    ensures { IfOk result (λ sockets. sockets_in sockets ≡ side_of side (group_of group.now)) }
{
    match side {
        Side::Inputs => Sockets::new(alloc, &group.inputs),
        Side::Outputs => Sockets::new(alloc, &group.outputs),
    }
}

fn all_sockets<'a>(alloc: Global, list: &'a [Group], side: Side) -> Result<Vec<Sockets<'a>>, Memory>
    ensures { IfOk result (λ sockets. lists_in sockets.items ≡ map (side_of side) (map group_of list.now)) }
{
    let mut sockets = Vec::with_capacity(alloc, list.len())?;
    for group in list {
        sockets.push(sockets_of(alloc, group, side)?)?;
    }
    Ok(sockets)
}

impl<'a> Groups<'a> {
    ghost use Rattle.gn_scopes.specs.Seen.{groups_in};

    /// These groups, with look-ups of their names and sockets, and their measures.
    pub fn new(alloc: Global, list: &'a [Group]) -> Result<Groups<'a>, Memory>
        ensures { IfOk result (λ groups. groups.list.now ≡ list.now) }
    {
        let inputs = all_sockets(alloc, list, Side::Inputs)?;
        let outputs = all_sockets(alloc, list, Side::Outputs)?;
        let none = Sockets::new(alloc, &[])?;
        let measures = Measures::new(alloc, list)?;
        Ok(Groups {
            list,
            inputs,
            outputs,
            none,
            measures,
        })
    }

    fn side(&self, side: Side) -> &[Sockets<'a>]
        ensures { lists_in result.now ≡ map (side_of side) (groups_in self.now) }
    {
        match side {
            Side::Inputs => self.inputs.as_slice(),
            Side::Outputs => self.outputs.as_slice(),
        }
    }

    /// The inputs or the outputs of the group with that number; none where there is no such group.
    pub fn at(&self, side: Side, position: usize) -> &Sockets<'a>
        ensures { sockets_in result.now
            ≡ option_map_or (side_of side) (slice_get (groups_in self.now) position) [] }
    {
        let all = self.side(side);
        if position < all.len() {
            return &all[position];
        }
        &self.none
    }

    /// The inputs or the outputs of the group with that name; none where there is no such group.
    pub fn sockets(&self, side: Side, name: &str) -> &Sockets<'a>
        ensures { sockets_in result.now
            ≡ option_map_or (side_of side) (group_named (groups_in self.now) name.now) [] }
    {
        let Some(position) = self.measures.names.first(name) else {
            return &self.none;
        };
        self.at(side, position)
    }
}
