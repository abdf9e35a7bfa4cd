ghost use Rattle.std.specs.Prelude.{◌≡◌, IfOk, map};
ghost use Rattle.gn_tree.specs.Seen.{group_of, nodes_of, socket_of, tree_of};
ghost use Rattle.gn_rules.specs.Sockets as named;
ghost use Rattle.gn_rules.specs.Rules.{KeepsRules};
ghost use Rattle.gn_meaning.specs.Forms.{HasForm};
ghost use Rattle.gn_origin.specs.Forms.{form_prop};
ghost use Rattle.gn_origin.specs.Looking.{own_sockets};

use crate::list::{List, ids_of};
use crate::sockets::Sockets;
use crate::walk::Frame;
use gn_memory::Memory;
use gn_names::Names;
use gn_tree::{Group, Socket, Tree};
use std::alloc::Global;
use std::collections::VecDeque;

/// A group, with what is looked up in it by name.
#[derive(Drop)]
pub(crate) struct GroupList<'t> {
    pub(crate) group: &'t Group,
    pub(crate) ids: Names<'t>,
    pub(crate) inputs: Sockets<'t>,
    pub(crate) outputs: Sockets<'t>,
    ghost with_ids: { ids ≡ named.ids (nodes_of group.now.nodes.items) },
    ghost with_inputs: { inputs.list.now ≡ group.now.inputs.items },
    ghost with_outputs: { outputs.list.now ≡ group.now.outputs.items },
}

impl<'t> GroupList<'t> {
    fn new(alloc: Global, group: &'t Group) -> Result<GroupList<'t>, Memory>
        ensures { IfOk result (λ list. list.group.now ≡ group.now) }
    {
        let ids = Names::new(alloc, ids_of(alloc, &group.nodes)?)?;
        let inputs = Sockets::new(alloc, &group.inputs)?;
        let outputs = Sockets::new(alloc, &group.outputs)?;
        Ok(GroupList {
            group,
            ids,
            inputs,
            outputs,
        })
    }
}

fn all_groups<'t>(alloc: Global, groups: &'t [Group]) -> Result<Vec<GroupList<'t>>, Memory>
    ensures { IfOk result (λ lists. map (λ list. list.group.now) lists.items ≡ groups.now) }
{
    let mut lists = Vec::with_capacity(alloc, groups.len())?;
    for group in groups {
        lists.push(GroupList::new(alloc, group)?)?;
    }
    Ok(lists)
}

fn names_of<'t>(alloc: Global, groups: &'t [Group]) -> Result<Vec<&'t str>, Memory>
    ensures { IfOk result (λ texts. map (λ text. text.now) texts.items ≡ named.group_names (map group_of groups.now)) }
{
    let mut names = Vec::with_capacity(alloc, groups.len())?;
    for group in groups {
        names.push(group.name.as_str())?;
    }
    Ok(names)
}

/// The lists of nodes of a tree: its own, and those of its groups.
#[derive(Drop)]
pub(crate) struct Lists<'t> {
    pub(crate) tree: &'t Tree,
    pub(crate) ids: Names<'t>,
    pub(crate) entries: Sockets<'t>,
    pub(crate) names: Names<'t>,
    pub(crate) groups: Vec<GroupList<'t>>,
    ghost with_ids: { ids ≡ named.ids (nodes_of tree.now.nodes.items) },
    ghost with_entries: { map socket_of entries.list.now ≡ own_sockets },
    ghost with_names: { names ≡ named.group_names (map group_of tree.now.groups.items) },
    ghost keeps: { KeepsRules (tree_of tree.now) },
    ghost form: { HasForm (tree_of tree.now) } by { form_prop (tree_of tree.now) },
}

impl<'t> Lists<'t> {
    ghost use Rattle.std.specs.Prelude.{◌≡◌, [], IfOk, map};
    ghost use Rattle.gn_tree.specs.Seen.{group_of, socket_of, tree_of};
    ghost use Rattle.gn_rules.specs.Rules.{KeepsRules};
    ghost use Rattle.gn_meaning.specs.Forms.{HasForm};
    ghost use Rattle.gn_origin.specs.Frames.{AreOpen};
    ghost use Rattle.gn_origin.specs.Looking.{own_sockets};
    ghost use Rattle.gn_origin.specs.Nodes.{HasGroups, IsNamed};
    ghost use Rattle.gn_origin.specs.Reading.{IsAt};

    pub(crate) fn new(
        alloc: Global,
        tree: &'t Tree,
        entries: &'t [Socket],
    ) -> Result<Lists<'t>, Memory>
        requires entries { map socket_of entries.now ≡ own_sockets }
        requires rules { KeepsRules (tree_of tree.now) × HasForm (tree_of tree.now) }
        ensures { IfOk result (λ lists. (lists.tree.now ≡ tree.now) × HasGroups lists) }
    {
        let ids = Names::new(alloc, ids_of(alloc, &tree.nodes)?)?;
        let entries = Sockets::new(alloc, entries)?;
        let names = Names::new(alloc, names_of(alloc, &tree.groups)?)?;
        let groups = all_groups(alloc, &tree.groups)?;
        Ok(Lists {
            tree,
            ids,
            entries,
            names,
            groups,
        })
    }

    /// The first group with that name.
    pub(crate) fn group<'s>(&'s self, name: &str) -> Option<&'s GroupList<'t>>
        ensures { HasGroups self.now → IsNamed (map group_of self.now.tree.now.groups.items) name.now result }
    {
        let number = self.names.first(name)?;
        let list = self.groups.get(number)?;
        Some(list)
    }

    /// The tree's own list.
    pub(crate) fn own<'s>(&'s self) -> List<'s, 't>
        requires { HasForm (tree_of self.now.tree.now) × HasGroups self.now }
        ensures { (result.lists.now ≡ self.now) × IsAt result [] }
    {
        List {
            nodes: &self.tree.nodes,
            ids: &self.ids,
            entries: &self.entries,
            lists: self,
        }
    }

    /// The list of a group.
    fn inside<'s>(&'s self, group: &'s GroupList<'t>) -> List<'s, 't>
        ensures same { result.lists.now ≡ self.now }
        ensures nodes { result.nodes.now ≡ group.now.group.now.nodes.items }
        ensures entries { result.entries.now.list.now ≡ group.now.group.now.inputs.items }
    {
        List {
            nodes: &group.group.nodes,
            ids: &group.ids,
            entries: &group.inputs,
            lists: self,
        }
    }

    /// The list at the end of a way, of which the innermost group node is the first.
    pub(crate) fn at_end<'s>(&'s self, frames: &VecDeque<Frame<'s, 't>>) -> List<'s, 't>
        requires { AreOpen (tree_of self.now.tree.now) frames.now.items × HasForm (tree_of self.now.tree.now) × HasGroups self.now }
        ensures { (result.lists.now ≡ self.now) × IsAt result frames.now.items }
    {
        match frames.front() {
            Some(frame) => self.inside(frame.group),
            None => self.own(),
        }
    }
}
