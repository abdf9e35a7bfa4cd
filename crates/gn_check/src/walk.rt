ghost use Rattle.std.specs.Prelude.{◌≡◌, None, Some, [], map, option_map, slice_get};
ghost use Rattle.gn_pointers.specs.Pointers.{key, index, joined};
ghost use Rattle.gn_pointers.specs.Seen.{step_of, pointer_of};
ghost use Rattle.gn_tree.specs.Seen.{group_of, input_of, link_of, named_of, nodes_of, settings_of};
ghost use Rattle.gn_tree.specs.Seen.{tree_of};
ghost use Rattle.gn_rules.specs.Walk as walk;
ghost use Rattle.gn_rules.specs.Walk.{breaks};
ghost use Rattle.gn_scopes.specs.Groups.{sockets_in};
ghost use Rattle.gn_scopes.specs.Scopes.{declared_by};
ghost use Rattle.gn_scopes.specs.Seen.{groups_in};
ghost use Rattle.gn_check.specs.Finds.{Finds, in_scope};
ghost use Rattle.gn_check.specs.Zones.{in_inputs_of_node, in_zone, in_results, in_parts, in_body};

use crate::broken::{
    group_name_breaks, input_breaks, link_breaks, name_breaks, node_breaks, tree_breaks,
};
use gn_kinds::SocketKind;
use gn_memory::Memory;
use gn_pointers::Step;
use gn_rules::{Shape, Sought};
use gn_scopes::{Entries, Groups, Inputs, Scope, Sockets, group_set, single, zone_set};
use gn_tree::{Group, Node, Setting, Tree, TreeInput, TreeLink, Zone};
use std::alloc::Global;
use std::collections::VecDeque;

/// Puts the step to the item with that number in front of a pointer that was found in the item.
fn at_number(found: Option<VecDeque<Step>>, number: usize) -> Result<Option<VecDeque<Step>>, Memory>
    ensures { Finds result (joined (index number) (option_map pointer_of found) None) }
{
    match found {
        Some(mut pointer) => {
            pointer.push_front(Step::Index(number as u64))?;
            Ok(Some(pointer))
        }
        None => Ok(None),
    }
}

/// Puts the step to the member with that key in front of a pointer that was found in the member.
fn at_key(
    alloc: Global,
    found: Option<VecDeque<Step>>,
    name: &str,
) -> Result<Option<VecDeque<Step>>, Memory>
    ensures { Finds result (joined (key name.now) (option_map pointer_of found) None) }
{
    match found {
        Some(mut pointer) => {
            pointer.push_front(Step::Key(String::from_str(alloc, name)?))?;
            Ok(Some(pointer))
        }
        None => Ok(None),
    }
}

/// The pointer of a value itself.
fn here(alloc: Global) -> Option<VecDeque<Step>>
    ensures { option_map pointer_of result ≡ Some [] }
{
    Some(VecDeque::new(alloc))
}

fn first_link(
    alloc: Global,
    scope: &Scope<'_, '_>,
    links: &[TreeLink],
) -> Result<Option<VecDeque<Step>>, Memory>
    ensures { Finds result (in_scope walk.first_link scope.now 0 (map link_of links.now)) }
{
    let mut number: usize = 0;
    for link in links {
        if link_breaks(scope, link) {
            return at_number(here(alloc), number);
        }
        number += 1;
    }
    Ok(None)
}

fn in_input(
    alloc: Global,
    scope: &Scope<'_, '_>,
    shape: Option<Shape>,
    input: &TreeInput,
) -> Result<Option<VecDeque<Step>>, Memory>
    ensures { Finds result (in_scope walk.in_input scope.now shape (input_of input.now)) }
{
    if input_breaks(scope, shape, input) {
        return Ok(here(alloc));
    }
    match input {
        TreeInput::Constant { .. } => Ok(None),
        TreeInput::Link { .. } => Ok(None),
        TreeInput::Links { links } => first_link(alloc, scope, links),
    }
}

/// The first pointer among inputs under the names of sockets, where these sockets are declared.
fn first_input(
    alloc: Global,
    scope: &Scope<'_, '_>,
    declared: &Inputs<'_, '_>,
    inputs: &[(String, TreeInput)],
) -> Result<Option<VecDeque<Step>>, Memory>
    ensures { Finds result
        (in_scope walk.first_input scope.now (declared_by declared.now) (map named_of inputs.now)) }
{
    for (name, input) in inputs {
        let found = in_input(alloc, scope, declared.find(name), input)?;
        if found.is_some() {
            return at_key(alloc, found, name);
        }
    }
    Ok(None)
}

/// The first pointer in what a list of nodes gives out under the names of these sockets.
fn in_output(
    alloc: Global,
    scope: &Scope<'_, '_>,
    sockets: &Sockets<'_>,
    output: &[(String, TreeInput)],
) -> Result<Option<VecDeque<Step>>, Memory>
    ensures { Finds result
        (in_scope walk.in_given_out scope.now (sockets_in sockets.now) (map named_of output.now)) }
{
    let declared = Inputs::of_sockets(sockets);
    first_input(alloc, scope, &declared, output)
}

fn in_sockets(
    alloc: Global,
    sought: Sought,
    sockets: &Sockets<'_>,
) -> Result<Option<VecDeque<Step>>, Memory>
    ensures { Finds result (walk.in_sockets (breaks sought) (sockets_in sockets.now)) }
{
    let mut number: usize = 0;
    for socket in sockets.list {
        if name_breaks(sought, &sockets.names, number, &socket.name) {
            return at_number(here(alloc), number);
        }
        number += 1;
    }
    Ok(None)
}

fn in_group_name(
    alloc: Global,
    scope: &Scope<'_, '_>,
    name: &str,
) -> Result<Option<VecDeque<Step>>, Memory>
    ensures { Finds result (in_scope walk.in_group_name scope.now name.now) }
{
    if group_name_breaks(scope, name) {
        return at_key(alloc, here(alloc), "group");
    }
    Ok(None)
}

/// The first pointer in a list of nodes.
#[cycle(walk)]
fn first_node(alloc: Global, scope: &Scope<'_, '_>) -> Result<Option<VecDeque<Step>>, Memory>
    ensures { Finds result
        (in_scope walk.first_node scope.now 0 (nodes_of scope.now.nodes.now.items)) }
{
    let mut number: usize = 0;
    for node in scope.nodes {
        let found = in_node(alloc, scope, number, node)?;
        if found.is_some() {
            return at_number(found, number);
        }
        number += 1;
    }
    Ok(None)
}

/// The first pointer in the inputs of a node.
fn in_inputs(
    alloc: Global,
    scope: &Scope<'_, '_>,
    number: usize,
    node: &Node,
) -> Result<Option<VecDeque<Step>>, Memory>
    requires { slice_get scope.now.nodes.now.items number ≡ Some node.now }
    ensures { Finds result (in_scope in_inputs_of_node scope.now node.now) }
{
    let declared = scope.inputs_of(number, node);
    first_input(alloc, scope, &declared, node.inputs())
}

#[cycle(walk)]
fn in_node<'t>(
    alloc: Global,
    scope: &Scope<'_, 't>,
    number: usize,
    node: &'t Node,
) -> Result<Option<VecDeque<Step>>, Memory>
    requires { slice_get scope.now.nodes.now.items number ≡ Some node.now }
    ensures { Finds result (in_scope walk.in_node scope.now number node.now) }
{
    if node_breaks(alloc, scope, number, node)? {
        return Ok(here(alloc));
    }
    let found = in_inputs(alloc, scope, number, node)?;
    if found.is_some() {
        return at_key(alloc, found, "in");
    }
    let found = in_settings(alloc, scope, node.settings())?;
    at_key(alloc, found, "set")
}

#[cycle(walk)]
fn in_settings<'t>(
    alloc: Global,
    scope: &Scope<'_, 't>,
    settings: &'t [Setting],
) -> Result<Option<VecDeque<Step>>, Memory>
    ensures { Finds result (in_scope walk.in_settings scope.now (settings_of settings.now)) }
{
    for setting in settings {
        if let Some(name) = group_set(setting) {
            return in_group_name(alloc, scope, name);
        }
        if let Some(zone) = zone_set(setting) {
            return in_zone(alloc, scope, zone);
        }
    }
    Ok(None)
}

#[cycle(walk)]
fn in_zone<'t>(
    alloc: Global,
    scope: &Scope<'_, 't>,
    zone: &'t Zone,
) -> Result<Option<VecDeque<Step>>, Memory>
    ensures { Finds result (in_scope in_zone scope.now zone.now) }
{
    let items = Sockets::new(alloc, &zone.items)?;
    let found = in_sockets(alloc, scope.sought, &items)?;
    if found.is_some() {
        return at_key(alloc, found, "items");
    }
    let entries = Entries::Zone(&items);
    let inner = Scope::new(
        alloc,
        scope.sought,
        &zone.nodes,
        entries,
        scope.groups,
        scope.above,
    )?;
    let found = first_node(alloc, &inner)?;
    if found.is_some() {
        return at_key(alloc, found, "nodes");
    }
    let found = in_output(alloc, &inner, &items, &zone.output)?;
    at_key(alloc, found, "output")
}

/// The first pointer in what a group gives out and in its outputs.
fn in_results(
    alloc: Global,
    scope: &Scope<'_, '_>,
    group: &Group,
) -> Result<Option<VecDeque<Step>>, Memory>
    ensures { Finds result (in_scope in_results scope.now (group_of group.now)) }
{
    let outputs = Sockets::new(alloc, &group.outputs)?;
    let found = in_output(alloc, scope, &outputs, &group.output)?;
    if found.is_some() {
        return at_key(alloc, found, "output");
    }
    let found = in_sockets(alloc, scope.sought, &outputs)?;
    at_key(alloc, found, "outputs")
}

/// The first pointer in the parts of the group with that number.
fn in_parts<'t>(
    alloc: Global,
    sought: Sought,
    groups: &Groups<'t>,
    number: usize,
    group: &'t Group,
) -> Result<Option<VecDeque<Step>>, Memory>
    ensures { Finds result
        (in_parts (breaks sought) (groups_in groups.now) number (group_of group.now)) }
{
    let inputs = Sockets::new(alloc, &group.inputs)?;
    let found = in_sockets(alloc, sought, &inputs)?;
    if found.is_some() {
        return at_key(alloc, found, "inputs");
    }
    let entries = Entries::Group(&inputs);
    let scope = Scope::new(alloc, sought, &group.nodes, entries, groups, number)?;
    let found = first_node(alloc, &scope)?;
    if found.is_some() {
        return at_key(alloc, found, "nodes");
    }
    in_results(alloc, &scope, group)
}

fn in_group<'t>(
    alloc: Global,
    sought: Sought,
    groups: &Groups<'t>,
    number: usize,
    group: &'t Group,
) -> Result<Option<VecDeque<Step>>, Memory>
    ensures { Finds result
        (walk.in_group (breaks sought) (groups_in groups.now) number (group_of group.now)) }
{
    if name_breaks(sought, &groups.measures.names, number, &group.name) {
        return Ok(here(alloc));
    }
    in_parts(alloc, sought, groups, number, group)
}

fn first_group(
    alloc: Global,
    sought: Sought,
    groups: &Groups<'_>,
) -> Result<Option<VecDeque<Step>>, Memory>
    ensures { Finds result
        (walk.first_group (breaks sought) (groups_in groups.now) 0 (groups_in groups.now)) }
{
    let mut number: usize = 0;
    for group in groups.list {
        let found = in_group(alloc, sought, groups, number, group)?;
        if found.is_some() {
            return at_number(found, number);
        }
        number += 1;
    }
    Ok(None)
}

/// The first pointer in the tree's own list of nodes and in what the tree gives out.
fn in_body<'t>(
    alloc: Global,
    sought: Sought,
    tree: &'t Tree,
    groups: &Groups<'t>,
) -> Result<Option<VecDeque<Step>>, Memory>
    requires { groups.now.list.now ≡ tree.now.groups.items }
    ensures { Finds result (in_body (breaks sought) (tree_of tree.now)) }
{
    let above = groups.list.len();
    let scope = Scope::new(alloc, sought, &tree.nodes, Entries::Tree, groups, above)?;
    let found = first_node(alloc, &scope)?;
    if found.is_some() {
        return at_key(alloc, found, "nodes");
    }
    match &tree.output {
        Some(input) => {
            let shape = Some(single(SocketKind::Geometry));
            let found = in_input(alloc, &scope, shape, input)?;
            at_key(alloc, found, "output")
        }
        None => Ok(None),
    }
}

/// The first pointer where the tree breaks one of the rules that are looked for.
pub(crate) fn in_tree<'t>(
    alloc: Global,
    sought: Sought,
    tree: &'t Tree,
    groups: &Groups<'t>,
) -> Result<Option<VecDeque<Step>>, Memory>
    requires { groups.now.list.now ≡ tree.now.groups.items }
    ensures { Finds result (walk.first_pointer (tree_of tree.now) sought) }
{
    let found = first_group(alloc, sought, groups)?;
    if found.is_some() {
        return at_key(alloc, found, "groups");
    }
    if tree_breaks(sought, groups, tree) {
        return at_key(alloc, here(alloc), "nodes");
    }
    in_body(alloc, sought, &*tree, &*groups)
}
