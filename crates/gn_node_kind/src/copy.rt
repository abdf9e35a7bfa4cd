//! Copies of parts of a tree.
ghost use Rattle.std.specs.Prelude.{◌≡◌, IfOk, map, string_bytes};
ghost use Rattle.gn_tree.specs.Seen.{group_of, input_of, link_of, named_of, nodes_of, setting_then, settings_of, socket_of};

use gn_memory::Memory;
use gn_tree::{Group, Node, Setting, Socket, TreeInput, TreeLink, Zone};
use std::alloc::Global;

fn link(link: &TreeLink) -> Result<TreeLink, Memory>
    ensures { IfOk result (λ copy. link_of copy ≡ link_of link.now) }
{
    let from = link.from.clone()?;
    let socket = link.socket.clone()?;
    Ok(TreeLink { from, socket })
}

fn links(alloc: Global, list: &[TreeLink]) -> Result<Vec<TreeLink>, Memory>
    ensures { IfOk result (λ copy. map link_of copy.items ≡ map link_of list.now) }
{
    let mut copy = Vec::with_capacity(alloc, list.len())?;
    for item in list {
        copy.push(link(item)?)?;
    }
    Ok(copy)
}

fn input(alloc: Global, input: &TreeInput) -> Result<TreeInput, Memory>
    ensures { IfOk result (λ copy. input_of copy ≡ input_of input.now) }
{
    match input {
        TreeInput::Constant { value } => Ok(TreeInput::Constant { value: *value }),
        TreeInput::Link { link: from } => Ok(TreeInput::Link { link: link(from)? }),
        TreeInput::Links { links: list } => Ok(TreeInput::Links {
            links: links(alloc, list)?,
        }),
    }
}

/// A copy of inputs under their names.
pub(crate) fn inputs(
    alloc: Global,
    list: &[(String, TreeInput)],
) -> Result<Vec<(String, TreeInput)>, Memory>
    ensures { IfOk result (λ copy. map named_of copy.items ≡ map named_of list.now) }
{
    let mut copy = Vec::with_capacity(alloc, list.len())?;
    for (name, value) in list {
        copy.push((name.clone()?, input(alloc, value)?))?;
    }
    Ok(copy)
}

/// A copy of sockets.
pub(crate) fn sockets(alloc: Global, list: &[Socket]) -> Result<Vec<Socket>, Memory>
    ensures { IfOk result (λ copy. map socket_of copy.items ≡ map socket_of list.now) }
{
    let mut copy = Vec::with_capacity(alloc, list.len())?;
    for socket in list {
        let name = socket.name.clone()?;
        copy.push(Socket {
            name,
            kind: socket.kind,
        })?;
    }
    Ok(copy)
}

#[cycle(copy)]
fn node(alloc: Global, node: &Node) -> Result<Node, Memory>
    ensures { IfOk result (λ copy. copy ≡ node.now) }
{
    let id = node.id.clone()?;
    let kind = node.kind.clone()?;
    let settings = settings(alloc, &node.settings)?;
    let inputs = inputs(alloc, &node.inputs)?;
    Ok(Node {
        id,
        kind,
        settings,
        inputs,
    })
}

#[cycle(copy)]
fn zone(alloc: Global, zone: &Zone) -> Result<Zone, Memory>
    ensures { IfOk result (λ copy. (map socket_of copy.items.items ≡ map socket_of zone.now.items.items) × (nodes_of copy.nodes.items ≡ nodes_of zone.now.nodes.items) × (map named_of copy.output.items ≡ map named_of zone.now.output.items)) }
{
    let items = sockets(alloc, &zone.items)?;
    let nodes = nodes(alloc, &zone.nodes)?;
    let output = inputs(alloc, &zone.output)?;
    Ok(Zone {
        items,
        nodes,
        output,
    })
}

#[cycle(copy)]
fn setting(alloc: Global, setting: &Setting) -> Result<Setting, Memory>
    ensures { IfOk result (λ copy. (rest : _) → setting_then copy rest ≡ setting_then setting.now rest) }
{
    match setting {
        Setting::Of { kind } => Ok(Setting::Of { kind: *kind }),
        Setting::Op { name } => Ok(Setting::Op {
            name: name.clone()?,
        }),
        Setting::Place { place } => Ok(Setting::Place { place: *place }),
        Setting::Clamp { on } => Ok(Setting::Clamp { on: *on }),
        Setting::Name { text } => Ok(Setting::Name {
            text: text.clone()?,
        }),
        Setting::File { name } => Ok(Setting::File {
            name: name.clone()?,
        }),
        Setting::Value { value } => Ok(Setting::Value { value: *value }),
        Setting::Group { name } => Ok(Setting::Group {
            name: name.clone()?,
        }),
        Setting::Zone { zone: body } => Ok(Setting::Zone {
            zone: zone(alloc, body)?,
        }),
    }
}

#[cycle(copy)]
fn settings(alloc: Global, list: &Vec<Setting>) -> Result<Vec<Setting>, Memory>
    ensures { IfOk result (λ copy. settings_of copy.items ≡ settings_of list.now.items) }
{
    let mut copy = Vec::with_capacity(alloc, list.len())?;
    for item in list {
        copy.push(setting(alloc, item)?)?;
    }
    Ok(copy)
}

/// A copy of nodes.
#[cycle(copy)]
pub(crate) fn nodes(alloc: Global, list: &Vec<Node>) -> Result<Vec<Node>, Memory>
    ensures { IfOk result (λ copy. nodes_of copy.items ≡ nodes_of list.now.items) }
{
    let mut copy = Vec::with_capacity(alloc, list.len())?;
    for item in list {
        copy.push(node(alloc, item)?)?;
    }
    Ok(copy)
}

fn group(alloc: Global, group: &Group) -> Result<Group, Memory>
    ensures { IfOk result (λ copy. group_of copy ≡ group_of group.now) }
{
    let name = group.name.clone()?;
    let inputs_copy = sockets(alloc, &group.inputs)?;
    let outputs = sockets(alloc, &group.outputs)?;
    let nodes = nodes(alloc, &group.nodes)?;
    let output = inputs(alloc, &group.output)?;
    Ok(Group {
        name,
        inputs: inputs_copy,
        outputs,
        nodes,
        output,
    })
}

/// A copy of groups.
pub fn copy_groups(alloc: Global, list: &[Group]) -> Result<Vec<Group>, Memory>
    ensures { IfOk result (λ copy. map group_of copy.items ≡ map group_of list.now) }
{
    let mut copy = Vec::with_capacity(alloc, list.len())?;
    for item in list {
        copy.push(group(alloc, item)?)?;
    }
    Ok(copy)
}
