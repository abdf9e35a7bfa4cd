use gn_kinds::SocketKind;
use gn_value::{Place, Value};
use std::marker::Model;

/// A tree: its groups, its nodes and what it gives out. Not each `Tree` is of its form; those that are
/// read and those that are checked are.
#[derive(Drop)]
pub struct Tree {
    pub format: u32,
    pub groups: Vec<Group>,
    pub nodes: Vec<Node>,
    pub output: Option<TreeInput>,
}

/// A group: nodes that a group node stands for. What it gives out is named by the outputs, in the
/// order of the names' bytes.
#[derive(Drop)]
pub struct Group {
    pub name: String,
    pub inputs: Vec<Socket>,
    pub outputs: Vec<Socket>,
    pub nodes: Vec<Node>,
    pub output: Vec<(String, TreeInput)>,
}

/// An input or output that a group or a zone declares.
#[derive(Drop)]
pub struct Socket {
    pub name: String,
    pub kind: SocketKind,
}

/// What an input has.
#[derive(Drop)]
pub enum TreeInput {
    Constant { value: Value },
    Link { link: TreeLink },
    Links { links: Vec<TreeLink> },
}

/// A link from an output of a node, or from an input of the list that it is in.
#[derive(Drop)]
pub struct TreeLink {
    pub from: String,
    pub socket: String,
}

/// A node. Its settings are in the order of its kind's row, its inputs in that of the names' bytes.
#[cycle(tree)]
#[derive(Drop)]
pub struct Node {
    pub id: String,
    pub kind: String,
    pub settings: Vec<Setting>,
    pub inputs: Vec<(String, TreeInput)>,
}

/// A setting of a node. `Of` is the setting `type`, and `Zone` the three settings of a zone.
#[cycle(tree)]
#[derive(Drop)]
pub enum Setting {
    Of { kind: SocketKind },
    Op { name: String },
    Place { place: Place },
    Clamp { on: bool },
    Name { text: String },
    File { name: String },
    Value { value: Value },
    Group { name: String },
    Zone { zone: Zone },
}

/// The items of a zone, the nodes of its body, and what the body gives out by the items' names.
#[cycle(tree)]
#[derive(Drop)]
pub struct Zone {
    pub items: Vec<Socket>,
    pub nodes: Vec<Node>,
    pub output: Vec<(String, TreeInput)>,
}

impl Model for Node {
    ghost use Rattle.gn_tree.specs.Trees.{Node as TreeNode, node_size};
    ghost use Rattle.gn_tree.specs.Coding.{node_code};

    ghost Value = { TreeNode };

    ghost coded = { node_code };

    ghost use Rattle.gn_tree.specs.Seen.{node_of};

    ghost view = { λ n. node_of n.id n.kind n.settings.items n.inputs.items };

    ghost size = { node_size };

    ghost use Rattle.gn_tree.specs.Smaller.{most_settings};

    ghost size_decreases = { λ n h. most_settings n.settings.items };
}
