ghost use Rattle.std.specs.Prelude.{◌≡◌, IfOk, bytes_eq, find, map, option_map};
ghost use Rattle.gn_tree.specs.Seen.{input_of, link_of, named_of, nodes_of, settings_of};
ghost use Rattle.gn_rules.specs.Sockets as named;
ghost use Rattle.gn_tree.specs.Nodes.{kind_in, settings_in, inputs_in};

use crate::groups::{GroupList, Lists};
use crate::read::{Constant, Read, Site, passed, plain, zero};
use crate::sockets::Sockets;
use crate::walk::Frame;
use gn_kinds::SocketKind;
use gn_memory::Memory;
use gn_names::Names;
use gn_tree::{Node, Setting, Socket, TreeInput, TreeLink};
use std::alloc::Global;

/// A list of nodes, with what is looked up in it by name.
#[derive(Clone, Copy)]
pub(crate) struct List<'s, 't> {
    pub(crate) nodes: &'t [Node],
    pub(crate) ids: &'s Names<'t>,
    /// What links from `input` may name.
    pub(crate) entries: &'s Sockets<'t>,
    pub(crate) lists: &'s Lists<'t>,
    ghost with_ids: { ids.now ≡ named.ids (nodes_of nodes.now) },
}

/// What a node is.
#[derive(Clone, Copy)]
pub(crate) enum Part<'s, 't> {
    Group(&'s GroupList<'t>),
    SetPosition,
    /// A node of another kind.
    Other,
}

/// What the settings of a node hold.
#[derive(Clone, Copy)]
pub(crate) enum Inside<'s, 't> {
    Nothing,
    Group(&'s GroupList<'t>),
    Zone,
}

pub(crate) fn ids_of<'t>(alloc: Global, nodes: &'t [Node]) -> Result<Vec<&'t str>, Memory>
    ensures { IfOk result (λ texts. map (λ text. text.now) texts.items ≡ named.ids (nodes_of nodes.now)) }
{
    let mut ids = Vec::with_capacity(alloc, nodes.len())?;
    for node in nodes {
        ids.push(node.id())?;
    }
    Ok(ids)
}

/// What is written under a name.
fn written<'t>(inputs: &'t [(String, TreeInput)], name: &str) -> Option<&'t TreeInput>
    ensures { option_map (λ x. input_of x.now) result ≡ option_map (λ x. x.input) (find (λ x. bytes_eq name.now x.name) (map named_of inputs.now)) }
{
    for (key, input) in inputs {
        if name == key.as_str() {
            return Some(input);
        }
    }
    None
}

impl<'s, 't> List<'s, 't> {
    ghost use Rattle.std.specs.Prelude.{◌≡◌, ℕ, Some, map, slice_get};
    ghost use Rattle.gn_kinds.specs.Row.{Text};
    ghost use Rattle.gn_tree.specs.Seen.{input_of, link_of, named_of, settings_of, socket_of};
    ghost use Rattle.gn_meaning.specs.Forms.{NodeHasForm};
    ghost use Rattle.gn_meaning.specs.Reads.{link_read};
    ghost use Rattle.gn_meaning.specs.Sites.{zero_at};
    ghost use Rattle.gn_origin.specs.Constants.{constant_of};
    ghost use Rattle.gn_origin.specs.Frames.{Frames, way_of};
    ghost use Rattle.gn_origin.specs.Nodes.{HasGroups, Holds, HoldsFirst, IsPart};
    ghost use Rattle.gn_origin.specs.Reading.{scope_of, tree_by, IsAt, IsRead, node_read, one_read, named_read};

    /// What a setting holds, if it holds nodes; a group that there is not holds nothing.
    fn inside_setting(self, setting: &Setting) -> Option<Inside<'s, 't>>
        ensures { HasGroups self.entry.lists.now → (above : ℕ) → HoldsFirst (scope_of self.entry above) setting.now result }
    {
        match setting {
            Setting::Group { name } => match self.lists.group(name) {
                Some(group) => Some(Inside::Group(group)),
                None => Some(Inside::Nothing),
            },
            Setting::Zone { .. } => Some(Inside::Zone),
            _ => None,
        }
    }

    /// What the first setting holds that holds nodes.
    fn inside(self, settings: &[Setting]) -> Inside<'s, 't>
        ensures { HasGroups self.entry.lists.now → (above : ℕ) (kind : Text) → Holds (scope_of self.entry above) kind (settings_of settings.now) result }
    {
        for setting in settings {
            if let Some(found) = self.inside_setting(setting) {
                return found;
            }
        }
        Inside::Nothing
    }

    pub(crate) fn part(self, node: &Node) -> Part<'s, 't>
        ensures { HasGroups self.entry.lists.now → (above : ℕ) → NodeHasForm node.now → IsPart (scope_of self.entry above) node.now result }
    {
        match self.inside(node.settings()) {
            Inside::Group(group) => {
                if node.kind() == "group" {
                    return Part::Group(group);
                }
                Part::Other
            }
            Inside::Zone => Part::Other,
            Inside::Nothing => {
                if node.kind() == "set_position" {
                    return Part::SetPosition;
                }
                Part::Other
            }
        }
    }

    /// What a link reads that leads from an output of a node.
    fn node_read(
        self,
        number: usize,
        node: &'t Node,
        kind: SocketKind,
        name: &str,
    ) -> Option<Read<'s, 't>>
        requires { slice_get self.nodes.now number ≡ Some node.now }
        ensures { (fs : Frames) (at : IsAt self.entry fs)
            → IsRead (tree_by self.entry) fs result (node_read at.body.scope (way_of fs) kind number node.now name.now) }
    {
        match self.part(node) {
            Part::Group(group) => {
                let (output, socket) = group.outputs.find(name)?;
                let frame = Frame {
                    number,
                    node,
                    group,
                };
                let site = Site::Group {
                    frame,
                    output,
                    socket,
                };
                Some(passed(site, socket.kind, kind))
            }
            Part::SetPosition => {
                if name == "geometry" {
                    let site = Site::Moved { number, node };
                    return Some(passed(site, SocketKind::Geometry, kind));
                }
                None
            }
            Part::Other => None,
        }
    }

    fn link_read(self, kind: SocketKind, link: &TreeLink) -> Option<Read<'s, 't>>
        ensures { (fs : Frames) (at : IsAt self.entry fs)
            → IsRead (tree_by self.entry) fs result (link_read at.body.scope (way_of fs) kind (link_of link.now)) }
    {
        if link.from.as_str() == "input" {
            let (number, socket) = self.entries.find(&link.socket)?;
            return Some(passed(Site::Entry { number, socket }, socket.kind, kind));
        }
        let number = self.ids.first(&link.from)?;
        let node = self.nodes.get(number)?;
        self.node_read(number, node, kind, &link.socket)
    }

    /// What an input of that kind reads, with what is written to it.
    pub(crate) fn input_read(self, kind: SocketKind, input: &TreeInput) -> Option<Read<'s, 't>>
        ensures { (fs : Frames) (at : IsAt self.entry fs)
            → IsRead (tree_by self.entry) fs result (one_read at.body.scope (way_of fs) kind (input_of input.now)) }
    {
        match input {
            TreeInput::Constant { value } => Some(plain(Constant::Value(*value))),
            TreeInput::Link { link } => self.link_read(kind, link),
            TreeInput::Links { .. } => None,
        }
    }

    /// What the input of that name reads, by what is written to the inputs.
    pub(crate) fn named_read(
        self,
        inputs: &[(String, TreeInput)],
        name: &str,
        kind: SocketKind,
        default: Constant,
    ) -> Option<Read<'s, 't>>
        ensures { (fs : Frames) (at : IsAt self.entry fs)
            → IsRead (tree_by self.entry) fs result (named_read at.body.scope (way_of fs) (map named_of inputs.now) name.now kind (constant_of default)) }
    {
        match written(inputs, name) {
            Some(input) => self.input_read(kind, input),
            None => Some(plain(default)),
        }
    }

    /// What a socket of a group reads, by what is written.
    pub(crate) fn socket_read(
        self,
        inputs: &[(String, TreeInput)],
        socket: &Socket,
    ) -> Option<Read<'s, 't>>
        ensures { (fs : Frames) (at : IsAt self.entry fs)
            → IsRead (tree_by self.entry) fs result (named_read at.body.scope (way_of fs) (map named_of inputs.now) (socket_of socket.now).name socket.now.kind (zero_at socket.now.kind)) }
    {
        self.named_read(inputs, &socket.name, socket.kind, zero(socket.kind))
    }
}
