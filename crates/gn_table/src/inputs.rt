ghost use Rattle.std.specs.Prelude.{◌≡◌, ◌++◌, [], Some, IfOk, OnOk, find, bytes_eq, map, option_map, slice_get};
ghost use Rattle.std.specs.Option.{option_map_or};
ghost use Rattle.gn_kinds.specs.Seen as seen;
ghost use Rattle.gn_tree.specs.Seen.{input_of, link_of, named_of, socket_of};
ghost use Rattle.gn_rules.specs.Sockets as named;
ghost use Rattle.gn_scopes.specs.Scopes.{entries_of};
ghost use Rattle.gn_scopes.specs.Seen.{groups_in, scope_of};
ghost use Rattle.gn_meaning.specs.Reads as meaning;
ghost use Rattle.gn_meaning.specs.Sites.{Way, at_input, at_output, nowhere, plain_read};
ghost use Rattle.gn_table.specs.Finding.{find_in, outputs_by, read_found};
ghost use Rattle.gn_table.specs.Reads.{read_of, reads_in};

use crate::constant::Constant;
use crate::outputs::Outputs;
use crate::read::{Read, Site, constant, nothing, passed};
use crate::sockets::{find_item, find_socket};
use gn_kinds::{DefaultValue, InputRow, SocketKind};
use gn_memory::Memory;
use gn_names::Names;
use gn_rules::Shape;
use gn_scopes::{Entries, Scope, Side, chosen, input_rows, input_shape, output_rows, single};
use gn_tree::{Node, Socket, TreeInput, TreeLink};
use std::alloc::Global;

/// What is written to the inputs of a node, or given out, by name.
#[derive(Drop)]
pub(crate) struct Written<'t> {
    list: &'t [(String, TreeInput)],
    names: Names<'t>,
    ghost named: { names ≡ map (λ x. x.name) (map named_of list.now) },
}

fn keys_of<'t>(alloc: Global, list: &'t [(String, TreeInput)]) -> Result<Vec<&'t str>, Memory>
    ensures { IfOk result (λ texts. map (λ text. text.now) texts.items ≡ map (λ x. x.name) (map named_of list.now)) }
{
    let mut texts = Vec::with_capacity(alloc, list.len())?;
    for (name, _) in list {
        texts.push(name.as_str())?;
    }
    Ok(texts)
}

impl<'t> Written<'t> {
    pub(crate) fn new(alloc: Global, list: &'t [(String, TreeInput)]) -> Result<Written<'t>, Memory>
        ensures { IfOk result (λ written. written.list.now ≡ list.now) }
    {
        let names = Names::new(alloc, keys_of(alloc, list)?)?;
        Ok(Written { list, names })
    }

    /// What is written under a name.
    fn find(&self, name: &str) -> Option<&'t TreeInput>
        ensures { option_map (λ x. input_of x.now) result ≡ option_map (λ x. x.input) (find (λ x. bytes_eq name.now x.name) (map named_of self.now.list.now)) }
    {
        match self.names.first(name) {
            Some(number) => match self.list.get(number) {
                Some((_, input)) => Some(input),
                None => None,
            },
            None => None,
        }
    }
}

/// The number and the kind of the entry of that name.
fn find_entry(entries: Entries<'_, '_>, name: &str) -> Option<(usize, SocketKind)>
    ensures { result ≡ find_in (entries_of entries.entry) name.now }
{
    match entries {
        Entries::Tree => {
            if name == "geometry" {
                return Some((0, SocketKind::Geometry));
            }
            None
        }
        Entries::Group(sockets) => find_socket(sockets, name),
        Entries::Zone(items) => find_item(items, name),
    }
}

/// The outputs of the node with that number.
#[tactic(auto, using(crate::proofs::Reading::outputs_seen))]
pub(crate) fn outputs_of<'s, 't>(
    scope: &'s Scope<'_, 't>,
    number: usize,
    node: &Node,
) -> Outputs<'s, 't>
    requires { slice_get scope.now.nodes.now.items number ≡ Some node.now }
    ensures { outputs_by result ≡ named.outputs_of (groups_in scope.now.groups.now) node.now }
{
    let settings = node.settings();
    Outputs {
        rows: output_rows(node.kind()),
        chosen: chosen(settings),
        others: scope.further(Side::Outputs, number, settings),
    }
}

/// What a link reads that leads from an input of the list.
fn entry_read(scope: &Scope<'_, '_>, kind: SocketKind, name: &str) -> Read
    ensures { (way : Way) → read_of way result ≡ read_found (at_input way) kind (find_in (entries_of scope.now.entries) name.now) }
{
    match find_entry(scope.entries, name) {
        Some((number, from)) => passed(Site::Entry { number }, from, kind),
        None => nothing(),
    }
}

/// What a link reads that leads from an output of this node, which has that number.
fn node_read(
    scope: &Scope<'_, '_>,
    number: usize,
    node: &Node,
    kind: SocketKind,
    name: &str,
) -> Read
    requires { slice_get scope.now.nodes.now.items number ≡ Some node.now }
    ensures { (way : Way) → read_of way result ≡ read_found (at_output way number) kind (find_in (named.outputs_of (groups_in scope.now.groups.now) node.now) name.now) }
{
    match outputs_of(scope, number, node).find(name) {
        Some((socket, from)) => {
            let site = Site::Output {
                node: number,
                socket,
            };
            passed(site, from, kind)
        }
        None => nothing(),
    }
}

/// What a link reads that leads from an output of the node with that number.
fn output_read(scope: &Scope<'_, '_>, number: usize, kind: SocketKind, name: &str) -> Read
    ensures { (way : Way) → read_of way result ≡ option_map_or (λ node. read_found (at_output way number) kind (find_in (named.outputs_of (groups_in scope.now.groups.now) node) name.now)) (slice_get scope.now.nodes.now.items number) (plain_read nowhere) }
{
    if number < scope.nodes.len() {
        return node_read(scope, number, &scope.nodes[number], kind, name);
    }
    nothing()
}

/// What a link to a socket of that kind reads.
#[tactic(auto, using(crate::proofs::Reading::entry_link, crate::proofs::Reading::node_link, crate::proofs::Reading::loose_link, gn_scopes::proofs::Grouping::node_at_seen))]
fn link_read(scope: &Scope<'_, '_>, kind: SocketKind, link: &TreeLink) -> Read
    ensures { (way : Way) → read_of way result ≡ meaning.link_read (scope_of scope.now) way kind (link_of link.now) }
{
    if link.from.as_str() == "input" {
        return entry_read(scope, kind, &link.socket);
    }
    match scope.ids.first(&link.from) {
        Some(number) => output_read(scope, number, kind, &link.socket),
        None => nothing(),
    }
}

/// Puts what links to a socket of that kind read behind other reads.
fn push_links(
    scope: &Scope<'_, '_>,
    kind: SocketKind,
    links: &[TreeLink],
    reads: &mut Vec<Read>,
) -> Result<(), Memory>
    ensures { OnOk result ((way : Way) → reads_in way reads.new.items ≡ reads_in way reads.old.items ++ map (meaning.link_read (scope_of scope.now) way kind) (map link_of links.now)) }
{
    for link in links {
        reads.push(link_read(scope, kind, link))?;
    }
    Ok(())
}

/// Puts what an input of that kind reads behind other reads.
pub(crate) fn push_input(
    scope: &Scope<'_, '_>,
    kind: SocketKind,
    input: &TreeInput,
    reads: &mut Vec<Read>,
) -> Result<(), Memory>
    ensures { OnOk result ((way : Way) → reads_in way reads.new.items ≡ reads_in way reads.old.items ++ meaning.input_reads (scope_of scope.now) way kind (input_of input.now)) }
{
    match input {
        TreeInput::Constant { value } => {
            reads.push(constant(Constant::Value(*value)))?;
            Ok(())
        }
        TreeInput::Link { link } => {
            reads.push(link_read(scope, kind, link))?;
            Ok(())
        }
        TreeInput::Links { links } => push_links(scope, kind, links, reads),
    }
}

/// Puts the default of a socket behind other reads; one for a list then has no members.
fn push_default(shape: Shape, default: DefaultValue, reads: &mut Vec<Read>) -> Result<(), Memory>
    ensures { OnOk result ((way : Way) → reads_in way reads.new.items ≡ reads_in way reads.old.items ++ meaning.unwritten shape default) }
{
    if shape.many {
        return Ok(());
    }
    reads.push(constant(Constant::of(shape.kind, default)))?;
    Ok(())
}

/// Puts what a socket reads behind other reads.
fn push_socket(
    scope: &Scope<'_, '_>,
    written: &Written<'_>,
    name: &str,
    shape: Shape,
    default: DefaultValue,
    reads: &mut Vec<Read>,
) -> Result<(), Memory>
    ensures { OnOk result ((way : Way) → reads_in way reads.new.items
        ≡ reads_in way reads.old.items ++ meaning.socket_reads (scope_of scope.now) way (map named_of written.now.list.now) (record { name = name.now; shape = shape }) default) }
{
    match written.find(name) {
        Some(input) => push_input(scope, shape.kind, input, reads),
        None => push_default(shape, default, reads),
    }
}

fn default_of(row: InputRow) -> DefaultValue
    ensures { result ≡ meaning.default_of (seen.input_of row) }
{
    match row {
        InputRow::Field(_, _, default) => default,
        InputRow::Single(_, _, default) => default,
        InputRow::Geometry(_) => DefaultValue::Zero,
        InputRow::Geometries(_) => DefaultValue::Zero,
        InputRow::Chosen(_, default) => default,
    }
}

/// Puts what an input of a row of the table reads behind other reads.
#[tactic(auto, using(gn_scopes::proofs::Naming::input_named))]
fn push_row(
    scope: &Scope<'_, '_>,
    written: &Written<'_>,
    row: InputRow,
    chosen: SocketKind,
    reads: &mut Vec<Read>,
) -> Result<(), Memory>
    ensures { OnOk result ((way : Way) → reads_in way reads.new.items
        ≡ reads_in way reads.old.items ++ meaning.socket_reads (scope_of scope.now) way (map named_of written.now.list.now) (named.input_of_row chosen (seen.input_of row)) (meaning.default_of (seen.input_of row))) }
{
    let shape = input_shape(row, chosen);
    push_socket(scope, written, row.name(), shape, default_of(row), reads)
}

/// Puts what the inputs of a row of the table read behind other reads.
fn push_rows(
    scope: &Scope<'_, '_>,
    written: &Written<'_>,
    rows: &'static [InputRow],
    chosen: SocketKind,
    reads: &mut Vec<Read>,
) -> Result<(), Memory>
    ensures { OnOk result ((way : Way) → reads_in way reads.new.items
        ≡ reads_in way reads.old.items ++ meaning.reads_of (scope_of scope.now) way (map named_of written.now.list.now) (map (named.input_of_row chosen) (map seen.input_of rows.now)) (map meaning.default_of (map seen.input_of rows.now))) }
{
    for row in rows {
        push_row(scope, written, *row, chosen, reads)?;
    }
    Ok(())
}

/// Puts what sockets of a group or a zone read behind other reads.
pub(crate) fn push_sockets(
    scope: &Scope<'_, '_>,
    written: &Written<'_>,
    sockets: &[Socket],
    reads: &mut Vec<Read>,
) -> Result<(), Memory>
    ensures { OnOk result ((way : Way) → reads_in way reads.new.items
        ≡ reads_in way reads.old.items ++ meaning.reads_of (scope_of scope.now) way (map named_of written.now.list.now) (map named.one_of (map socket_of sockets.now)) []) }
{
    for socket in sockets {
        let shape = single(socket.kind);
        push_socket(
            scope,
            written,
            &socket.name,
            shape,
            DefaultValue::Zero,
            reads,
        )?;
    }
    Ok(())
}

/// What the inputs of the node with that number read, in the order of its sockets.
#[tactic(auto, using(crate::proofs::Reading::reads_in_turn))]
pub(crate) fn node_reads(
    alloc: Global,
    scope: &Scope<'_, '_>,
    number: usize,
    node: &Node,
) -> Result<Vec<Read>, Memory>
    requires { slice_get scope.now.nodes.now.items number ≡ Some node.now }
    ensures { IfOk result (λ reads. (way : Way) → reads_in way reads.items ≡ meaning.node_reads (scope_of scope.now) way node.now) }
{
    let written = Written::new(alloc, node.inputs())?;
    let settings = node.settings();
    let rows = input_rows(node.kind());
    let others = scope.further(Side::Inputs, number, settings);
    let mut reads = Vec::with_capacity(alloc, rows.len() + others.list.len())?;
    push_rows(scope, &written, rows, chosen(settings), &mut reads)?;
    push_sockets(scope, &written, others.list, &mut reads)?;
    Ok(reads)
}
