ghost use Rattle.std.specs.Prelude.{◌≡◌, [], Some, IfOk, IsSomeAnd, IsTrue, map, option_and_then, slice_get};
ghost use Rattle.std.specs.Option.{option_map_or};
ghost use Rattle.gn_cycle.specs.Ways.{is_on_cycle};
ghost use Rattle.gn_tree.specs.Seen.{link_of, nodes_of, settings_of};
ghost use Rattle.gn_rules.specs.Sockets as named;
ghost use Rattle.gn_rules.specs.Scopes as scopes;
ghost use Rattle.gn_rules.specs.Rules.{graph_of};
ghost use Rattle.gn_rules.specs.Sought.{has};
ghost use Rattle.gn_rules.specs.declared.rule.Rule.TheVariants as rule;
ghost use Rattle.gn_scopes.specs.Groups.{lists_in, side_of, sockets_in};
ghost use Rattle.gn_tree.specs.Nodes.{settings_in};
ghost use Rattle.gn_scopes.specs.Scopes as spec;
ghost use Rattle.gn_scopes.specs.Scopes.{entries_of, declared_by, items_of_node};

use crate::edges::edges_of;
use crate::groups::{Groups, Side};
use crate::setting::{chosen, group_in, items_in};
use crate::sockets::{Sockets, find_input, find_output, input_rows, single};
use gn_cycle::Graph;
use gn_kinds::{InputRow, SocketKind};
use gn_memory::Memory;
use gn_names::Names;
use gn_rules::{Rule, Shape, Sought};
use gn_tree::{Node, Setting, TreeLink};
use std::alloc::Global;

/// What links from `input` may name in a list of nodes.
#[derive(Clone, Copy)]
pub enum Entries<'s, 't> {
    /// The geometry that a tree is given.
    Tree,
    /// The inputs of a group.
    Group(&'s Sockets<'t>),
    /// The number of the iteration, and the items of a zone.
    Zone(&'s Sockets<'t>),
}

/// Inputs that are declared: those of a row of the table, and then others.
#[derive(Clone, Copy)]
pub struct Inputs<'s, 't> {
    rows: &'static [InputRow],
    chosen: SocketKind,
    others: &'s Sockets<'t>,
}

/// A list of nodes, with what the links in it may name, and with what the rules look at.
/// `'t` is the lifetime of the tree, and `'s` that of what is around the list.
#[derive(Drop)]
pub struct Scope<'s, 't> {
    /// The rules that are looked for.
    pub sought: Sought,
    pub nodes: &'t Vec<Node>,
    pub ids: Names<'t>,
    /// For each node the items of its zone.
    items: Vec<Sockets<'t>>,
    /// For the rule on order: which node leads to which.
    graph: Graph,
    pub entries: Entries<'s, 't>,
    pub groups: &'s Groups<'t>,
    /// How many of the groups are above.
    pub above: usize,
    ghost with_ids: { ids ≡ named.ids (nodes_of nodes.now.items) },
    ghost with_items: { lists_in items.items ≡ map items_of_node nodes.now.items },
    ghost with_graph: { graph ≡ spec.graph_for sought (nodes_of nodes.now.items) },
}

/// The ids of the nodes.
fn ids_of(alloc: Global, nodes: &[Node]) -> Result<Vec<&str>, Memory>
    ensures { IfOk result (λ texts. map (λ text. text.now) texts.items ≡ named.ids (nodes_of nodes.now)) }
{
    let mut texts = Vec::with_capacity(alloc, nodes.len())?;
    for node in nodes {
        texts.push(node.id())?;
    }
    Ok(texts)
}

fn items_of(alloc: Global, node: &Node) -> Result<Sockets<'_>, Memory>
    ensures { IfOk result (λ sockets. sockets_in sockets ≡ items_of_node node.now) }
{
    Sockets::new(alloc, items_in(node.settings()))
}

fn all_items(alloc: Global, nodes: &[Node]) -> Result<Vec<Sockets<'_>>, Memory>
    ensures { IfOk result (λ items. lists_in items.items ≡ map items_of_node nodes.now) }
{
    let mut items = Vec::with_capacity(alloc, nodes.len())?;
    for node in nodes {
        items.push(items_of(alloc, node)?)?;
    }
    Ok(items)
}

/// The graph of the nodes where the rule on order is looked for, and else an empty one.
fn graph_for(
    alloc: Global,
    sought: Sought,
    ids: &Names<'_>,
    nodes: &[Node],
) -> Result<Graph, Memory>
    requires { ids.now ≡ named.ids (nodes_of nodes.now) }
    ensures { IfOk result (λ graph. graph ≡ spec.graph_for sought (nodes_of nodes.now)) }
{
    if sought.has(Rule::Order) {
        let edges = edges_of(alloc, ids, nodes)?;
        return Graph::new(alloc, edges);
    }
    Graph::new(alloc, Vec::new(alloc))
}

/// What the entry of that name carries.
fn find_entry(entries: Entries<'_, '_>, name: &str) -> Option<Shape>
    ensures { result ≡ named.declared (entries_of entries.entry) name.now }
{
    match entries {
        Entries::Tree => {
            if name == "geometry" {
                return Some(single(SocketKind::Geometry));
            }
            None
        }
        Entries::Group(sockets) => sockets.find(name),
        Entries::Zone(items) => {
            if name == "iteration" {
                return Some(single(SocketKind::Int));
            }
            items.find(name)
        }
    }
}

impl<'s, 't> Scope<'s, 't> {
    ghost use Rattle.gn_scopes.specs.Seen.{groups_in, scope_of};

    /// The list of nodes as the rules look at it.
    pub fn new(
        alloc: Global,
        sought: Sought,
        nodes: &'t Vec<Node>,
        entries: Entries<'s, 't>,
        groups: &'s Groups<'t>,
        above: usize,
    ) -> Result<Scope<'s, 't>, Memory>
        ensures seen { IfOk result (λ scope. scope_of scope
            ≡ record { nodes = nodes_of nodes.now.items; entries = entries_of entries.entry; groups = groups_in groups.now; above = above }) }
        ensures looked_for { IfOk result (λ scope. scope.sought ≡ sought) }
    {
        let ids = Names::new(alloc, ids_of(alloc, nodes)?)?;
        let items = all_items(alloc, nodes)?;
        let graph = graph_for(alloc, sought, &ids, nodes)?;
        Ok(Scope {
            sought,
            nodes,
            ids,
            items,
            graph,
            entries,
            groups,
            above,
        })
    }

    /// The items of the zone of the node with that number.
    fn items(&self, number: usize) -> &Sockets<'t>
        ensures { sockets_in result.now
            ≡ option_map_or items_of_node (slice_get self.now.nodes.now.items number) [] }
    {
        if number < self.items.len() {
            return &self.items[number];
        }
        &self.groups.none
    }

    /// The further inputs or outputs of the node with that number, which has these settings.
    pub fn further(&self, side: Side, number: usize, settings: &[Setting]) -> &Sockets<'t>
        requires { IsSomeAnd (slice_get self.now.nodes.now.items number) (λ node. settings_in node ≡ settings_of settings.now) }
        ensures { sockets_in result.now
            ≡ named.further (side_of side) (groups_in self.now.groups.now) (settings_of settings.now) }
    {
        let Some(name) = group_in(settings) else {
            return self.items(number);
        };
        self.groups.sockets(side, name)
    }

    /// What the output of that name carries, of the node with that number.
    #[tactic(auto, using(crate::proofs::Finding::outputs_append))]
    fn output_of(&self, number: usize, node: &Node, name: &str) -> Option<Shape>
        requires { slice_get self.now.nodes.now.items number ≡ Some node.now }
        ensures { result ≡ named.declared (named.outputs_of (groups_in self.now.groups.now) node.now) name.now }
    {
        let settings = node.settings();
        match find_output(node.kind(), chosen(settings), name) {
            Some(shape) => Some(shape),
            None => self.further(Side::Outputs, number, settings).find(name),
        }
    }

    fn output(&self, number: usize, name: &str) -> Option<Shape>
        ensures { result ≡ option_and_then (λ node. named.declared (named.outputs_of (groups_in self.now.groups.now) node) name.now)
            (slice_get self.now.nodes.now.items number) }
    {
        if number < self.nodes.len() {
            return self.output_of(number, &self.nodes[number], name);
        }
        None
    }

    /// What the output carries that the link leads from.
    #[tactic(auto, using(crate::proofs::Grouping::node_at_seen))]
    pub fn source(&self, link: &TreeLink) -> Option<Shape>
        ensures { result ≡ scopes.source (scope_of self.now) (link_of link.now) }
    {
        if link.from.as_str() == "input" {
            return find_entry(self.entries, &link.socket);
        }
        match self.ids.first(&link.from) {
            Some(number) => self.output(number, &link.socket),
            None => None,
        }
    }

    /// The inputs of the node with that number.
    #[tactic(auto, using(crate::proofs::Finding::inputs_seen))]
    pub fn inputs_of(&self, number: usize, node: &Node) -> Inputs<'_, 't>
        requires { slice_get self.now.nodes.now.items number ≡ Some node.now }
        ensures { declared_by result ≡ named.inputs_of (groups_in self.now.groups.now) node.now }
    {
        let settings = node.settings();
        Inputs {
            rows: input_rows(node.kind()),
            chosen: chosen(settings),
            others: self.further(Side::Inputs, number, settings),
        }
    }

    /// Whether a group with that name is above.
    pub fn is_above(&self, name: &str) -> bool
        ensures { result ≡ scopes.is_above (scope_of self.now) name.now }
    {
        match self.groups.measures.names.first(name) {
            Some(position) => position < self.above,
            None => false,
        }
    }

    /// Whether the node with that number leads back to itself. The rule on order is to be looked for.
    pub fn is_on_cycle(&self, alloc: Global, number: usize) -> Result<bool, Memory>
        requires { IsTrue (has self.now.sought rule.Order) }
        ensures { IfOk result (λ found. found ≡ is_on_cycle (graph_of (scope_of self.now).nodes) number) }
    {
        self.graph.is_on_cycle(alloc, number)
    }
}

impl<'s, 't> Inputs<'s, 't> {
    /// Inputs under the names of these sockets alone.
    pub fn of_sockets(sockets: &'s Sockets<'t>) -> Inputs<'s, 't>
        ensures { declared_by result ≡ map named.one_of (sockets_in sockets.now) }
    {
        Inputs {
            rows: &[],
            chosen: SocketKind::Geometry,
            others: sockets,
        }
    }

    /// What the first of these inputs with that name carries.
    #[tactic(auto, using(crate::proofs::Finding::declared_append))]
    pub fn find(&self, name: &str) -> Option<Shape>
        ensures { result ≡ named.declared (declared_by self.now) name.now }
    {
        match find_input(self.rows, self.chosen, name) {
            Some(shape) => Some(shape),
            None => self.others.find(name),
        }
    }
}
