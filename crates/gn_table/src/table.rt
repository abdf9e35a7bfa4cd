ghost use Rattle.std.specs.Prelude.{◌≡◌, [], Some, IfOk, map, option_map, slice_get};
ghost use Rattle.gn_tree.specs.Seen.{group_of, input_of, nodes_of, tree_of};
ghost use Rattle.gn_rules.specs.Sockets.{one_of};
ghost use Rattle.gn_rules.specs.Rules.{KeepsRules, graph_of};
ghost use Rattle.gn_scopes.specs.Seen.{groups_in, scope_of};
ghost use Rattle.gn_meaning.specs.Bodies.{group_body, output_of, tree_body};
ghost use Rattle.gn_meaning.specs.Forms.{HasForm, NodeHasForm, NodesHaveForm};
ghost use Rattle.gn_meaning.specs.Reads.{reads_of};
ghost use Rattle.gn_meaning.specs.Sites.{Way};
ghost use Rattle.gn_stands.specs.Order as ranks;
ghost use Rattle.gn_order.specs.Acyclic.{IsAcyclic};
ghost use Rattle.gn_table.specs.Reads.{reads_in};
ghost use Rattle.gn_table.specs.Tables.{AreOrdered, AreRows, AreTables, HoldTables, IsPart, IsRow, IsTable, IsTableOf, group_at, tree_sockets};

use crate::constant::Constant;
use crate::inputs::{Written, node_reads, outputs_of, push_input, push_sockets};
use crate::read::{Read, constant};
use gn_kinds::SocketKind;
use gn_memory::Memory;
use gn_order::by_rank;
use gn_rules::{Rule, Sought};
use gn_scopes::{Entries, Groups, Scope, Sockets, edges_of, group_in};
use gn_tree::{Group, Node, Tree, TreeInput};
use std::alloc::Global;

/// What a node is.
#[derive(Clone, Copy)]
pub enum Part {
    /// A node that is run, with that many outputs. A zone is one.
    Run { outputs: usize },
    /// A node that stands for those of the group with that number.
    Group { number: usize },
}

/// A node of a list, and what it reads there.
#[derive(Drop)]
pub struct Row<'t> {
    pub node: &'t Node,
    pub part: Part,
    /// What its inputs read, in the order of its sockets.
    pub reads: Vec<Read>,
}

/// A list of nodes by numbers.
#[derive(Drop)]
pub struct Table<'t> {
    /// The nodes, by their numbers.
    pub rows: Vec<Row<'t>>,
    /// The numbers of the nodes, each behind all nodes that it links to.
    pub order: Vec<usize>,
    /// What the list gives out, in the order of its sockets.
    pub given: Vec<Read>,
}

/// The lists of nodes of a tree by numbers: its own, and those of its groups.
#[derive(Drop)]
pub struct Tables<'t> {
    pub tree: Table<'t>,
    pub groups: Vec<Table<'t>>,
}

/// The number of the group that the settings of a group node name; none of any other node.
fn group_number(groups: &Groups<'_>, node: &Node) -> Option<usize>
    ensures { result ≡ group_at (groups_in groups.now) node.now }
{
    if node.kind() != "group" {
        return None;
    }
    match group_in(node.settings()) {
        Some(name) => groups.measures.names.first(name),
        None => None,
    }
}

#[tactic(auto, using(crate::proofs::Parts::a_group_node, crate::proofs::Parts::a_run_node))]
fn part_of(scope: &Scope<'_, '_>, number: usize, node: &Node) -> Part
    requires there { slice_get scope.now.nodes.now.items number ≡ Some node.now }
    requires form { NodeHasForm node.now }
    ensures { IsPart (scope_of scope.now) node.now result }
{
    match group_number(scope.groups, node) {
        Some(number) => Part::Group { number },
        None => Part::Run {
            outputs: outputs_of(scope, number, node).len(),
        },
    }
}

fn row_of<'t>(
    alloc: Global,
    scope: &Scope<'_, 't>,
    number: usize,
    node: &'t Node,
) -> Result<Row<'t>, Memory>
    requires there { slice_get scope.now.nodes.now.items number ≡ Some node.now }
    requires form { NodeHasForm node.now }
    ensures { IfOk result (λ row. IsRow (scope_of scope.now) node.now row) }
{
    let part = part_of(scope, number, node);
    let reads = node_reads(alloc, scope, number, node)?;
    Ok(Row { node, part, reads })
}

/// The rows of the nodes of a list.
fn rows_of<'t>(alloc: Global, scope: &Scope<'_, 't>) -> Result<Vec<Row<'t>>, Memory>
    requires { NodesHaveForm (nodes_of scope.now.nodes.now.items) }
    ensures { IfOk result (λ rows. AreRows (scope_of scope.now) scope.now.nodes.now.items rows.items) }
{
    let mut rows = Vec::with_capacity(alloc, scope.nodes.len())?;
    let mut number: usize = 0;
    for node in scope.nodes {
        rows.push(row_of(alloc, scope, number, node)?)?;
        number += 1;
    }
    Ok(rows)
}

/// The numbers of the nodes of a list by rank.
fn order_of(alloc: Global, scope: &Scope<'_, '_>) -> Result<Vec<usize>, Memory>
    requires { IsAcyclic (graph_of (nodes_of scope.now.nodes.now.items)) }
    ensures { IfOk result (λ order. order.items ≡ ranks.by_rank (graph_of (nodes_of scope.now.nodes.now.items))) }
{
    let edges = edges_of(alloc, &scope.ids, scope.nodes)?;
    by_rank(alloc, &edges)
}

/// The table of a list that gives this out.
fn table_of<'t>(alloc: Global, scope: &Scope<'_, 't>, given: Vec<Read>) -> Result<Table<'t>, Memory>
    requires form { NodesHaveForm (nodes_of scope.now.nodes.now.items) }
    requires order { IsAcyclic (graph_of (nodes_of scope.now.nodes.now.items)) }
    ensures { IfOk result (λ table. IsTableOf (scope_of scope.now) given.items table) }
{
    let rows = rows_of(alloc, scope)?;
    let order = order_of(alloc, scope)?;
    Ok(Table { rows, order, given })
}

/// What a tree gives out.
fn tree_given(
    alloc: Global,
    scope: &Scope<'_, '_>,
    output: &Option<TreeInput>,
) -> Result<Vec<Read>, Memory>
    ensures { IfOk result (λ reads. (way : Way) → reads_in way reads.items ≡ reads_of (scope_of scope.now) way (output_of (option_map input_of output.now)) (map one_of tree_sockets) []) }
{
    let mut reads = Vec::new(alloc);
    let Some(input) = output else {
        reads.push(constant(Constant::NoGeometry))?;
        return Ok(reads);
    };
    push_input(scope, SocketKind::Geometry, input, &mut reads)?;
    Ok(reads)
}

/// The table of a tree's own list. No rule is looked for there whose graph would have to be kept.
fn tree_table<'t>(alloc: Global, groups: &Groups<'t>, tree: &'t Tree) -> Result<Table<'t>, Memory>
    requires rules { KeepsRules (tree_of tree.now) × HasForm (tree_of tree.now) }
    requires groups { groups.now.list.now ≡ tree.now.groups.items }
    ensures { IfOk result (IsTable (tree_body (tree_of tree.now))) }
{
    let sought = Sought::Only(Rule::Count);
    let above = groups.list.len();
    let scope = Scope::new(alloc, sought, &tree.nodes, Entries::Tree, groups, above)?;
    let given = tree_given(alloc, &scope, &tree.output)?;
    table_of(alloc, &scope, given)
}

/// What a group gives out.
fn group_given(alloc: Global, scope: &Scope<'_, '_>, group: &Group) -> Result<Vec<Read>, Memory>
    ensures { IfOk result (λ reads. (way : Way) → reads_in way reads.items ≡ reads_of (scope_of scope.now) way (group_of group.now).output (map one_of (group_of group.now).outputs) []) }
{
    let written = Written::new(alloc, &group.output)?;
    let mut reads = Vec::with_capacity(alloc, group.outputs.len())?;
    push_sockets(scope, &written, &group.outputs, &mut reads)?;
    Ok(reads)
}

/// The table of the list of a group, which has that number.
fn group_table<'t>(
    alloc: Global,
    groups: &Groups<'t>,
    number: usize,
    group: &'t Group,
) -> Result<Table<'t>, Memory>
    requires form { NodesHaveForm (group_of group.now).nodes }
    requires order { IsAcyclic (graph_of (group_of group.now).nodes) }
    ensures { IfOk result (IsTable (group_body (groups_in groups.now) number (group_of group.now))) }
{
    let inputs = Sockets::new(alloc, &group.inputs)?;
    let entries = Entries::Group(&inputs);
    let sought = Sought::Only(Rule::Count);
    let scope = Scope::new(alloc, sought, &group.nodes, entries, groups, number)?;
    let given = group_given(alloc, &scope, group)?;
    table_of(alloc, &scope, given)
}

/// For each group the table of its list.
fn group_tables<'t>(alloc: Global, groups: &Groups<'t>) -> Result<Vec<Table<'t>>, Memory>
    requires { AreOrdered (groups_in groups.now) }
    ensures { IfOk result (λ tables. HoldTables (groups_in groups.now) tables.items) }
{
    let mut tables = Vec::with_capacity(alloc, groups.list.len())?;
    let mut number: usize = 0;
    for group in groups.list {
        tables.push(group_table(alloc, groups, number, group)?)?;
        number += 1;
    }
    Ok(tables)
}

/// The lists of nodes of a tree by numbers. Each name is looked up once, however often a group is used.
pub fn tables_of(alloc: Global, tree: &Tree) -> Result<Tables<'_>, Memory>
    requires { KeepsRules (tree_of tree.now) × HasForm (tree_of tree.now) }
    ensures { IfOk result (AreTables (tree_of tree.now)) }
{
    let list = Groups::new(alloc, &tree.groups)?;
    let own = tree_table(alloc, &list, tree)?;
    let groups = group_tables(alloc, &list)?;
    Ok(Tables { tree: own, groups })
}
