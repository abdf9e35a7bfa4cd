ghost use Rattle.std.specs.Prelude.{◌≡◌, ◌++◌, [], None, IfOk, OnOk, IsTrue};
ghost use Rattle.gn_lazy.specs.Graphs.{AreThere, LinksLeadBack, first_bad, is_there, with_node, with_root};
ghost use Rattle.gn_check.specs.Answers.{tree_in};
ghost use Rattle.gn_lower.specs.Lowered.{Lowers};

use crate::carried::narrow;
use crate::lowered::Lowered;
use crate::unfold::Unfolding;
use gn_check::GoodTree;
use gn_lazy::{Graph, GraphFault, GraphNode, Link};
use gn_memory::Memory;
use gn_table::tables_of;
use gn_tree::Kind;
use std::alloc::Global;

/// Puts a node behind those of a graph in which each of its links leads to something.
fn add(graph: &mut Graph<Kind>, node: GraphNode<Kind>) -> Result<(), Memory>
    requires { first_bad graph.old node.inputs.items ≡ None }
    ensures { OnOk result (graph.new ≡ with_node graph.old node) }
{
    match graph.add(node) {
        Ok(_) => Ok(()),
        Err(GraphFault::Memory) => Err(Memory),
        Err(GraphFault::BadLink { .. }) => unreachable!(),
    }
}

/// Puts a link that leads to something behind those that a graph gives out.
fn add_root(graph: &mut Graph<Kind>, link: Link) -> Result<(), Memory>
    requires { IsTrue (is_there graph.old.nodes graph.old.constants link.origin) }
    ensures { OnOk result (graph.new ≡ with_root graph.old link) }
{
    match graph.root(link) {
        Ok(()) => Ok(()),
        Err(GraphFault::Memory) => Err(Memory),
        Err(GraphFault::BadLink { .. }) => unreachable!(),
    }
}

fn add_roots(graph: &mut Graph<Kind>, roots: Vec<Link>) -> Result<(), Memory>
    requires { AreThere graph.old.nodes graph.old.constants roots.items }
    ensures { OnOk result (graph.new ≡ record graph.old { roots = graph.old.roots ++ roots.items }) }
{
    for link in roots {
        add_root(graph, link)?;
    }
    Ok(())
}

/// The graph of these nodes, which gives out what these links carry.
fn graph_of(
    alloc: Global,
    constants: u32,
    nodes: Vec<GraphNode<Kind>>,
    roots: Vec<Link>,
) -> Result<Graph<Kind>, Memory>
    requires back { LinksLeadBack (record { nodes = nodes.items; roots = []; constants = constants }) }
    requires there { AreThere nodes.items constants roots.items }
    ensures { IfOk result (λ graph. graph ≡ record { nodes = nodes.items; roots = roots.items; constants = constants }) }
{
    let mut graph = Graph::new(alloc, constants);
    for node in nodes {
        add(&mut graph, node)?;
    }
    add_roots(&mut graph, roots)?;
    Ok(graph)
}

/// The graph of a tree, with its constants: groups are unfolded, the body of a zone is left in its kind, and
/// links lead through groups, with a conversion at each socket on the way whose kind is another. It gives out
/// what the tree does. Its nodes are in one order: those of a list by rank and then by number, and in the
/// place of a group node the nodes of its group.
pub fn lower(alloc: Global, tree: &GoodTree) -> Result<Lowered, Memory>
    ensures { IfOk result (λ lowered. Lowers (tree_in tree.now) lowered.graph lowered.constants.items) }
{
    let tables = tables_of(alloc, tree.tree())?;
    let mut unfolding = Unfolding::new(alloc, tree.tree(), &tables)?;
    unfolding.finish()?;
    let roots = unfolding.roots()?;
    let constants = unfolding.constants;
    let count = narrow(constants.len())?;
    let graph = graph_of(alloc, count, unfolding.nodes, roots)?;
    Ok(Lowered { graph, constants })
}
