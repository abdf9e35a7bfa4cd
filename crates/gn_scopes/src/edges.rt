ghost use Rattle.std.specs.Prelude.{◌≡◌, ◌++◌, ◌∷◌, [], OnOk, IfOk, map};
ghost use Rattle.gn_cycle.specs.Graph.{lists};
ghost use Rattle.gn_tree.specs.Seen.{input_of, link_of, named_of, nodes_of};
ghost use Rattle.gn_rules.specs.Rules.{graph_from, links_of, links_of_input, numbers_of};
ghost use Rattle.gn_tree.specs.Nodes.{inputs_in};

use gn_memory::Memory;
use gn_names::Names;
use gn_tree::{Node, TreeInput, TreeLink};
use std::alloc::Global;

/// Appends the number of the node that the link comes from, if there is such a node.
fn add_link(names: &Names<'_>, link: &TreeLink, numbers: &mut Vec<usize>) -> Result<(), Memory>
    ensures { OnOk result (numbers.new.items ≡ numbers.old.items ++ numbers_of names.now (link_of link.now ∷ [])) }
{
    match names.first(&link.from) {
        Some(number) => {
            numbers.push(number)?;
            Ok(())
        }
        None => Ok(()),
    }
}

#[tactic(auto, using(crate::proofs::Leading::numbers_then))]
fn add_links(names: &Names<'_>, links: &[TreeLink], numbers: &mut Vec<usize>) -> Result<(), Memory>
    ensures { OnOk result (numbers.new.items ≡ numbers.old.items ++ numbers_of names.now (map link_of links.now)) }
{
    for link in links {
        add_link(names, link, numbers)?;
    }
    Ok(())
}

fn add_input(names: &Names<'_>, input: &TreeInput, numbers: &mut Vec<usize>) -> Result<(), Memory>
    ensures { OnOk result (numbers.new.items ≡ numbers.old.items ++ numbers_of names.now (links_of_input (input_of input.now))) }
{
    match input {
        TreeInput::Constant { .. } => Ok(()),
        TreeInput::Link { link } => add_link(names, link, numbers),
        TreeInput::Links { links } => add_links(names, links, numbers),
    }
}

/// The numbers of the nodes that the links of these inputs come from.
#[tactic(auto, using(crate::proofs::Leading::numbers_append))]
fn numbers_in(
    alloc: Global,
    names: &Names<'_>,
    inputs: &[(String, TreeInput)],
) -> Result<Vec<usize>, Memory>
    ensures { IfOk result (λ numbers. numbers.items ≡ numbers_of names.now (links_of (map named_of inputs.now))) }
{
    let mut numbers = Vec::new(alloc);
    for (_, input) in inputs {
        add_input(names, input, &mut numbers)?;
    }
    Ok(numbers)
}

fn numbers_of_node(alloc: Global, names: &Names<'_>, node: &Node) -> Result<Vec<usize>, Memory>
    ensures { IfOk result (λ numbers. numbers.items ≡ numbers_of names.now (links_of (inputs_in node.now))) }
{
    numbers_in(alloc, names, &node.inputs)
}

/// For each node the numbers of the nodes of the list that its links come from.
#[tactic(auto, using(crate::proofs::Leading::graph_then))]
pub fn edges_of(alloc: Global, names: &Names<'_>, nodes: &[Node]) -> Result<Vec<Vec<usize>>, Memory>
    ensures { IfOk result (λ edges. lists edges.items ≡ graph_from names.now (nodes_of nodes.now)) }
{
    let mut edges = Vec::with_capacity(alloc, nodes.len())?;
    for node in nodes {
        edges.push(numbers_of_node(alloc, names, node)?)?;
    }
    Ok(edges)
}
