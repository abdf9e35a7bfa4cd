ghost use Rattle.std.specs.Prelude.{◌≡◌, ℕ, [], ◌∷◌, All, map, length, Some, None, option_map, IfOk, is_some, true, slice_get, slice_index_or};
ghost use Rattle.gn_lazy.specs.declared.graph.GraphNode.{GraphNode as Node};
ghost use Rattle.gn_uses.specs.declared.nodes.Role.{Role as NumberRole};
ghost use Rattle.gn_uses.specs.Nodes.{HasRoom, role_of};
ghost use Rattle.gn_node_set.specs.Meanings.{Switch};
ghost use Rattle.gn_exec_laws.specs.Fits.{is_file};
ghost use Rattle.gn_exec_core.specs.Holds.{input_of, place_of as place, present};
ghost use Rattle.gn_exec_core.specs.Jobs.{lists_of};
ghost use Rattle.gn_exec_core.specs.Starts.{start_value, CanCarry, IsChosenBy, MayChoose, HasNumbers, with_chosen, with_roots, AreWhole};

use gn_lazy::{Graph, GraphNode, Link, Origin};
use gn_memory::Memory;
use gn_nodes::{NodeSet, chosen, handed};
use gn_shared::Meter;
use gn_uses::{Choice, Out, Role, Uses};
use std::alloc::Global;

/// The value of a link that leads to a given value.
fn slot_of<N: NodeSet, L>(
    nodes: &N,
    link: &Link,
    given: &mut Vec<N::Value>,
    meter: &mut Meter<L>,
) -> Result<Option<N::Value>, Memory>
    requires { CanCarry N.meanings (map N.content given.old.items) link.now }
    ensures same { map N.content given.new.items ≡ map N.content given.old.items }
    ensures value { IfOk result (λ slot. option_map N.content slot ≡ start_value N.meanings (map N.content given.old.items) link.now) }
    ensures runs { meter.new.runs ≡ meter.old.runs }
{
    match link.origin {
        Origin::Input => Ok(Some(handed(nodes, &mut given[0], &link.through, meter)?)),
        Origin::Constant { slot } => {
            let at = slot as usize + 1;
            Ok(Some(handed(nodes, &mut given[at], &link.through, meter)?))
        }
        Origin::Out { .. } => Ok(None),
    }
}

/// The values of links that lead to given values.
pub(crate) fn row_of<N: NodeSet, L>(
    nodes: &N,
    links: &[Link],
    given: &mut Vec<N::Value>,
    meter: &mut Meter<L>,
) -> Result<Vec<Option<N::Value>>, Memory>
    requires { All (λ link. CanCarry N.meanings (map N.content given.old.items) link) links.now }
    ensures same { map N.content given.new.items ≡ map N.content given.old.items }
    ensures values { IfOk result (λ row. map (option_map N.content) row.items ≡ map (start_value N.meanings (map N.content given.old.items)) links.now) }
    ensures runs { meter.new.runs ≡ meter.old.runs }
{
    let mut row = Vec::with_capacity(*given.allocator(), links.len())?;
    for link in links {
        row.push(slot_of(nodes, link, given, meter)?)?;
    }
    Ok(row)
}

/// The values of the links of each node that lead to given values.
pub(crate) fn rows_of<N: NodeSet, L>(
    nodes: &N,
    graph: &Graph<N::Kind>,
    given: &mut Vec<N::Value>,
    meter: &mut Meter<L>,
) -> Result<Vec<Vec<Option<N::Value>>>, Memory>
    requires { All (λ at. All (λ link. CanCarry N.meanings (map N.content given.old.items) link) at.inputs.items) graph.now.nodes }
    ensures same { map N.content given.new.items ≡ map N.content given.old.items }
    ensures values { IfOk result (λ rows. map (λ row. map (option_map N.content) row) (lists_of rows.items) ≡ map (λ at. map (start_value N.meanings (map N.content given.old.items)) at.inputs.items) graph.now.nodes) }
    ensures runs { meter.new.runs ≡ meter.old.runs }
{
    let mut rows = Vec::with_capacity(*given.allocator(), graph.len() as usize)?;
    for number in 0..graph.len() {
        let Some(at) = graph.node(number) else {
            unreachable!();
        };
        rows.push(row_of(nodes, &at.inputs, given, meter)?)?;
    }
    Ok(rows)
}

/// What a node has chosen by its first value, if it is a switch and the value is there.
fn choice_of<N: NodeSet>(
    nodes: &N,
    kind: &N::Kind,
    row: &[Option<N::Value>],
) -> Result<Option<Choice>, Memory>
    requires { MayChoose N.meanings (N.kind_of kind.now) (map (option_map N.content) row.now) }
    ensures { IfOk result (λ choice. IsChosenBy N.meanings (N.kind_of kind.now) (map (option_map N.content) row.now) choice) }
{
    match row.first() {
        Some(Some(value)) => chosen(nodes, kind, value),
        _ => Ok(None),
    }
}

/// What each node has chosen.
pub(crate) fn choices_of<N: NodeSet>(
    nodes: &N,
    graph: &Graph<N::Kind>,
    rows: &Vec<Vec<Option<N::Value>>>,
) -> Result<Vec<Option<Choice>>, Memory>
    requires same { length rows.now.items ≡ length graph.now.nodes }
    requires may { (n : ℕ) (at : Node N.Kind) → slice_get graph.now.nodes n ≡ Some at → MayChoose N.meanings (N.kind_of at.kind) (map (option_map N.content) (slice_index_or (lists_of rows.now.items) n [])) }
    ensures len { IfOk result (λ choices. length choices.items ≡ length graph.now.nodes) }
    ensures chosen { IfOk result (λ choices. (n : ℕ) (at : Node N.Kind) → slice_get graph.now.nodes n ≡ Some at → IsChosenBy N.meanings (N.kind_of at.kind) (map (option_map N.content) (slice_index_or (lists_of rows.now.items) n [])) (slice_index_or choices.items n None)) }
{
    let mut choices = Vec::with_capacity(*rows.allocator(), rows.len())?;
    for (number, row) in rows.iter().enumerate() {
        let Some(at) = graph.node(number as u64) else {
            unreachable!();
        };
        choices.push(choice_of(nodes, &at.kind, row)?)?;
    }
    Ok(choices)
}

/// Whether nodes of a role are imports.
fn is_import(role: Role) -> bool
    ensures { result ≡ is_file (role_of role) }
{
    matches!(role, Role::File)
}

/// Which nodes are imports.
pub(crate) fn imports_of<N: NodeSet>(
    nodes: &N,
    alloc: Global,
    graph: &Graph<N::Kind>,
) -> Result<Vec<bool>, Memory>
    ensures { IfOk result (λ imports. imports.items ≡ map (λ at. is_file (N.meanings.rows.role (N.kind_of at.kind))) graph.now.nodes) }
{
    let mut imports = Vec::with_capacity(alloc, graph.len() as usize)?;
    for number in 0..graph.len() {
        let Some(at) = graph.node(number) else {
            unreachable!();
        };
        imports.push(is_import(nodes.role(&at.kind)))?;
    }
    Ok(imports)
}

/// The output that an origin names.
fn place_of(origin: Origin) -> Option<Out>
    ensures { result ≡ place origin }
{
    match origin {
        Origin::Out { node, socket } => Some(Out {
            node: node as usize,
            output: socket as usize,
        }),
        Origin::Input | Origin::Constant { .. } => None,
    }
}

/// The outputs that the links of a node name.
fn places_of(alloc: Global, links: &[Link]) -> Result<Vec<Option<Out>>, Memory>
    ensures { IfOk result (λ places. places.items ≡ map input_of links.now) }
{
    let mut places = Vec::with_capacity(alloc, links.len())?;
    for link in links {
        places.push(place_of(link.origin))?;
    }
    Ok(places)
}

/// Adds a node with what it has chosen.
fn add<N: NodeSet>(
    nodes: &N,
    alloc: Global,
    uses: &mut Uses,
    at: &GraphNode<N::Kind>,
    choice: Option<Choice>,
) -> Result<(), Memory>
    requires whole { AreWhole uses.old.nodes }
    requires room { HasRoom uses.old.nodes.sizes (map input_of at.now.inputs.items) }
    requires chosen { is_some choice ≡ true → N.meanings.rows.role (N.kind_of at.now.kind) ≡ Switch }
    ensures taken { IfOk result (λ _. uses.new.taken ≡ uses.old.taken) }
    ensures nodes { IfOk result (λ _. (role : NumberRole) × (role_of role ≡ N.meanings.rows.role (N.kind_of at.now.kind)) × (uses.new.nodes ≡ with_chosen uses.old.nodes role (map input_of at.now.inputs.items) at.now.outputs choice)) }
{
    let number = uses.len();
    let places = places_of(alloc, &at.inputs)?;
    uses.add(nodes.role(&at.kind), places, at.outputs as usize)?;
    if let Some(choice) = choice {
        uses.choose(number, choice);
    }
    Ok(())
}

/// The nodes of a graph by their numbers, with what they have chosen.
fn add_all<N: NodeSet>(
    nodes: &N,
    alloc: Global,
    graph: &Graph<N::Kind>,
    choices: &[Option<Choice>],
) -> Result<Uses, Memory>
    requires len { length choices.now ≡ length graph.now.nodes }
    requires chosen { (n : ℕ) (at : Node N.Kind) → slice_get graph.now.nodes n ≡ Some at → is_some (slice_index_or choices.now n None) ≡ true → N.meanings.rows.role (N.kind_of at.kind) ≡ Switch }
    ensures taken { IfOk result (λ uses. uses.taken ≡ []) }
    ensures roots { IfOk result (λ uses. uses.nodes.roots ≡ []) }
    ensures nodes { IfOk result (λ uses. HasNumbers N.meanings N.kind_of graph.now.nodes choices.now uses.nodes) }
{
    let mut uses = Uses::new(alloc);
    for number in 0..graph.len() {
        let Some(at) = graph.node(number) else {
            unreachable!();
        };
        add(nodes, alloc, &mut uses, at, choices[number as usize])?;
    }
    Ok(uses)
}

/// What a root names is wanted.
fn want_root(uses: &mut Uses, root: &Link) -> Result<(), Memory>
    requires { HasRoom uses.old.nodes.sizes (input_of root.now ∷ []) }
    ensures taken { IfOk result (λ _. uses.new.taken ≡ uses.old.taken) }
    ensures nodes { IfOk result (λ _. uses.new.nodes ≡ with_roots uses.old.nodes (present (input_of root.now ∷ []))) }
{
    match place_of(root.origin) {
        Some(place) => uses.want(place),
        None => Ok(()),
    }
}

/// What the roots name is wanted.
fn want_all(uses: &mut Uses, roots: &[Link]) -> Result<(), Memory>
    requires { HasRoom uses.old.nodes.sizes (map input_of roots.now) }
    ensures taken { IfOk result (λ _. uses.new.taken ≡ uses.old.taken) }
    ensures nodes { IfOk result (λ _. uses.new.nodes ≡ with_roots uses.old.nodes (present (map input_of roots.now))) }
{
    for root in roots {
        want_root(uses, root)?;
    }
    Ok(())
}

/// The nodes of a graph by their numbers, and what is used of them.
pub(crate) fn numbered<N: NodeSet>(
    nodes: &N,
    alloc: Global,
    graph: &Graph<N::Kind>,
    choices: &[Option<Choice>],
) -> Result<Uses, Memory>
    requires len { length choices.now ≡ length graph.now.nodes }
    requires chosen { (n : ℕ) (at : Node N.Kind) → slice_get graph.now.nodes n ≡ Some at → is_some (slice_index_or choices.now n None) ≡ true → N.meanings.rows.role (N.kind_of at.kind) ≡ Switch }
    ensures taken { IfOk result (λ uses. uses.taken ≡ []) }
    ensures roots { IfOk result (λ uses. uses.nodes.roots ≡ present (map input_of graph.now.roots)) }
    ensures nodes { IfOk result (λ uses. HasNumbers N.meanings N.kind_of graph.now.nodes choices.now uses.nodes) }
{
    let mut uses = add_all(nodes, alloc, graph, choices)?;
    want_all(&mut uses, graph.roots())?;
    Ok(uses)
}
