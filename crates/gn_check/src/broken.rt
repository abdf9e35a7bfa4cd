ghost use Rattle.std.specs.Prelude.{◌≡◌, ◌||◌, IfOk, map, false, is_none, nat_lt};
ghost use Rattle.std.specs.Option.{option_map_or};
ghost use Rattle.std.specs.List.{list_any};
ghost use Rattle.gn_tree.specs.Seen.{input_of, link_of, tree_of};
ghost use Rattle.gn_rules.specs.Rules as rules;
ghost use Rattle.gn_rules.specs.Walk as walk;
ghost use Rattle.gn_scopes.specs.Seen.{scope_of};

use gn_kinds::SocketKind;
use gn_memory::Memory;
use gn_names::Names;
use gn_rules::{Rule, Shape, Sought};
use gn_scopes::{Groups, Scope, is_zone};
use gn_tree::{Node, Tree, TreeInput, TreeLink};
use gn_value::Value;
use std::alloc::Global;

fn is_reserved(name: &str) -> bool
    ensures { result ≡ rules.is_reserved name.now }
{
    name == "input" || name == "output" || name == "iteration" || name == "iterations"
}

fn is_earlier(names: &Names<'_>, number: usize, name: &str) -> bool
    ensures { result ≡ rules.is_earlier names.now number name.now }
{
    match names.first(name) {
        Some(first) => first < number,
        None => false,
    }
}

fn is_taken(names: &Names<'_>, number: usize, name: &str) -> bool
    ensures { result ≡ rules.is_taken names.now number name.now }
{
    is_reserved(name) || is_earlier(names, number, name)
}

/// Whether the name with that number breaks a rule in its list.
pub(crate) fn name_breaks(sought: Sought, names: &Names<'_>, number: usize, name: &str) -> bool
    ensures { result ≡ walk.breaks_name sought names.now number name.now }
{
    sought.has(Rule::Names) && is_taken(names, number, name)
}

/// Whether a link in an array of links breaks a rule by itself.
pub(crate) fn link_breaks(scope: &Scope<'_, '_>, link: &TreeLink) -> bool
    ensures { result ≡ walk.breaks_link scope.now.sought (scope_of scope.now) (link_of link.now) }
{
    scope.sought.has(Rule::Links) && scope.source(link).is_none()
}

/// Whether the name of a group breaks a rule.
pub(crate) fn group_name_breaks(scope: &Scope<'_, '_>, name: &str) -> bool
    ensures { result ≡ walk.breaks_group_name scope.now.sought (scope_of scope.now) name.now }
{
    scope.sought.has(Rule::Links) && !scope.is_above(name)
}

fn is_loose(scope: &Scope<'_, '_>, input: &TreeInput) -> bool
    ensures { result ≡ rules.is_loose (scope_of scope.now) (input_of input.now) }
{
    match input {
        TreeInput::Constant { .. } => false,
        TreeInput::Link { link } => scope.source(link).is_none(),
        TreeInput::Links { .. } => false,
    }
}

fn is_geometry(kind: SocketKind) -> bool
    ensures { result ≡ rules.is_geometry kind }
{
    match kind {
        SocketKind::Geometry => true,
        _ => false,
    }
}

/// Whether one of the kinds is geometry, and the other is not.
fn clash(one: SocketKind, other: SocketKind) -> bool
    ensures { result ≡ rules.clash one other }
{
    if is_geometry(one) {
        return !is_geometry(other);
    }
    is_geometry(other)
}

fn is_of(kind: SocketKind, value: &Value) -> bool
    ensures { result ≡ rules.is_of kind value.now }
{
    match (kind, value) {
        (SocketKind::Truth, Value::Truth(_)) => true,
        (SocketKind::Int, Value::Int(_)) => true,
        (SocketKind::Fixed, Value::Fixed(_)) => true,
        (SocketKind::Vector, Value::Vector(_)) => true,
        _ => false,
    }
}

fn link_clashes(scope: &Scope<'_, '_>, kind: SocketKind, link: &TreeLink) -> bool
    ensures { result ≡ rules.link_clashes (scope_of scope.now) kind (link_of link.now) }
{
    match scope.source(link) {
        Some(shape) => clash(kind, shape.kind),
        None => false,
    }
}

fn any_clashes(scope: &Scope<'_, '_>, kind: SocketKind, links: &[TreeLink]) -> bool
    ensures { result ≡ list_any (λ link. rules.link_clashes (scope_of scope.now) kind (link_of link)) links.now }
{
    links.iter().any(|link| link_clashes(scope, kind, link))
}

/// Whether the input doesn't fit a socket of that shape.
#[tactic(auto, using(crate::proofs::Judging::any_link))]
fn is_unfit(scope: &Scope<'_, '_>, shape: Shape, input: &TreeInput) -> bool
    ensures { result ≡ rules.is_unfit (scope_of scope.now) shape (input_of input.now) }
{
    match input {
        TreeInput::Constant { value } => !is_of(shape.kind, value),
        TreeInput::Link { link } => link_clashes(scope, shape.kind, link),
        TreeInput::Links { links } => !shape.many || any_clashes(scope, shape.kind, links),
    }
}

fn is_unfit_for(scope: &Scope<'_, '_>, shape: Option<Shape>, input: &TreeInput) -> bool
    ensures { result ≡ option_map_or (λ there. rules.is_unfit (scope_of scope.now) there (input_of input.now)) shape false }
{
    match shape {
        Some(shape) => is_unfit(scope, shape, input),
        None => false,
    }
}

/// Whether there is no socket for the input, or its link leads from nothing.
fn names_nothing(scope: &Scope<'_, '_>, shape: Option<Shape>, input: &TreeInput) -> bool
    ensures { result ≡ (is_none shape || rules.is_loose (scope_of scope.now) (input_of input.now)) }
{
    shape.is_none() || is_loose(scope, input)
}

/// Whether the input breaks a rule by itself, at a socket of that shape or where there is no socket.
pub(crate) fn input_breaks(scope: &Scope<'_, '_>, shape: Option<Shape>, input: &TreeInput) -> bool
    ensures { result ≡ walk.breaks_input scope.now.sought (scope_of scope.now) shape (input_of input.now) }
{
    if scope.sought.has(Rule::Links) && names_nothing(scope, shape, input) {
        return true;
    }
    scope.sought.has(Rule::Kinds) && is_unfit_for(scope, shape, input)
}

/// Whether the node is a zone higher than 2.
#[tactic(auto, using(crate::proofs::Judging::too_high_seen))]
fn is_too_high(scope: &Scope<'_, '_>, node: &Node) -> bool
    ensures { result ≡ rules.is_too_high (scope_of scope.now) node.now }
{
    is_zone(node.settings()) && scope.groups.measures.is_higher(scope.above, node, 2)
}

/// Whether the node with that number breaks a rule by itself.
pub(crate) fn node_breaks(
    alloc: Global,
    scope: &Scope<'_, '_>,
    number: usize,
    node: &Node,
) -> Result<bool, Memory>
    ensures { IfOk result (λ found. found ≡ walk.breaks_node scope.now.sought (scope_of scope.now) number node.now) }
{
    if scope.sought.has(Rule::Names) && is_taken(&scope.ids, number, node.id()) {
        return Ok(true);
    }
    if scope.sought.has(Rule::Height) && is_too_high(scope, node) {
        return Ok(true);
    }
    if scope.sought.has(Rule::Order) {
        return scope.is_on_cycle(alloc, number);
    }
    Ok(false)
}

/// Whether the tree has more than 16,384 nodes.
fn has_too_many(groups: &Groups<'_>, tree: &Tree) -> bool
    requires { groups.now.list.now ≡ tree.now.groups.items }
    ensures { result ≡ nat_lt 16384 (rules.node_count (tree_of tree.now)) }
{
    groups.measures.has_more_nodes(tree, 16_384)
}

/// Whether the tree's own list of nodes breaks a rule by itself.
pub(crate) fn tree_breaks(sought: Sought, groups: &Groups<'_>, tree: &Tree) -> bool
    requires { groups.now.list.now ≡ tree.now.groups.items }
    ensures { result ≡ walk.breaks_all sought (tree_of tree.now) }
{
    sought.has(Rule::Count) && has_too_many(groups, tree)
}
