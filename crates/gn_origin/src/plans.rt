ghost use Rattle.std.specs.Prelude.{◌≡◌, ◌&&◌, ◌==◌, ℕ, [], Some, IfOk, map, length, option_map, option_and_then};
ghost use Rattle.gn_tree.specs.Seen.{socket_of, tree_of};
ghost use Rattle.gn_check.specs.Answers.{tree_in};
ghost use Rattle.gn_tree.specs.Nodes.{inputs_in};
ghost use Rattle.gn_meaning.specs.Sites as sites;
ghost use Rattle.gn_meaning.specs.Reads.{kind_number, Run};
ghost use Rattle.gn_meaning.specs.Demand.{output_read};
ghost use Rattle.gn_plans.specs.Answers.{Answers};
ghost use Rattle.gn_origin.specs.Looking.{own_sockets};
ghost use Rattle.gn_origin.specs.Frames.{Frames};
ghost use Rattle.gn_origin.specs.Reading.{IsAt, IsRead, tree_by};
ghost use Rattle.gn_origin.specs.Walking.{IsFoundBelow};
ghost use Rattle.gn_rows.specs.Carried as carried;
ghost use Rattle.gn_rows.specs.Carried.{kind_of_number};
ghost use Rattle.gn_origin.specs.Moves as moves;
ghost use Rattle.gn_origin.specs.Moves.{EndsAt, Limits, IsReady, AreRead, NamesRead, AreFoundBelow, IsBounded, IsMoveOf, ConstantsAre, MovesAs, carried_by, carried_of, truth_in, vector_in, position_by, input_at};

use crate::groups::Lists;
use crate::list::List;
use crate::read::{Constant, Read, Site, plain, zero};
use crate::walk::{Frame, Walk, follow};
use gn_check::GoodTree;
use gn_kinds::SocketKind;
use gn_memory::Memory;
use gn_plans::Plan;
use gn_tree::{Node, Socket};
use gn_value::{V3, Value, ValueKind, convert};
use std::alloc::Global;
use std::collections::VecDeque;

/// How many conversions the three constants of a plan go through together, at most.
const CONVERSION_LIMIT: usize = 4000;

/// The kind of values that a socket converts to; geometry is never converted.
fn value_kind(kind: SocketKind) -> ValueKind
    ensures { result ≡ kind_of_number (kind_number kind) }
{
    match kind {
        SocketKind::Truth => ValueKind::Truth,
        SocketKind::Int => ValueKind::Int,
        SocketKind::Fixed => ValueKind::Fixed,
        SocketKind::Vector => ValueKind::Vector,
        SocketKind::Geometry => ValueKind::Vector,
    }
}

/// The value after these conversions.
fn value_through(value: Value, conversions: VecDeque<SocketKind>) -> Value
    ensures { result ≡ carried.value_through value (map kind_number conversions.items) }
{
    let mut value = value;
    let mut conversions = conversions;
    while let Some(kind) = conversions.pop_front() {
        value = convert(value, value_kind(kind));
    }
    value
}

/// A constant, and how many conversions it has gone through.
#[derive(Clone, Copy)]
struct Carried {
    value: Value,
    conversions: usize,
}

/// The constant that the walk ended at.
fn constant(end: Walk<'_, '_>) -> Option<Carried>
    ensures { option_map carried_of result ≡ carried_by end.entry }
{
    match end.site {
        Site::Constant(Constant::Value(value)) => {
            let conversions = end.conversions.len();
            let value = value_through(value, end.conversions);
            Some(Carried { value, conversions })
        }
        _ => None,
    }
}

/// The truth that the walk ended at, and how many conversions it went through.
fn truth_of(end: Walk<'_, '_>) -> Option<(bool, usize)>
    ensures { result ≡ option_and_then truth_in (carried_by end.entry) }
{
    let carried = constant(end)?;
    match carried.value {
        Value::Truth(truth) => Some((truth, carried.conversions)),
        _ => None,
    }
}

/// The vector that the walk ended at, and how many conversions it went through.
fn vector_of(end: Walk<'_, '_>) -> Option<(V3, usize)>
    ensures { result ≡ option_and_then vector_in (carried_by end.entry) }
{
    let carried = constant(end)?;
    match carried.value {
        Value::Vector(vector) => Some((vector, carried.conversions)),
        _ => None,
    }
}

/// The position that the walk ended at, none where it is each point's own, and how many conversions it
/// went through.
fn position_of(end: Walk<'_, '_>) -> Option<(Option<V3>, usize)>
    ensures { result ≡ position_by end.entry }
{
    match end.site {
        Site::Constant(Constant::Position) => {
            if end.conversions.is_empty() {
                return Some((None, 0));
            }
            None
        }
        _ => {
            let (vector, conversions) = vector_of(end)?;
            Some((Some(vector), conversions))
        }
    }
}

/// Whether the value goes through no conversion.
fn is_plain(end: &Walk<'_, '_>) -> bool
    ensures { result ≡ (length end.now.conversions.items == 0) }
{
    end.conversions.is_empty()
}

/// Whether the walk ended at the tree's input.
fn is_input(end: &Walk<'_, '_>) -> bool
    ensures { result ≡ input_at end.now.site (map kind_number end.now.conversions.items) }
{
    match end.site {
        Site::Entry { .. } => end.conversions.is_empty(),
        _ => false,
    }
}

/// Where what is read from the list at the end of the way comes from.
fn end_of<'s, 't>(
    alloc: Global,
    lists: &'s Lists<'t>,
    frames: &VecDeque<Frame<'s, 't>>,
    read: Option<Read<'s, 't>>,
) -> Result<Option<Walk<'s, 't>>, Memory>
    ghost steps: { ℕ }
    requires rules { IsReady lists.now frames.now.items }
    requires reads { (r : sites.Read) × IsRead (tree_of lists.now.tree.now) frames.now.items read r × IsFoundBelow (tree_of lists.now.tree.now) steps r.from }
    ensures { (r : sites.Read) → IsRead (tree_of lists.now.tree.now) frames.now.items read.entry r → IfOk result (λ end. EndsAt (tree_of lists.now.tree.now) r end) }
{
    let Some(read) = read else {
        return Ok(None);
    };
    follow(Walk::start(alloc, lists, frames, read)?)
}

/// The plan, where the constants go through few enough conversions.
fn limited(
    selection: (bool, usize),
    position: (Option<V3>, usize),
    offset: (V3, usize),
) -> Option<Plan>
    ensures { Limits selection position offset result }
{
    if selection.1 > CONVERSION_LIMIT
        || position.1 > CONVERSION_LIMIT
        || offset.1 > CONVERSION_LIMIT
    {
        return None;
    }
    if selection.1 + position.1 + offset.1 > CONVERSION_LIMIT {
        return None;
    }
    Some(Plan::Move {
        selected: selection.0,
        to: position.0,
        by: offset.0,
    })
}

/// What the inputs of a Set Position read.
#[derive(Clone, Copy)]
struct Inputs<'s, 't> {
    geometry: Option<Read<'s, 't>>,
    selection: Option<Read<'s, 't>>,
    position: Option<Read<'s, 't>>,
    offset: Option<Read<'s, 't>>,
}

fn inputs_read<'s, 't>(list: List<'s, 't>, node: &Node) -> Inputs<'s, 't>
    ensures { (fs : Frames) (at : IsAt list.entry fs) → NamesRead (tree_by list.entry) fs at.body.scope (inputs_in node.now) result }
{
    let inputs = node.inputs();
    let all = Constant::Value(Value::Truth(true));
    let none = zero(SocketKind::Vector);
    Inputs {
        geometry: list.named_read(
            inputs,
            "geometry",
            SocketKind::Geometry,
            Constant::NoGeometry,
        ),
        selection: list.named_read(inputs, "selection", SocketKind::Truth, all),
        position: list.named_read(inputs, "position", SocketKind::Vector, Constant::Position),
        offset: list.named_read(inputs, "offset", SocketKind::Vector, none),
    }
}

/// The constants of a Set Position that is in the list at the end of the way.
fn constants<'s, 't>(
    alloc: Global,
    lists: &'s Lists<'t>,
    frames: &VecDeque<Frame<'s, 't>>,
    inputs: Inputs<'s, 't>,
) -> Result<Option<Plan>, Memory>
    ghost steps: { ℕ }
    requires rules { IsReady lists.now frames.now.items }
    requires reads { (run : Run) × AreRead (tree_of lists.now.tree.now) frames.now.items run inputs × AreFoundBelow (tree_of lists.now.tree.now) steps run }
    ensures { (run : Run) → AreRead (tree_of lists.now.tree.now) frames.now.items run inputs.entry → IfOk result (ConstantsAre (tree_of lists.now.tree.now) run) }
{
    let Some(end) = end_of(alloc, lists, frames, inputs.selection)? else {
        return Ok(None);
    };
    let Some(selection) = truth_of(end) else {
        return Ok(None);
    };
    let Some(end) = end_of(alloc, lists, frames, inputs.position)? else {
        return Ok(None);
    };
    let Some(position) = position_of(end) else {
        return Ok(None);
    };
    let Some(end) = end_of(alloc, lists, frames, inputs.offset)? else {
        return Ok(None);
    };
    let Some(offset) = vector_of(end) else {
        return Ok(None);
    };
    Ok(limited(selection, position, offset))
}

/// The plan of a tree that gives out what a Set Position makes, which is in the list at the end of
/// the way.
fn moved<'s, 't>(
    alloc: Global,
    lists: &'s Lists<'t>,
    frames: &VecDeque<Frame<'s, 't>>,
    node: &Node,
) -> Result<Option<Plan>, Memory>
    ghost steps: { ℕ }
    requires rules { IsReady lists.now frames.now.items }
    requires node { (n : ℕ) × (run : Run) × IsMoveOf (tree_of lists.now.tree.now) frames.now.items n node.now run × AreFoundBelow (tree_of lists.now.tree.now) steps run }
    ensures { (n : ℕ) (run : Run) → IsMoveOf (tree_of lists.now.tree.now) frames.now.items n node.now run → IfOk result (MovesAs (tree_of lists.now.tree.now) run) }
{
    let inputs = inputs_read(lists.at_end(frames), node);
    let Some(end) = end_of(alloc, lists, frames, inputs.geometry)? else {
        return Ok(None);
    };
    if !is_input(&end) {
        return Ok(None);
    }
    constants(alloc, lists, frames, inputs)
}

/// What the tree gives out reads.
fn output_read<'s, 't>(lists: &'s Lists<'t>) -> Option<Read<'s, 't>>
    requires { IsReady lists.now [] }
    ensures { IsRead (tree_of lists.now.tree.now) [] result (output_read (tree_of lists.now.tree.now)) }
{
    match &lists.tree.output {
        Some(input) => lists.own().input_read(SocketKind::Geometry, input),
        None => Some(plain(Constant::NoGeometry)),
    }
}

/// The plan of a tree that gives out a constant.
fn constant_plan(constant: Constant) -> Option<Plan>
    ensures { result ≡ moves.constant_plan constant }
{
    match constant {
        Constant::NoGeometry => Some(Plan::Empty),
        _ => None,
    }
}

/// The plan of a tree, by where the walk from its output ended.
fn plan_at<'s, 't>(
    alloc: Global,
    lists: &'s Lists<'t>,
    end: Walk<'s, 't>,
) -> Result<Option<Plan>, Memory>
    ghost steps: { ℕ }
    requires rules { IsReady lists.now [] }
    requires found { IsBounded (tree_of lists.now.tree.now) steps }
    requires ends { EndsAt (tree_of lists.now.tree.now) (output_read (tree_of lists.now.tree.now)) (Some end) }
    ensures { IfOk result (Answers (tree_of lists.now.tree.now)) }
{
    if !is_plain(&end) {
        return Ok(None);
    }
    match end.site {
        Site::Constant(constant) => Ok(constant_plan(constant)),
        Site::Entry { .. } => Ok(Some(Plan::Input)),
        Site::Moved { node, .. } => moved(alloc, lists, &end.frames, node),
        Site::Group { .. } => Ok(None),
    }
}

fn plan_by<'s, 't>(alloc: Global, lists: &'s Lists<'t>) -> Result<Option<Plan>, Memory>
    requires { IsReady lists.now [] }
    ensures { IfOk result (Answers (tree_of lists.now.tree.now)) }
{
    let frames = VecDeque::new(alloc);
    let Some(end) = end_of(alloc, lists, &frames, output_read(lists))? else {
        return Ok(None);
    };
    plan_at(alloc, lists, end)
}

/// The socket by which a tree takes its input.
fn own_entries(alloc: Global) -> Result<Vec<Socket>, Memory>
    ensures { IfOk result (λ entries. map socket_of entries.items ≡ own_sockets) }
{
    let mut entries = Vec::new(alloc);
    entries.push(Socket {
        name: String::from_str(alloc, "geometry")?,
        kind: SocketKind::Geometry,
    })?;
    Ok(entries)
}

/// What the tree asks for, or `None` where it asks for something that this version can't evaluate.
///
/// # Errors
///
/// `Memory` where there was no memory.
pub fn find_plan(alloc: Global, tree: &GoodTree) -> Result<Option<Plan>, Memory>
    ensures { IfOk result (Answers (tree_in tree.now)) }
{
    let entries = own_entries(alloc)?;
    let lists = Lists::new(alloc, tree.tree(), &entries)?;
    plan_by(alloc, &lists)
}
