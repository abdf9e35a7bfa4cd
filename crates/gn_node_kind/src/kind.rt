//! The kind that a node's name and settings are.
ghost use Rattle.std.specs.Prelude.{◌≡◌, IfOk, List, map, option_map, string_bytes};
ghost use Rattle.std.specs.Arc.{arc_value};
ghost use Rattle.gn_tree.specs.Nodes.{kind_in, settings_in};
ghost use Rattle.gn_tree.specs.Seen.{group_of, named_of, nodes_of, setting_then, socket_of};
ghost use Rattle.gn_tree.specs.Trees.{Group as TreeGroup, no_settings};
ghost use Rattle.gn_node_kind.specs.Kinds as spec;
ghost use Rattle.gn_node_kind.specs.Kinds.{kind_with};
ghost use Rattle.gn_node_kind.specs.Seen.{seen};

use crate::copy::{inputs, nodes, sockets};
use crate::names::{
    boolean_math_op, compare_op, integer_math_op, math_op, round_mode, vector_math_op,
};
use gn_kinds::SocketKind;
use gn_memory::Memory;
use gn_tree::{Group, Kind, Node, Setting, Zone};
use gn_value::op::{CompareKind, MixKind};
use gn_value::{Place, Value, ValueKind};
use std::alloc::Global;
use std::sync::Arc;

/// The kind of values that a socket of this kind carries; geometry is none.
fn value_kind(kind: SocketKind) -> Option<ValueKind>
    ensures { result ≡ spec.value_kind_in kind }
{
    match kind {
        SocketKind::Truth => Some(ValueKind::Truth),
        SocketKind::Int => Some(ValueKind::Int),
        SocketKind::Fixed => Some(ValueKind::Fixed),
        SocketKind::Vector => Some(ValueKind::Vector),
        SocketKind::Geometry => None,
    }
}

fn compare_kind(kind: SocketKind) -> Option<CompareKind>
    ensures { result ≡ spec.compare_kind_in kind }
{
    match kind {
        SocketKind::Int => Some(CompareKind::Int),
        SocketKind::Fixed => Some(CompareKind::Fixed),
        _ => None,
    }
}

fn mix_kind(kind: SocketKind) -> Option<MixKind>
    ensures { result ≡ spec.mix_kind_in kind }
{
    match kind {
        SocketKind::Fixed => Some(MixKind::Fixed),
        SocketKind::Vector => Some(MixKind::Vector),
        _ => None,
    }
}

/// The kind of that name which has no settings.
#[tactic(auto, unfolding(crate::specs::Kinds::bare_kinds))]
fn bare_kind(name: &str) -> Option<Kind>
    ensures { option_map seen result ≡ spec.named_in_bare name.now }
{
    match name {
        "position" => Some(Kind::Position),
        "index" => Some(Kind::Index),
        "id" => Some(Kind::Id),
        "normal" => Some(Kind::Normal),
        "edge_vertices" => Some(Kind::EdgeVertices),
        "vertex_neighbors" => Some(Kind::VertexNeighbors),
        "clamp" => Some(Kind::Clamp),
        "combine_xyz" => Some(Kind::CombineXyz),
        "separate_xyz" => Some(Kind::SeparateXyz),
        "domain_size" => Some(Kind::DomainSize),
        "set_position" => Some(Kind::SetPosition),
        "set_id" => Some(Kind::SetId),
        "join_geometry" => Some(Kind::JoinGeometry),
        "transform_geometry" => Some(Kind::TransformGeometry),
        "separate_components" => Some(Kind::SeparateComponents),
        "bounding_box" => Some(Kind::BoundingBox),
        "flip_faces" => Some(Kind::FlipFaces),
        "points_to_vertices" => Some(Kind::PointsToVertices),
        "duplicate_elements" => Some(Kind::DuplicateElements),
        "mesh_line" => Some(Kind::MeshLine),
        "grid" => Some(Kind::Grid),
        "cube" => Some(Kind::Cube),
        "points" => Some(Kind::Points),
        "geometry_to_instance" => Some(Kind::GeometryToInstance),
        "instance_on_points" => Some(Kind::InstanceOnPoints),
        "realize_instances" => Some(Kind::RealizeInstances),
        "translate_instances" => Some(Kind::TranslateInstances),
        "scale_instances" => Some(Kind::ScaleInstances),
        "instances_to_points" => Some(Kind::InstancesToPoints),
        _ => None,
    }
}

fn kind_by_value(name: &str, value: Value) -> Option<Kind>
    ensures { option_map seen result ≡ spec.kind_by_value name.now value }
{
    match value {
        Value::Truth(value) if name == "boolean" => Some(Kind::Boolean { value }),
        Value::Int(value) if name == "integer" => Some(Kind::Integer { value }),
        Value::Fixed(value) if name == "float" => Some(Kind::Float { value }),
        Value::Vector(value) if name == "vector" => Some(Kind::Vector { value }),
        _ => None,
    }
}

#[tactic(auto, unfolding(crate::specs::Kinds::readers_of_op))]
fn kind_by_op(name: &str, op: &str) -> Option<Kind>
    ensures { option_map seen result ≡ spec.kind_by_op name.now op.now }
{
    match name {
        "math" => Some(Kind::Math { op: math_op(op)? }),
        "integer_math" => Some(Kind::IntegerMath {
            op: integer_math_op(op)?,
        }),
        "vector_math" => Some(Kind::VectorMath {
            op: vector_math_op(op)?,
        }),
        "boolean_math" => Some(Kind::BooleanMath {
            op: boolean_math_op(op)?,
        }),
        "float_to_integer" => Some(Kind::FloatToInteger {
            op: round_mode(op)?,
        }),
        _ => None,
    }
}

#[tactic(auto, unfolding(crate::specs::Kinds::readers_of_type))]
fn kind_by_type(name: &str, of: SocketKind) -> Option<Kind>
    ensures { option_map seen result ≡ spec.kind_by_type name.now of }
{
    match name {
        "mix" => Some(Kind::Mix { of: mix_kind(of)? }),
        "random_value" => Some(Kind::RandomValue {
            of: value_kind(of)?,
        }),
        "switch" => Some(Kind::Switch { of }),
        _ => None,
    }
}

#[tactic(auto, unfolding(crate::specs::Kinds::kinds_by_place))]
fn kind_by_place(name: &str, place: Place) -> Option<Kind>
    ensures { option_map seen result ≡ spec.kind_by_place name.now place }
{
    match name {
        "sample_nearest" => Some(Kind::SampleNearest { place }),
        "attribute_statistic" => Some(Kind::AttributeStatistic { place }),
        "delete_geometry" => Some(Kind::DeleteGeometry { place }),
        "separate_geometry" => Some(Kind::SeparateGeometry { place }),
        "mesh_to_points" => Some(Kind::MeshToPoints { place }),
        _ => None,
    }
}

#[tactic(auto, unfolding(crate::specs::Kinds::kinds_by_type_and_place))]
fn kind_by_type_and_place(name: &str, of: SocketKind, place: Place) -> Option<Kind>
    ensures { option_map seen result ≡ spec.kind_by_type_and_place name.now of place }
{
    let of = value_kind(of)?;
    match name {
        "accumulate_field" => Some(Kind::AccumulateField { of, place }),
        "evaluate_at_index" => Some(Kind::EvaluateAtIndex { of, place }),
        "evaluate_on_domain" => Some(Kind::EvaluateOnDomain { of, place }),
        "capture_attribute" => Some(Kind::CaptureAttribute { of, place }),
        _ => None,
    }
}

fn comparison(name: &str, of: SocketKind, op: &str) -> Option<Kind>
    ensures { option_map seen result ≡ spec.comparison name.now of op.now }
{
    if name != "compare" {
        return None;
    }
    let of = compare_kind(of)?;
    let op = compare_op(op)?;
    Some(Kind::Compare { of, op })
}

fn clamped(name: &str, clamp: bool) -> Option<Kind>
    ensures { option_map seen result ≡ spec.kind_by_clamp name.now clamp }
{
    if name == "map_range" {
        return Some(Kind::MapRange { clamp });
    }
    None
}

fn kind_by_name(name: &str, text: &String) -> Result<Option<Kind>, Memory>
    ensures { IfOk result (λ kind. option_map seen kind ≡ spec.kind_by_name name.now (string_bytes text.now)) }
{
    if name == "remove_named_attribute" {
        let name = text.clone()?;
        return Ok(Some(Kind::RemoveNamedAttribute { name }));
    }
    Ok(None)
}

fn kind_by_file(name: &str, file: &String) -> Result<Option<Kind>, Memory>
    ensures { IfOk result (λ kind. option_map seen kind ≡ spec.kind_by_file name.now (string_bytes file.now)) }
{
    if name == "import_obj" {
        let file = file.clone()?;
        return Ok(Some(Kind::ImportObj { file }));
    }
    Ok(None)
}

fn named_attribute(name: &str, text: &String, of: SocketKind) -> Result<Option<Kind>, Memory>
    ensures { IfOk result (λ kind. option_map seen kind ≡ spec.kind_by_name_and_type name.now (string_bytes text.now) of) }
{
    if name != "named_attribute" {
        return Ok(None);
    }
    let Some(of) = value_kind(of) else {
        return Ok(None);
    };
    let name = text.clone()?;
    Ok(Some(Kind::NamedAttribute { name, of }))
}

fn stored_as(text: &String, of: SocketKind, place: Place) -> Result<Option<Kind>, Memory>
    ensures { IfOk result (λ kind. option_map seen kind ≡ spec.stored_as (string_bytes text.now) of place) }
{
    let Some(of) = value_kind(of) else {
        return Ok(None);
    };
    let name = text.clone()?;
    Ok(Some(Kind::StoreNamedAttribute { name, of, place }))
}

fn stored_attribute(
    name: &str,
    text: &String,
    of: SocketKind,
    place: Place,
) -> Result<Option<Kind>, Memory>
    ensures { IfOk result (λ kind. option_map seen kind ≡ spec.kind_by_name_type_and_place name.now (string_bytes text.now) of place) }
{
    if name != "store_named_attribute" {
        return Ok(None);
    }
    stored_as(text, of, place)
}

fn sample(name: &str, of: SocketKind, place: Place, clamp: bool) -> Option<Kind>
    ensures { option_map seen result ≡ spec.sample_by name.now of place clamp }
{
    if name != "sample_index" {
        return None;
    }
    let of = value_kind(of)?;
    Some(Kind::SampleIndex { of, place, clamp })
}

/// The zone of that name with this body, which keeps the groups of its tree.
fn zone_kind(
    alloc: Global,
    name: &str,
    zone: &Zone,
    groups: &Arc<Vec<Group>>,
) -> Result<Option<Kind>, Memory>
    ensures { IfOk result (λ kind. option_map seen kind ≡ spec.zone_kind name.now (map socket_of zone.now.items.items) (nodes_of zone.now.nodes.items) (map named_of zone.now.output.items) (map group_of (arc_value groups.now).items)) }
{
    if name == "repeat" {
        let items = sockets(alloc, &zone.items)?;
        let nodes = nodes(alloc, &zone.nodes)?;
        let output = inputs(alloc, &zone.output)?;
        let groups = groups.clone()?;
        return Ok(Some(Kind::Repeat {
            items,
            nodes,
            output,
            groups,
        }));
    }
    Ok(None)
}

fn kind_by_one(
    alloc: Global,
    name: &str,
    setting: &Setting,
    groups: &Arc<Vec<Group>>,
) -> Result<Option<Kind>, Memory>
    ensures { IfOk result (λ kind. option_map seen kind ≡ kind_with (map group_of (arc_value groups.now).items) name.now (setting_then setting.now no_settings)) }
{
    match setting {
        Setting::Value { value } => Ok(kind_by_value(name, *value)),
        Setting::Op { name: op } => Ok(kind_by_op(name, op)),
        Setting::Of { kind } => Ok(kind_by_type(name, *kind)),
        Setting::Place { place } => Ok(kind_by_place(name, *place)),
        Setting::Clamp { on } => Ok(clamped(name, *on)),
        Setting::Name { text } => kind_by_name(name, text),
        Setting::File { name: file } => kind_by_file(name, file),
        Setting::Group { .. } => Ok(None),
        Setting::Zone { zone } => zone_kind(alloc, name, zone, groups),
    }
}

fn kind_by_two(name: &str, first: &Setting, second: &Setting) -> Result<Option<Kind>, Memory>
    ensures { IfOk result (λ kind. (groups : List TreeGroup) → option_map seen kind ≡ kind_with groups name.now (setting_then first.now (setting_then second.now no_settings))) }
{
    match (first, second) {
        (Setting::Of { kind }, Setting::Op { name: op }) => Ok(comparison(name, *kind, op)),
        (Setting::Of { kind }, Setting::Place { place }) => {
            Ok(kind_by_type_and_place(name, *kind, *place))
        }
        (Setting::Name { text }, Setting::Of { kind }) => named_attribute(name, text, *kind),
        _ => Ok(None),
    }
}

fn kind_by_three(
    name: &str,
    first: &Setting,
    second: &Setting,
    third: &Setting,
) -> Result<Option<Kind>, Memory>
    ensures { IfOk result (λ kind. (groups : List TreeGroup) → option_map seen kind ≡ kind_with groups name.now (setting_then first.now (setting_then second.now (setting_then third.now no_settings)))) }
{
    match (first, second, third) {
        (Setting::Of { kind }, Setting::Place { place }, Setting::Clamp { on }) => {
            Ok(sample(name, *kind, *place, *on))
        }
        (Setting::Name { text }, Setting::Of { kind }, Setting::Place { place }) => {
            stored_attribute(name, text, *kind, *place)
        }
        _ => Ok(None),
    }
}

/// The kind of a node with the values of its settings, which are copied; a zone keeps these groups, which
/// are those of its tree. There is none exactly where no kind has this name and these settings: of the
/// nodes of a tree of its form, the group nodes have none.
pub fn kind_of(alloc: Global, node: &Node, groups: &Arc<Vec<Group>>) -> Result<Option<Kind>, Memory>
    ensures { IfOk result (λ kind. option_map seen kind ≡ kind_with (map group_of (arc_value groups.now).items) (kind_in node.now) (settings_in node.now)) }
{
    let name = node.kind();
    match node.settings() {
        [] => Ok(bare_kind(name)),
        [only] => kind_by_one(alloc, name, only, groups),
        [first, second] => kind_by_two(name, first, second),
        [first, second, third] => kind_by_three(name, first, second, third),
        _ => Ok(None),
    }
}
