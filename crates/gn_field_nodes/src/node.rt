//! Nodes whose inputs and outputs are fields.
ghost use Rattle.std.specs.Prelude.{◌≡◌, true, Some, IfOk, IfErr};
ghost use Rattle.gn_node_kind.specs.Seen.{seen};
ghost use Rattle.gn_field.specs.Together.{AgreeOnSources};
ghost use Rattle.gn_field_rows.specs.Outputs.{field_outputs};
ghost use Rattle.gn_field_rows.specs.Kinds.{AreOfKinds, input_kinds};
ghost use Rattle.gn_field_nodes.specs.Given.{IsOutputFault, gives_fields};

use crate::arguments;
use crate::operate::{
    at_index, boolean_math, integer_math, on_domain, operation, random_value, separate_xyz, sums,
    vector_math,
};
use crate::read::{constant, edge_vertices, named_attribute, read, vertex_neighbors};
use gn_field::{Field, FieldFault, Input, Source};
use gn_tree::Kind;
use gn_value::Value;
use gn_value::op::Op;
use std::alloc::Global;

/// Whether the inputs and outputs of nodes of a kind are fields.
pub fn gives_fields(kind: &Kind) -> bool
    ensures { result ≡ gives_fields (seen kind.now) }
{
    matches!(
        kind,
        Kind::Float { .. }
            | Kind::Integer { .. }
            | Kind::Boolean { .. }
            | Kind::Vector { .. }
            | Kind::Position
            | Kind::Index
            | Kind::Id
            | Kind::Normal
            | Kind::NamedAttribute { .. }
            | Kind::EdgeVertices
            | Kind::VertexNeighbors
            | Kind::Math { .. }
            | Kind::IntegerMath { .. }
            | Kind::VectorMath { .. }
            | Kind::BooleanMath { .. }
            | Kind::Compare { .. }
            | Kind::Clamp
            | Kind::MapRange { .. }
            | Kind::Mix { .. }
            | Kind::FloatToInteger { .. }
            | Kind::CombineXyz
            | Kind::SeparateXyz
            | Kind::RandomValue { .. }
            | Kind::AccumulateField { .. }
            | Kind::EvaluateAtIndex { .. }
            | Kind::EvaluateOnDomain { .. }
    )
}

/// The fields at the outputs of a node, for those at its inputs, which have the kinds that the node takes.
///
/// `TooMany` comes only where one of the fields would have more than 4,096 different subtrees.
pub fn outputs<S: Source>(
    alloc: Global,
    kind: &Kind,
    inputs: Vec<Field<S>>,
) -> Result<Vec<Field<S>>, FieldFault>
    requires kind { gives_fields (seen kind.now) ≡ true }
    requires fit { AreOfKinds S.sources S.taken (input_kinds (seen kind.now)) inputs.items }
    requires one_source { AgreeOnSources inputs.items }
    ensures row { IfOk result (λ outputs. field_outputs (seen kind.now) inputs.items ≡ Some outputs.items) }
    ensures fault { IfErr result (IsOutputFault (field_outputs (seen kind.now) inputs.items)) }
{
    match kind {
        Kind::Float { value } => Ok(constant(alloc, Value::Fixed(*value))?),
        Kind::Integer { value } => Ok(constant(alloc, Value::Int(*value))?),
        Kind::Boolean { value } => Ok(constant(alloc, Value::Truth(*value))?),
        Kind::Vector { value } => Ok(constant(alloc, Value::Vector(*value))?),
        Kind::Position => Ok(read(alloc, Input::Position)?),
        Kind::Index => Ok(read(alloc, Input::Index)?),
        Kind::Id => Ok(read(alloc, Input::Id)?),
        Kind::Normal => Ok(read(alloc, Input::Normal)?),
        Kind::NamedAttribute { name, of } => Ok(named_attribute(alloc, name, *of)?),
        Kind::EdgeVertices => Ok(edge_vertices(alloc)?),
        Kind::VertexNeighbors => Ok(vertex_neighbors(alloc)?),
        Kind::Math { op } => operation(alloc, Op::Math { op: *op }, arguments::math(*op, inputs)),
        Kind::IntegerMath { op } => integer_math(alloc, *op, arguments::integer_math(*op, inputs)),
        Kind::BooleanMath { op } => boolean_math(alloc, *op, arguments::boolean_math(*op, inputs)),
        Kind::VectorMath { op } => vector_math(alloc, *op, arguments::vector_math(*op, inputs)),
        Kind::Compare { of, op } => operation(alloc, Op::Compare { kind: *of, op: *op }, inputs),
        Kind::Clamp => operation(alloc, Op::Clamp, inputs),
        Kind::MapRange { clamp } => operation(alloc, Op::MapRange { clamp: *clamp }, inputs),
        Kind::Mix { of } => operation(alloc, Op::Mix { kind: *of }, inputs),
        Kind::FloatToInteger { op } => operation(alloc, Op::FloatToInteger { op: *op }, inputs),
        Kind::CombineXyz => operation(alloc, Op::CombineXyz, inputs),
        Kind::SeparateXyz => separate_xyz(alloc, &inputs),
        Kind::RandomValue { of } => random_value(alloc, *of, arguments::random_value(*of, inputs)),
        Kind::AccumulateField { of, place } => sums(alloc, *of, *place, &inputs),
        Kind::EvaluateAtIndex { of, place } => at_index(alloc, *of, *place, inputs),
        Kind::EvaluateOnDomain { of, place } => on_domain(alloc, *of, *place, inputs),
        _ => Ok(Vec::new(alloc)),
    }
}
