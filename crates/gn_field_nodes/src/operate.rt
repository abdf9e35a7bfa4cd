//! Fields that operations and steps make of others.
ghost use Rattle.std.specs.Prelude.{◌≡◌, [], ◌∷◌, ◌++◌, IfOk, IfErr, OnOk};
ghost use Rattle.gn_value.specs.declared.op.Axis.{Axis};
ghost use Rattle.gn_value.specs.declared.op.Axis.TheVariants.{X, Y, Z};
ghost use Rattle.gn_value.specs.declared.op.Op.TheVariants.{BooleanMath, IntegerMath, RandomValue, SeparateXyz, VectorMath};
ghost use Rattle.gn_plain.specs.Fields.{kind_of_field, accumulate, at_index, on_domain, leading, trailing, total};
ghost use Rattle.gn_plain.specs.Subtrees.{count_different};
ghost use Rattle.gn_field.specs.declared.input.Part.{Part};
ghost use Rattle.gn_field.specs.Faults.{IsFieldFault};
ghost use Rattle.gn_field.specs.Steps.{plain_part, step_of};
ghost use Rattle.gn_field_rows.specs.Arguments.{operated, vector_or_number, vector_math_outputs};
ghost use Rattle.gn_field_rows.specs.Outputs.{seen_from};
ghost use Rattle.gn_field_nodes.specs.Given.{CanApply, CanRead, IsFaultOf};

use crate::read::{only, push};
use gn_field::{Field, FieldFault, Part, Source, Step};
use gn_memory::Memory;
use gn_value::op::{Axis, BooleanMathOp, IntegerMathOp, Op, VectorMathOp};
use gn_value::{Place, Value, ValueKind};
use std::alloc::Global;

/// The fields once more.
fn seconds<S: Source>(alloc: Global, fields: &[Field<S>]) -> Result<Vec<Field<S>>, Memory>
    ensures { IfOk result (λ seconds. seconds.items ≡ fields.now) }
{
    let mut seconds = Vec::with_capacity(alloc, fields.len())?;
    for field in fields {
        seconds.push(field.second()?)?;
    }
    Ok(seconds)
}

/// What an operation gives for fields.
pub(crate) fn operation<S: Source>(
    alloc: Global,
    op: Op,
    args: Vec<Field<S>>,
) -> Result<Vec<Field<S>>, FieldFault>
    requires { CanApply S.sources op args.items }
    ensures row { IfOk result (λ fields. fields.items ≡ operated op args.items ∷ []) }
    ensures fault { IfErr result (IsFaultOf (operated op args.items ∷ [])) }
{
    let field = Field::apply(alloc, op, args)?;
    let fields = only(alloc, field)?;
    Ok(fields)
}

/// What an operation on integers gives for its arguments.
pub(crate) fn integer_math<S: Source>(
    alloc: Global,
    op: IntegerMathOp,
    args: Vec<Field<S>>,
) -> Result<Vec<Field<S>>, FieldFault>
    requires { CanApply S.sources (IntegerMath op) args.items }
    ensures row { IfOk result (λ fields. fields.items ≡ operated (IntegerMath op) args.items ∷ []) }
    ensures fault { IfErr result (IsFaultOf (operated (IntegerMath op) args.items ∷ [])) }
{
    operation(alloc, Op::IntegerMath { op }, args)
}

/// What an operation on truths gives for its arguments.
pub(crate) fn boolean_math<S: Source>(
    alloc: Global,
    op: BooleanMathOp,
    args: Vec<Field<S>>,
) -> Result<Vec<Field<S>>, FieldFault>
    requires { CanApply S.sources (BooleanMath op) args.items }
    ensures row { IfOk result (λ fields. fields.items ≡ operated (BooleanMath op) args.items ∷ []) }
    ensures fault { IfErr result (IsFaultOf (operated (BooleanMath op) args.items ∷ [])) }
{
    operation(alloc, Op::BooleanMath { op }, args)
}

/// Random values of a kind.
pub(crate) fn random_value<S: Source>(
    alloc: Global,
    kind: ValueKind,
    args: Vec<Field<S>>,
) -> Result<Vec<Field<S>>, FieldFault>
    requires { CanApply S.sources (RandomValue kind) args.items }
    ensures row { IfOk result (λ fields. fields.items ≡ operated (RandomValue kind) args.items ∷ []) }
    ensures fault { IfErr result (IsFaultOf (operated (RandomValue kind) args.items ∷ [])) }
{
    operation(alloc, Op::RandomValue { kind }, args)
}

/// What a step gives for fields.
fn step<S: Source>(
    alloc: Global,
    step: Step,
    args: Vec<Field<S>>,
) -> Result<Vec<Field<S>>, FieldFault>
    requires { CanRead S.sources (step_of step) args.items }
    ensures row { IfOk result (λ fields. fields.items ≡ seen_from (step_of step) args.items ∷ []) }
    ensures fault { IfErr result (IsFaultOf (seen_from (step_of step) args.items ∷ [])) }
{
    let field = Field::elsewhere(alloc, step, args)?;
    let fields = only(alloc, field)?;
    Ok(fields)
}

/// The values at the elements of an index.
pub(crate) fn at_index<S: Source>(
    alloc: Global,
    kind: ValueKind,
    place: Place,
    args: Vec<Field<S>>,
) -> Result<Vec<Field<S>>, FieldFault>
    requires { CanRead S.sources (at_index kind place) args.items }
    ensures row { IfOk result (λ fields. fields.items ≡ seen_from (at_index kind place) args.items ∷ []) }
    ensures fault { IfErr result (IsFaultOf (seen_from (at_index kind place) args.items ∷ [])) }
{
    step(alloc, Step::AtIndex { kind, place }, args)
}

/// The values on the elements of a place.
pub(crate) fn on_domain<S: Source>(
    alloc: Global,
    kind: ValueKind,
    place: Place,
    args: Vec<Field<S>>,
) -> Result<Vec<Field<S>>, FieldFault>
    requires { CanRead S.sources (on_domain kind place) args.items }
    ensures row { IfOk result (λ fields. fields.items ≡ seen_from (on_domain kind place) args.items ∷ []) }
    ensures fault { IfErr result (IsFaultOf (seen_from (on_domain kind place) args.items ∷ [])) }
{
    step(alloc, Step::OnDomain { kind, place }, args)
}

/// A field as the vector and the number of an output each; the other one is zero.
fn vector_or_number<S: Source>(alloc: Global, field: Field<S>) -> Result<Vec<Field<S>>, Memory>
    ensures { IfOk result (λ fields. fields.items ≡ vector_or_number (kind_of_field S.sources field) field) }
{
    let mut fields = Vec::new(alloc);
    if field.kind() == ValueKind::Vector {
        fields.push(field)?;
        fields.push(Field::constant(alloc, Value::zero(ValueKind::Fixed))?)?;
    } else {
        fields.push(Field::constant(alloc, Value::zero(ValueKind::Vector))?)?;
        fields.push(field)?;
    }
    Ok(fields)
}

/// What an operation on vectors gives for its arguments: a vector or a number, beside a zero.
#[tactic(auto, unfolding(gn_value::specs::Operations::gives))]
pub(crate) fn vector_math<S: Source>(
    alloc: Global,
    op: VectorMathOp,
    args: Vec<Field<S>>,
) -> Result<Vec<Field<S>>, FieldFault>
    requires { CanApply S.sources (VectorMath op) args.items }
    ensures row { IfOk result (λ fields. fields.items ≡ vector_math_outputs op (operated (VectorMath op) args.items)) }
    ensures fault { IfErr result (IsFaultOf (vector_math_outputs op (operated (VectorMath op) args.items))) }
{
    let field = Field::apply(alloc, Op::VectorMath { op }, args)?;
    let fields = vector_or_number(alloc, field)?;
    Ok(fields)
}

fn push_operation<S: Source>(
    alloc: Global,
    op: Op,
    args: &[Field<S>],
    fields: &mut Vec<Field<S>>,
) -> Result<(), FieldFault>
    requires { CanApply S.sources op args.now }
    ensures row { OnOk result (fields.new.items ≡ fields.old.items ++ operated op args.now ∷ []) }
    ensures fault { IfErr result (IsFieldFault (count_different (operated op args.now ∷ []))) }
{
    let args = seconds(alloc, args)?;
    let field = Field::apply(alloc, op, args)?;
    push(fields, field)?;
    Ok(())
}

/// The components of a vector.
pub(crate) fn separate_xyz<S: Source>(
    alloc: Global,
    args: &[Field<S>],
) -> Result<Vec<Field<S>>, FieldFault>
    requires { (axis : Axis) → CanApply S.sources (SeparateXyz axis) args.now }
    ensures row { IfOk result (λ fields. fields.items ≡ operated (SeparateXyz X) args.now ∷ operated (SeparateXyz Y) args.now ∷ operated (SeparateXyz Z) args.now ∷ []) }
    ensures fault { IfErr result (IsFaultOf (operated (SeparateXyz X) args.now ∷ operated (SeparateXyz Y) args.now ∷ operated (SeparateXyz Z) args.now ∷ [])) }
{
    let mut fields = Vec::new(alloc);
    push_operation(alloc, Op::SeparateXyz { axis: Axis::X }, args, &mut fields)?;
    push_operation(alloc, Op::SeparateXyz { axis: Axis::Y }, args, &mut fields)?;
    push_operation(alloc, Op::SeparateXyz { axis: Axis::Z }, args, &mut fields)?;
    Ok(fields)
}

fn push_step<S: Source>(
    alloc: Global,
    step: Step,
    args: &[Field<S>],
    fields: &mut Vec<Field<S>>,
) -> Result<(), FieldFault>
    requires { CanRead S.sources (step_of step) args.now }
    ensures row { OnOk result (fields.new.items ≡ fields.old.items ++ seen_from (step_of step) args.now ∷ []) }
    ensures fault { IfErr result (IsFieldFault (count_different (seen_from (step_of step) args.now ∷ []))) }
{
    let args = seconds(alloc, args)?;
    let field = Field::elsewhere(alloc, step, args)?;
    push(fields, field)?;
    Ok(())
}

fn sum(kind: ValueKind, place: Place, part: Part) -> Step
    ensures { step_of result ≡ accumulate kind place (plain_part part) }
{
    Step::Accumulate { kind, place, part }
}

/// The sums over the elements of a group: those up to an element, those before it, and all.
pub(crate) fn sums<S: Source>(
    alloc: Global,
    kind: ValueKind,
    place: Place,
    args: &[Field<S>],
) -> Result<Vec<Field<S>>, FieldFault>
    requires { (part : Part) → CanRead S.sources (accumulate kind place (plain_part part)) args.now }
    ensures row { IfOk result (λ fields. fields.items ≡ seen_from (accumulate kind place leading) args.now ∷ seen_from (accumulate kind place trailing) args.now ∷ seen_from (accumulate kind place total) args.now ∷ []) }
    ensures fault { IfErr result (IsFaultOf (seen_from (accumulate kind place leading) args.now ∷ seen_from (accumulate kind place trailing) args.now ∷ seen_from (accumulate kind place total) args.now ∷ [])) }
{
    let mut fields = Vec::new(alloc);
    push_step(alloc, sum(kind, place, Part::Leading), args, &mut fields)?;
    push_step(alloc, sum(kind, place, Part::Trailing), args, &mut fields)?;
    push_step(alloc, sum(kind, place, Part::Total), args, &mut fields)?;
    Ok(fields)
}
