// The value of a field at one element.
ghost use Rattle.std.specs.Prelude.{◌≡◌, ◌<◌, length, IfOk};
ghost use Rattle.gn_value.specs.Values.{kind_of};
ghost use Rattle.gn_plain.specs.Contexts.{length_of};
ghost use Rattle.gn_plain.specs.Fields as plain;
ghost use Rattle.gn_plain.specs.Fields.{kind_of_field};
ghost use Rattle.gn_field.specs.Steps.{built, named};
ghost use Rattle.gn_wholes.specs.Covers.{AreRunnable};

use gn_field::{Context, Field, FieldStep, Source};
use gn_fill::value_at;
use gn_memory::Memory;
use gn_schedule::plan_of;
use gn_slots::run_roots;
use gn_value::Value;
use gn_wholes::wholes_in;
use std::alloc::Global;

/// The value of a step at an element of a context.
fn step_at<S: Source, C: Context + Drop>(
    alloc: Global,
    steps: &[FieldStep<S>],
    step: u32,
    context: &C,
    element: u32,
) -> Result<Value, Memory>
    requires steps { AreRunnable S.sources S.taken steps.now }
    requires within { step < length steps.now }
    requires element { element < length_of (C.meaning context.now) }
    ensures value { IfOk result (λ value. value ≡ plain.at S.sources (named (built steps.now) step) (C.meaning context.now) element) }
    ensures kind { IfOk result (λ value. kind_of value ≡ kind_of_field S.sources (named (built steps.now) step)) }
{
    let roots = [step];
    let elements = [element];
    let wholes = wholes_in(alloc, steps, &roots, context)?;
    let plan = plan_of(alloc, steps, &roots)?;
    let registers = run_roots(alloc, steps, &plan, context, &wholes, &elements)?;
    Ok(value_at(&registers[0], 0))
}

/// The value of a field at an element of a context.
///
/// The values of what the field reads elsewhere are made for this call, so many elements are better
/// read by one run of a tape.
pub fn at<S: Source, C: Context + Drop>(
    alloc: Global,
    field: &Field<S>,
    context: &C,
    element: u32,
) -> Result<Value, Memory>
    requires { element < length_of (C.meaning context.now) }
    ensures value { IfOk result (λ value. value ≡ plain.at S.sources field.now (C.meaning context.now) element) }
    ensures kind { IfOk result (λ value. kind_of value ≡ kind_of_field S.sources field.now) }
{
    let steps = field.steps();
    let last = (steps.len() - 1) as u32;
    step_at(alloc, steps, last, context, element)
}
