// The values of a step that reads its arguments elsewhere, at all elements of a context.
ghost use Rattle.std.specs.Prelude.{◌≡◌, length, map, take, drop, [], ◌∷◌, IfOk};
ghost use Rattle.gn_value.specs.declared.value.ValueKind.TheVariants.{Int};
ghost use Rattle.gn_plain.specs.Contexts.{length_of};
ghost use Rattle.gn_plain.specs.Fields.{elsewhere, accumulate, at_index, on_domain, place_of_step as own_place};
ghost use Rattle.gn_field.specs.Kinds.{kinds_in, step_takes};
ghost use Rattle.gn_field.specs.Steps.{AreBelow, built, exprs_of, named, plain_part, step_of};
ghost use Rattle.gn_slots.specs.Registers.{AreWhole};
ghost use Rattle.gn_wholes.specs.Contexts.{HasPlace, moved};
ghost use Rattle.gn_wholes.specs.Covers.{AreRunnable, CoversArguments, CoversRoots, GivesWhole, IsConstant};

use crate::here::bring_here;
use crate::values::values_on;
use gn_elsewhere::sums;
use gn_field::{Context, FieldStep, Part, Source, Step};
use gn_fill::{pick_at, zeros};
use gn_memory::Memory;
use gn_registers::OfKind;
use gn_slots::Whole;
use gn_value::op::Register;
use gn_value::{Place, ValueKind};
use std::alloc::Global;

/// The place that a step reads its arguments on.
fn place_of_step(step: Step) -> Place
    ensures { result ≡ own_place (step_of step) }
{
    match step {
        Step::Accumulate { place, .. }
        | Step::AtIndex { place, .. }
        | Step::OnDomain { place, .. } => place,
    }
}

/// Zero at each element of a context.
fn zero_on<C: Context>(alloc: Global, kind: ValueKind, context: &C) -> Result<Register, Memory>
    ensures { IfOk result (λ register. IsConstant kind (length_of (C.meaning context.now)) register) }
{
    zeros(alloc, kind, context.len() as usize)
}

/// Sums over a place, at all elements of a context.
fn sums_on<S: Source, C: Context>(
    alloc: Global,
    steps: &[FieldStep<S>],
    step: (ValueKind, Place, Part),
    args: &[u32],
    context: &C,
    source: &C,
    wholes: &[Whole],
) -> Result<Register, Memory>
    requires steps { AreRunnable S.sources S.taken steps.now }
    requires within { AreBelow (length steps.now) args.now }
    requires kinds { kinds_in S.sources (exprs_of (map (named (built steps.now)) args.now)) ≡ step.0 ∷ Int ∷ [] }
    requires whole { AreWhole S.sources (built steps.now) (C.meaning context.now) wholes.now }
    requires has { HasPlace (C.meaning context.now) step.1 }
    requires source { C.meaning source.now ≡ moved (C.meaning context.now) step.1 }
    requires covers { CoversRoots (C.meaning source.now) steps.now args.now wholes.now }
    ensures { IfOk result (λ register. GivesWhole S.sources (C.meaning context.now) (elsewhere (accumulate step.0 step.1 (plain_part step.2)) (exprs_of (map (named (built steps.now)) args.now))) register) }
{
    let (_, place, part) = step;
    let arguments = values_on(alloc, steps, args, source, wholes)?;
    let sums = sums(alloc, part, &arguments[0], i32::list(&arguments[1]))?;
    bring_here(alloc, sums, place, context)
}

/// Values on a place, at all elements of a context.
fn domain_on<S: Source, C: Context>(
    alloc: Global,
    steps: &[FieldStep<S>],
    step: (ValueKind, Place),
    args: &[u32],
    context: &C,
    source: &C,
    wholes: &[Whole],
) -> Result<Register, Memory>
    requires steps { AreRunnable S.sources S.taken steps.now }
    requires within { AreBelow (length steps.now) args.now }
    requires kinds { kinds_in S.sources (exprs_of (map (named (built steps.now)) args.now)) ≡ step.0 ∷ [] }
    requires whole { AreWhole S.sources (built steps.now) (C.meaning context.now) wholes.now }
    requires has { HasPlace (C.meaning context.now) step.1 }
    requires source { C.meaning source.now ≡ moved (C.meaning context.now) step.1 }
    requires covers { CoversRoots (C.meaning source.now) steps.now args.now wholes.now }
    ensures { IfOk result (λ register. GivesWhole S.sources (C.meaning context.now) (elsewhere (on_domain step.0 step.1) (exprs_of (map (named (built steps.now)) args.now))) register) }
{
    let (_, place) = step;
    let mut arguments = values_on(alloc, steps, args, source, wholes)?;
    let values = arguments.swap_remove(0);
    bring_here(alloc, values, place, context)
}

/// Values on a place at indices, at all elements of a context.
fn indexed_on<S: Source, C: Context>(
    alloc: Global,
    steps: &[FieldStep<S>],
    step: (ValueKind, Place),
    args: &[u32],
    context: &C,
    source: &C,
    wholes: &[Whole],
) -> Result<Register, Memory>
    requires steps { AreRunnable S.sources S.taken steps.now }
    requires within { AreBelow (length steps.now) args.now }
    requires kinds { kinds_in S.sources (exprs_of (map (named (built steps.now)) args.now)) ≡ step.0 ∷ Int ∷ [] }
    requires whole { AreWhole S.sources (built steps.now) (C.meaning context.now) wholes.now }
    requires has { HasPlace (C.meaning context.now) step.1 }
    requires source { C.meaning source.now ≡ moved (C.meaning context.now) step.1 }
    requires covers_value { CoversRoots (C.meaning source.now) steps.now (take 1 args.now) wholes.now }
    requires covers_index { CoversRoots (C.meaning context.now) steps.now (drop 1 args.now) wholes.now }
    ensures { IfOk result (λ register. GivesWhole S.sources (C.meaning context.now) (elsewhere (at_index step.0 step.1) (exprs_of (map (named (built steps.now)) args.now))) register) }
{
    let (kind, _) = step;
    let values = values_on(alloc, steps, &args[..1], source, wholes)?;
    let indices = values_on(alloc, steps, &args[1..], context, wholes)?;
    let mut register = zeros(alloc, kind, context.len() as usize)?;
    pick_at(&values[0], i32::list(&indices[0]), &mut register);
    Ok(register)
}

/// The values of a step that reads its arguments elsewhere, at all elements of a context.
pub(crate) fn step_values<S: Source, C: Context + Drop>(
    alloc: Global,
    steps: &[FieldStep<S>],
    step: Step,
    args: &[u32],
    context: &C,
    wholes: &[Whole],
) -> Result<Register, Memory>
    requires steps { AreRunnable S.sources S.taken steps.now }
    requires within { AreBelow (length steps.now) args.now }
    requires kinds { kinds_in S.sources (exprs_of (map (named (built steps.now)) args.now)) ≡ step_takes (step_of step) }
    requires whole { AreWhole S.sources (built steps.now) (C.meaning context.now) wholes.now }
    requires covers { CoversArguments (C.meaning context.now) steps.now (step_of step) args.now wholes.now }
    ensures { IfOk result (λ register. GivesWhole S.sources (C.meaning context.now) (elsewhere (step_of step) (exprs_of (map (named (built steps.now)) args.now))) register) }
{
    let Some(source) = context.other(alloc, place_of_step(step))? else {
        return zero_on(alloc, step.kind(), context);
    };
    match step {
        Step::Accumulate { kind, place, part } => {
            let step = (kind, place, part);
            sums_on(alloc, steps, step, args, context, &source, wholes)
        }
        Step::AtIndex { kind, place } => {
            indexed_on(alloc, steps, (kind, place), args, context, &source, wholes)
        }
        Step::OnDomain { kind, place } => {
            domain_on(alloc, steps, (kind, place), args, context, &source, wholes)
        }
    }
}
