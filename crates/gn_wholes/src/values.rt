// The values of steps at all elements of a context.
ghost use Rattle.std.specs.Prelude.{◌≡◌, ◌<◌, ◌^◌, length, map, IfOk};
ghost use Rattle.std.specs.List.{range_with_len};
ghost use Rattle.gn_plain.specs.Contexts.{length_of};
ghost use Rattle.gn_field.specs.Steps.{AreBelow, built, named};
ghost use Rattle.gn_slots.specs.Registers.{AllGive, AreWhole};
ghost use Rattle.gn_wholes.specs.Covers.{AreRunnable, CoversRoots};

use gn_field::{Context, FieldStep, Source};
use gn_memory::Memory;
use gn_schedule::plan_of;
use gn_slots::{Whole, run_roots};
use gn_value::op::Register;
use std::alloc::Global;

/// The numbers of all elements of a context.
fn all_elements<C: Context>(alloc: Global, context: &C) -> Result<Vec<u32>, Memory>
    ensures all { IfOk result (λ elements. elements.items ≡ range_with_len 0 (length_of (C.meaning context.now))) }
    ensures few { length_of (C.meaning context.now) < 2 ^ 32 }
{
    let count = context.len();
    let mut elements = Vec::with_capacity(alloc, count as usize)?;
    for element in 0..count {
        elements.push(element)?;
    }
    Ok(elements)
}

/// The values of steps at all elements of a context.
pub(crate) fn values_on<S: Source, C: Context>(
    alloc: Global,
    steps: &[FieldStep<S>],
    roots: &[u32],
    context: &C,
    wholes: &[Whole],
) -> Result<Vec<Register>, Memory>
    requires steps { AreRunnable S.sources S.taken steps.now }
    requires within { AreBelow (length steps.now) roots.now }
    requires whole { AreWhole S.sources (built steps.now) (C.meaning context.now) wholes.now }
    requires covers { CoversRoots (C.meaning context.now) steps.now roots.now wholes.now }
    ensures give { IfOk result (λ registers. AllGive S.sources (C.meaning context.now) (range_with_len 0 (length_of (C.meaning context.now))) (map (named (built steps.now)) roots.now) registers.items) }
    ensures few { IfOk result (λ _. length_of (C.meaning context.now) < 2 ^ 32) }
{
    let plan = plan_of(alloc, steps, roots)?;
    let elements = all_elements(alloc, context)?;
    run_roots(alloc, steps, &plan, context, wholes, &elements)
}
