// The values of the steps that read elsewhere, on the places that they are read on.
ghost use Rattle.std.specs.Prelude.{◌≡◌, true, ◌<◌, ◌+◌, ◌*◌, Some, length, slice_get, IfOk, OnOk};
ghost use Rattle.gn_value.specs.Values.{position_of_place};
ghost use Rattle.gn_field.specs.Contexts.{place_of};
ghost use Rattle.gn_field.specs.Steps.{built, AreBelow};
ghost use Rattle.gn_field.specs.declared.step.FieldStep.{FieldStep};
ghost use Rattle.gn_schedule.specs.Asked.{asked, AreAsked};
ghost use Rattle.gn_slots.specs.Registers.{AreWhole, IsCovered};
ghost use Rattle.gn_wholes.specs.Covers.{AreInOrder, AreOnce, AreRunnable, AreSoFar, CoversRoots, Grows, IsThereOnPlace};

use crate::steps::step_values;
use gn_field::{Context, FieldStep, Source};
use gn_memory::Memory;
use gn_schedule::{Places, asked_places};
use gn_slots::Whole;
use gn_value::Place;
use std::alloc::Global;

/// Adds the values of a step that reads elsewhere at all elements of a context on one of the places
/// that the step is asked for on.
fn add_on<S: Source, C: Context + Drop>(
    alloc: Global,
    steps: &[FieldStep<S>],
    at: usize,
    table: &[Places],
    context: &C,
    place: Place,
    wholes: &mut Vec<Whole>,
) -> Result<(), Memory>
    requires steps { AreRunnable S.sources S.taken steps.now }
    requires within { at < length steps.now }
    requires table { AreAsked steps.now table.now }
    requires place { place_of (C.meaning context.now) ≡ Some place }
    requires asked { asked table.now place at ≡ true }
    requires so_far { AreSoFar S.sources (C.meaning context.now) table.now steps.now at wholes.old.items }
    requires order { AreInOrder (6 * at + position_of_place place) wholes.old.items }
    ensures order { OnOk result (AreInOrder (6 * at + position_of_place place + 1) wholes.new.items) }
    ensures whole { OnOk result (AreWhole S.sources (built steps.now) (C.meaning context.now) wholes.new.items) }
    ensures grows { OnOk result (Grows wholes.old.items wholes.new.items) }
    ensures there { OnOk result ((x : FieldStep S) → slice_get steps.now at ≡ Some x → IsCovered (C.meaning context.now) wholes.new.items at x) }
{
    match &steps[at] {
        FieldStep::Elsewhere { step, args } => {
            let values = step_values(alloc, steps, *step, args.as_slice(), context, wholes)?;
            let step = at as u32;
            wholes.push(Whole {
                step,
                place,
                values,
            })?;
            Ok(())
        }
        _ => Ok(()),
    }
}

/// Adds the values of a step that reads elsewhere on one place, if it is asked for there and the context
/// reaches the place.
fn add_whole<S: Source, C: Context + Drop>(
    alloc: Global,
    steps: &[FieldStep<S>],
    at: usize,
    table: &[Places],
    context: &C,
    place: Place,
    wholes: &mut Vec<Whole>,
) -> Result<(), Memory>
    requires steps { AreRunnable S.sources S.taken steps.now }
    requires within { at < length steps.now }
    requires table { AreAsked steps.now table.now }
    requires long { length table.now ≡ length steps.now }
    requires so_far { AreSoFar S.sources (C.meaning context.now) table.now steps.now at wholes.old.items }
    requires order { AreInOrder (6 * at + position_of_place place) wholes.old.items }
    ensures order { OnOk result (AreInOrder (6 * at + position_of_place place + 1) wholes.new.items) }
    ensures so_far { OnOk result (AreSoFar S.sources (C.meaning context.now) table.now steps.now at wholes.new.items) }
    ensures grows { OnOk result (Grows wholes.old.items wholes.new.items) }
    ensures there { OnOk result (asked table.now place at ≡ true → IsThereOnPlace (C.meaning context.now) place steps.now at wholes.new.items) }
{
    if !table[at].has(place) {
        return Ok(());
    }
    if context.place() == Some(place) {
        return add_on(alloc, steps, at, table, context, place, wholes);
    }
    match context.other(alloc, place)? {
        Some(other) => add_on(alloc, steps, at, table, &other, place, wholes),
        None => Ok(()),
    }
}

/// The place of a number, counted from 0.
fn place_at(number: u8) -> Place
    requires { number < 6 }
    ensures { position_of_place result ≡ number }
{
    match number {
        0 => Place::Point,
        1 => Place::Edge,
        2 => Place::Face,
        3 => Place::Corner,
        4 => Place::Cloud,
        _ => Place::Instance,
    }
}

/// Adds the values of a step that reads elsewhere on each place that it is asked for on.
fn add_wholes<S: Source, C: Context + Drop>(
    alloc: Global,
    steps: &[FieldStep<S>],
    at: usize,
    table: &[Places],
    context: &C,
    wholes: &mut Vec<Whole>,
) -> Result<(), Memory>
    requires steps { AreRunnable S.sources S.taken steps.now }
    requires within { at < length steps.now }
    requires table { AreAsked steps.now table.now }
    requires long { length table.now ≡ length steps.now }
    requires so_far { AreSoFar S.sources (C.meaning context.now) table.now steps.now at wholes.old.items }
    requires order { AreInOrder (6 * at) wholes.old.items }
    ensures so_far { OnOk result (AreSoFar S.sources (C.meaning context.now) table.now steps.now (at + 1) wholes.new.items) }
    ensures order { OnOk result (AreInOrder (6 * (at + 1)) wholes.new.items) }
{
    for number in 0..6 {
        add_whole(alloc, steps, at, table, context, place_at(number), wholes)?;
    }
    Ok(())
}

/// The values of the steps that read elsewhere, where the roots are read on a place.
fn wholes_on<S: Source, C: Context + Drop>(
    alloc: Global,
    steps: &[FieldStep<S>],
    roots: &[u32],
    context: &C,
    place: Place,
) -> Result<Vec<Whole>, Memory>
    requires steps { AreRunnable S.sources S.taken steps.now }
    requires within { AreBelow (length steps.now) roots.now }
    requires place { place_of (C.meaning context.now) ≡ Some place }
    ensures whole { IfOk result (λ wholes. AreWhole S.sources (built steps.now) (C.meaning context.now) wholes.items) }
    ensures once { IfOk result (λ wholes. AreOnce wholes.items) }
    ensures covers { IfOk result (λ wholes. CoversRoots (C.meaning context.now) steps.now roots.now wholes.items) }
{
    let table = asked_places(alloc, steps, roots, place)?;
    let mut wholes = Vec::new(alloc);
    for at in 0..steps.len() {
        add_wholes(alloc, steps, at, &table, context, &mut wholes)?;
    }
    Ok(wholes)
}

/// The values of the steps that read elsewhere, each on the places that it is read on, and once on each:
/// all that plans of the roots look up in the context. The empty context has none.
pub fn wholes_in<S: Source, C: Context + Drop>(
    alloc: Global,
    steps: &[FieldStep<S>],
    roots: &[u32],
    context: &C,
) -> Result<Vec<Whole>, Memory>
    requires steps { AreRunnable S.sources S.taken steps.now }
    requires within { AreBelow (length steps.now) roots.now }
    ensures whole { IfOk result (λ wholes. AreWhole S.sources (built steps.now) (C.meaning context.now) wholes.items) }
    ensures once { IfOk result (λ wholes. AreOnce wholes.items) }
    ensures covers { IfOk result (λ wholes. CoversRoots (C.meaning context.now) steps.now roots.now wholes.items) }
{
    match context.place() {
        Some(place) => wholes_on(alloc, steps, roots, context, place),
        None => Ok(Vec::new(alloc)),
    }
}
