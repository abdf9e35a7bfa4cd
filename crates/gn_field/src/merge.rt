// One list of steps for several fields, each different step once.
ghost use Rattle.std.specs.Prelude.{◌≡◌, ◌⊎◌, ◌+◌, ◌<◌, ◌≤◌, ◌^◌, length, map, Some, slice_index, slice_get, IfOk, OnOk, IfSome, IfNone};
ghost use Rattle.std.specs.List.{All};
ghost use Rattle.gn_node_set.specs.Meanings.{Has};
ghost use Rattle.gn_field.specs.Steps.{key_of, keys, names, AreBelow, LeadBack};
ghost use Rattle.gn_field.specs.Merged.{IsBehind, IsMoved, Adds, IsMerged, Merges};

use crate::input::copied_path;
use crate::step::{FieldStep, Source};
use gn_memory::Memory;
use std::alloc::Global;

/// A place that is behind a further one too.
fn further(behind: usize, place: usize) -> usize
    requires { place < 2 ^ 32 }
    ensures { (result ≡ behind) ⊎ (result ≡ place + 1) }
{
    if behind <= place {
        return place + 1;
    }
    behind
}

/// The first place behind those of a list.
fn behind(places: &[u32]) -> usize
    ensures { IsBehind result places.now }
{
    let mut behind = 0;
    for place in places {
        behind = further(behind, *place as usize);
    }
    behind
}

/// The first place that the same step can be at, which is behind those that the step names.
fn first_place<S>(step: &FieldStep<S>) -> usize
    ensures { IsBehind result (names (key_of step.now)) }
{
    match step {
        FieldStep::Constant { .. } | FieldStep::Input { .. } => 0,
        FieldStep::Apply { args, .. } | FieldStep::Elsewhere { args, .. } => behind(args),
        FieldStep::Sampled { arg, .. } => *arg as usize + 1,
    }
}

/// The place of the step that is the same as another, if there is one.
fn place_of<S>(steps: &[FieldStep<S>], step: &FieldStep<S>) -> Option<usize>
    requires { LeadBack (keys steps.now) }
    ensures found { IfSome result (λ p. slice_get (keys steps.now) p ≡ Some (key_of step.now)) }
    ensures new { IfNone result (¬ Has (keys steps.now) (key_of step.now)) }
{
    for at in first_place(step)..steps.len() {
        if steps[at].is_same(step) {
            return Some(at);
        }
    }
    None
}

/// Puts a step behind the others, unless the same is there, and returns its place.
fn add<S: Drop>(steps: &mut Vec<FieldStep<S>>, step: FieldStep<S>) -> Result<usize, Memory>
    requires { LeadBack (keys steps.old.items) }
    ensures { IfOk result (λ p. Adds steps.old.items step p steps.new.items) }
{
    if let Some(at) = place_of(steps, &step) {
        return Ok(at);
    }
    let at = steps.len();
    steps.push(step)?;
    Ok(at)
}

/// The places at which steps of other places are now.
fn places_of(alloc: Global, args: &[u32], places: &[u32]) -> Result<Vec<u32>, Memory>
    requires { All (λ k. k < length places.now) args.now }
    ensures { IfOk result (λ v. v.items ≡ map (λ k. slice_index places.now k) args.now) }
{
    let mut moved = Vec::with_capacity(alloc, args.len())?;
    for arg in args {
        moved.push(places[*arg as usize])?;
    }
    Ok(moved)
}

/// The same step, where the steps that it names are at other places.
#[tactic(auto, using(crate::proofs::Grown::all_below))]
fn moved<S: Source>(
    alloc: Global,
    step: &FieldStep<S>,
    places: &[u32],
) -> Result<FieldStep<S>, Memory>
    requires { AreBelow (length places.now) (names (key_of step.now)) }
    ensures { IfOk result (λ r. IsMoved places.now step.now r) }
{
    match step {
        FieldStep::Constant { value } => Ok(FieldStep::Constant { value: *value }),
        FieldStep::Input { input } => {
            let input = input.second()?;
            Ok(FieldStep::Input { input })
        }
        FieldStep::Apply { op, args } => {
            let args = places_of(alloc, args, places)?;
            Ok(FieldStep::Apply { op: *op, args })
        }
        FieldStep::Elsewhere { step, args } => {
            let args = places_of(alloc, args, places)?;
            Ok(FieldStep::Elsewhere { step: *step, args })
        }
        FieldStep::Sampled { tag, source, arg } => {
            let tag = copied_path(tag)?;
            let source = source.second()?;
            Ok(FieldStep::Sampled {
                tag,
                source,
                arg: places[*arg as usize],
            })
        }
    }
}

/// Puts those of other steps that are not there behind the steps, and returns the places of all.
pub(crate) fn merge<S: Source>(
    alloc: Global,
    steps: &mut Vec<FieldStep<S>>,
    others: &[FieldStep<S>],
) -> Result<Vec<u32>, Memory>
    requires merged { IsMerged steps.old.items }
    requires others { LeadBack (keys others.now) }
    requires few { length steps.old.items + length others.now < 2 ^ 32 }
    ensures { IfOk result (λ places. Merges steps.old.items others.now steps.new.items places.items) }
{
    let mut places = Vec::with_capacity(alloc, others.len())?;
    for other in others {
        let step = moved(alloc, other, &places)?;
        let place = add(steps, step)?;
        places.push(place as u32)?;
    }
    Ok(places)
}
