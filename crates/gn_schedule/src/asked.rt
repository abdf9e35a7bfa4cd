// On which places steps are read.
ghost use Rattle.std.specs.Prelude.{◌≡◌, ℕ, List, ◌<◌, ◌+◌, All, length, IfOk};
ghost use Rattle.gn_value.specs.declared.value.Place.{Place};
ghost use Rattle.gn_field.specs.Steps.{AreBelow, LeadBack, keys, key_of, names, of_elsewhere, step_of};
ghost use Rattle.gn_schedule.specs.Asked.{AsksFor, AsksAll, IsAsking};

use crate::places::Places;
use gn_field::{FieldStep, Step};
use gn_memory::Memory;
use gn_value::Place;
use std::alloc::Global;

/// Asks for steps on some places.
fn ask(table: &mut Vec<Places>, args: &[u32], places: Places)
    requires { All (λ a. a < length table.old.items) args.now }
    ensures { AsksFor places args.now table.old.items table.new.items }
{
    for arg in args {
        let at = *arg as usize;
        let more = table[at].with(places);
        table[at] = more;
    }
}

/// Asks for what a step reads elsewhere, where the step is read on some places.
fn ask_elsewhere(table: &mut Vec<Places>, step: Step, args: &[u32], places: Places)
    requires { All (λ a. a < length table.old.items) args.now }
    ensures { AsksAll places (of_elsewhere (step_of step) args.now) table.old.items table.new.items }
{
    match step {
        Step::Accumulate { place, .. } | Step::OnDomain { place, .. } => {
            ask(table, args, Places::one(place))
        }
        Step::AtIndex { place, .. } => match args {
            [] => {}
            [value, index @ ..] => {
                ask(table, &[*value], Places::one(place));
                ask(table, index, places);
            }
        },
    }
}

/// Asks for what a step reads, where the step is read on some places.
#[tactic(auto, using(gn_field::proofs::Grown::all_below))]
fn ask_operands<S>(table: &mut Vec<Places>, step: &FieldStep<S>, places: Places)
    requires { AreBelow (length table.old.items) (names (key_of step.now)) }
    ensures { AsksAll places (key_of step.now) table.old.items table.new.items }
{
    match step {
        FieldStep::Apply { args, .. } => ask(table, args.as_slice(), places),
        FieldStep::Sampled { arg, .. } => ask(table, &[*arg], places),
        FieldStep::Elsewhere { step, args } => ask_elsewhere(table, *step, args.as_slice(), places),
        FieldStep::Constant { .. } | FieldStep::Input { .. } => {}
    }
}

/// Asks for what a step reads.
fn ask_for_step<S>(table: &mut Vec<Places>, steps: &[FieldStep<S>], at: usize)
    requires back { LeadBack (keys steps.now) }
    requires within { at < length steps.now }
    requires long { length table.old.items ≡ length steps.now }
    ensures { (roots : List ℕ) (place : Place) → IsAsking steps.now roots place (at + 1) table.old.items → IsAsking steps.now roots place at table.new.items }
{
    let places = table[at];
    ask_operands(table, &steps[at], places);
}

/// Of each step the places that it is read on, where the roots are read on one.
pub fn asked_places<S>(
    alloc: Global,
    steps: &[FieldStep<S>],
    roots: &[u32],
    place: Place,
) -> Result<Vec<Places>, Memory>
    requires back { LeadBack (keys steps.now) }
    requires within { AreBelow (length steps.now) roots.now }
    ensures { IfOk result (λ table. IsAsking steps.now roots.now place 0 table.items) }
{
    let count = steps.len();
    let mut table = vec![in alloc; Places::none(); count]?;
    ask(&mut table, roots, Places::one(place));
    let mut at = count;
    while at > 0 {
        at -= 1;
        ask_for_step(&mut table, steps, at);
    }
    Ok(table)
}
