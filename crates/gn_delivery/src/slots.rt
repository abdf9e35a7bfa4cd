ghost use Rattle.std.specs.Prelude.{◌≡◌, List, Option, Some, None, slice_set, slice_index_or};
ghost use Rattle.gn_readers.specs.declared.place.Place.TheVariants.{Input};
ghost use Rattle.gn_delivery.specs.Slots.{slots_of, with_value, with_seconds, with_itself, with_outputs};

use crate::plan::{Plan, Second};
use gn_readers::Place;

/// Puts a value into the slot with this number, where there is one.
fn put<V: Drop>(slots: &mut Vec<Option<V>>, number: usize, value: V)
    ensures { slots.new.items ≡ slice_set slots.old.items number (Some value) }
{
    if number < slots.len() {
        slots[number] = Some(value);
    }
}

/// Puts a value into the slot of an input, where there is one.
fn put_input<V: Drop>(rows: &mut Vec<Vec<Option<V>>>, node: usize, input: usize, value: V)
    ensures { (roots : List (Option V)) → slots_of rows.new.items roots ≡ with_value (slots_of rows.old.items roots) (Input node input) value }
{
    if rows.len() <= node {
        return;
    }
    put(&mut rows[node], input, value);
}

/// Puts a value into the slot of a place. A node that was taken has no slots any more, so a value for it
/// goes.
fn set<V: Drop>(rows: &mut Vec<Vec<Option<V>>>, roots: &mut Vec<Option<V>>, place: Place, value: V)
    ensures { slots_of rows.new.items roots.new.items ≡ with_value (slots_of rows.old.items roots.old.items) place value }
{
    match place {
        Place::Input { node, input } => put_input(rows, node, input, value),
        Place::Root { root } => put(roots, root, value),
    }
}

/// Puts each second into the slot of its place.
fn set_seconds<V: Drop>(
    rows: &mut Vec<Vec<Option<V>>>,
    roots: &mut Vec<Option<V>>,
    seconds: Vec<Second<V>>,
)
    ensures { slots_of rows.new.items roots.new.items ≡ with_seconds (slots_of rows.old.items roots.old.items) seconds.items }
{
    for second in seconds {
        set(rows, roots, second.place, second.value);
    }
}

/// The place that an output is for.
fn place_at(itself: &[Option<Place>], number: usize) -> Option<Place>
    ensures { result ≡ slice_index_or itself.now number None }
{
    itself.get(number).copied().unwrap_or(None)
}

/// Puts an output into the slot that it is for, if it is for one.
fn set_itself<V: Drop>(
    rows: &mut Vec<Vec<Option<V>>>,
    roots: &mut Vec<Option<V>>,
    place: Option<Place>,
    output: V,
)
    ensures { slots_of rows.new.items roots.new.items ≡ with_itself (slots_of rows.old.items roots.old.items) place output }
{
    if let Some(place) = place {
        set(rows, roots, place, output);
    }
}

/// Puts each output into the slot that it is for, if it is for one.
fn set_outputs<V: Drop>(
    rows: &mut Vec<Vec<Option<V>>>,
    roots: &mut Vec<Option<V>>,
    itself: &[Option<Place>],
    outputs: Vec<V>,
)
    ensures { slots_of rows.new.items roots.new.items ≡ with_outputs (slots_of rows.old.items roots.old.items) itself.now outputs.items }
{
    for (number, output) in outputs.into_iter().enumerate() {
        set_itself(rows, roots, place_at(itself, number), output);
    }
}

/// Puts the values of a plan into their slots, and with them the outputs that it was made of.
pub fn deliver<V: Drop>(
    rows: &mut Vec<Vec<Option<V>>>,
    roots: &mut Vec<Option<V>>,
    plan: Plan<V>,
    outputs: Vec<V>,
)
    ensures { slots_of rows.new.items roots.new.items ≡ with_outputs (with_seconds (slots_of rows.old.items roots.old.items) plan.seconds.items) plan.itself.items outputs.items }
{
    let Plan {
        seconds,
        itself,
        ..
    } = plan;
    set_seconds(rows, roots, seconds);
    set_outputs(rows, roots, &itself, outputs);
}
