//! The columns of a join.
ghost use Rattle.std.specs.Prelude.{◌≡◌, true, map, None, IfOk, OnOk};
ghost use Rattle.std.specs.List.{flat_map, fold};
ghost use Rattle.gn_plain.specs.Columns.{entry_named, kind_of_values};
ghost use Rattle.gn_attr.specs.Names.{plain_name};
ghost use Rattle.gn_attr.specs.Columns as attr;
ghost use Rattle.gn_attr.specs.Columns.{plain_columns, IsSoleColumn};
ghost use Rattle.gn_geometry.specs.Fits.{Fits};
ghost use Rattle.gn_joins.specs.Joins.{joined_columns, part_values, values_in};
ghost use Rattle.gn_pieces.specs.Behind.{values_behind, values_of, values_on};
ghost use Rattle.gn_pieces.specs.Heads.{head_on, with_joined};
ghost use Rattle.gn_pieces.specs.Views.{columns_at, geometry_of, is_place_of, part_of, parts_of, places_of, AreColumnsOf, AreOnPlaces};

use crate::values::{column_of, no_values, push_first, push_zeros, repeated};
use crate::view::{Component, View};
use gn_attr::{Column, Columns, Name};
use gn_interp::adapt;
use gn_memory::Memory;
use gn_value::op::Register;
use gn_value::{Place, ValueKind};
use std::alloc::Global;

/// Puts the values of a column on a place behind others, as values of their kind. The column is one
/// of the component, on the place `from`.
fn push_on(
    alloc: Global,
    values: &mut Register,
    view: &View<'_>,
    component: Component,
    column: &Column,
    from: Place,
    to: Place,
) -> Result<(), Memory>
    requires { Fits (places_of component view.now.geometry.now) from column.now }
    ensures { OnOk result (values_of values.new ≡ values_behind (values_of values.old) (values_on (part_of component (geometry_of view.now)) from to (attr.values_of column.now))) }
{
    let count = view.count(component, to);
    if component.has_one_place() {
        return push_first(values, column, count);
    }
    if from == to {
        return push_first(values, column, count);
    }
    let adapted = adapt(alloc, column, from, to, &view.mesh().topology())?;
    push_first(values, &adapted, count)
}

/// Puts the values that an instance hands on under a name behind others, and zeros where it hands on
/// none.
fn push_handed(
    alloc: Global,
    values: &mut Register,
    view: &View<'_>,
    component: Component,
    name: &Name,
    place: Place,
) -> Result<(), Memory>
    requires { entry_named (plain_name name.now) (columns_at component view.now.geometry.now) ≡ None }
    ensures { OnOk result (values_of values.new ≡ values_behind (values_of values.old) (part_values (record { name = plain_name name.now; place = place; column = kind_of_values (values_of values.old) }) (part_of component (geometry_of view.now)))) }
{
    let Some((columns, item)) = view.handed(component) else {
        return push_zeros(values, view.count(component, place));
    };
    let Some((_, column)) = columns.get(name) else {
        return push_zeros(values, view.count(component, place));
    };
    let from = component.own_place();
    let handed = repeated(alloc, column, item, view.count(component, from))?;
    push_on(alloc, values, view, component, &handed, from, place)
}

/// Puts the values of a geometry under a name behind others, on a place and as values of their kind:
/// those of its column, else those that an instance hands on, and else zeros.
fn push_named(
    alloc: Global,
    values: &mut Register,
    view: &View<'_>,
    component: Component,
    name: &Name,
    place: Place,
) -> Result<(), Memory>
    ensures { OnOk result (values_of values.new ≡ values_behind (values_of values.old) (part_values (record { name = plain_name name.now; place = place; column = kind_of_values (values_of values.old) }) (part_of component (geometry_of view.now)))) }
{
    let Some((from, column)) = view.own_columns(component).get(name) else {
        return push_handed(alloc, values, view, component, name, place);
    };
    push_on(alloc, values, view, component, column, from, place)
}

/// How many elements geometries have together on a place of a component, at most 2^64 - 1.
fn room(views: &[View<'_>], component: Component, place: Place) -> usize {
    let mut room = 0usize;
    for view in views {
        room = room.saturating_add(view.count(component, place));
    }
    room
}

/// The values of geometries under a name one behind another, on a place and as values of a kind.
fn joined_column(
    alloc: Global,
    views: &[View<'_>],
    component: Component,
    name: &Name,
    place: Place,
    kind: ValueKind,
) -> Result<Column, Memory>
    ensures values { IfOk result (λ c. attr.values_of c ≡ values_in kind (flat_map (part_values (record { name = plain_name name.now; place = place; column = kind })) (parts_of component views.now))) }
    ensures sole { IfOk result IsSoleColumn }
{
    let mut values = no_values(alloc, kind, room(views, component, place))?;
    for view in views {
        push_named(alloc, &mut values, view, component, name, place)?;
    }
    column_of(values)
}

/// Puts the column of a name behind those of a join, unless the name is there.
fn add_column(
    alloc: Global,
    views: &[View<'_>],
    component: Component,
    name: &Name,
    place: Place,
    kind: ValueKind,
    joined: &mut Columns,
) -> Result<(), Memory>
    requires place { is_place_of component place ≡ true }
    requires kept { AreColumnsOf component views.now joined.old }
    ensures columns { OnOk result (plain_columns joined.new ≡ with_joined (parts_of component views.now) (plain_columns joined.old) (record { name = plain_name name.now; place = place; column = kind })) }
    ensures kept { AreColumnsOf component views.now joined.new }
{
    if joined.get(name).is_some() {
        return Ok(());
    }
    let twin = name.second(alloc)?;
    let column = joined_column(alloc, views, component, name, place, kind)?;
    match joined.set(twin, place, column) {
        Ok(()) => Ok(()),
        Err(_) => Err(Memory),
    }
}

/// Puts a column for each of these names that is not there behind those of a join: on the place of
/// the name, or on another one, and of its kind.
fn add_columns(
    alloc: Global,
    views: &[View<'_>],
    component: Component,
    columns: &Columns,
    on: Option<Place>,
    joined: &mut Columns,
) -> Result<(), Memory>
    requires places { AreOnPlaces component on columns.now }
    requires kept { AreColumnsOf component views.now joined.old }
    ensures columns { OnOk result (plain_columns joined.new ≡ fold (with_joined (parts_of component views.now)) (plain_columns joined.old) (map (head_on on) (plain_columns columns.now))) }
    ensures kept { AreColumnsOf component views.now joined.new }
{
    for at in 0..columns.len() {
        let Some((name, place, column)) = columns.entry(at) else {
            unreachable!()
        };
        let place = on.unwrap_or(place);
        add_column(alloc, views, component, name, place, column.kind(), joined)?;
    }
    Ok(())
}

/// Puts a column for each name of a geometry that is not there behind those of a join: of the place
/// and the kind that it has in this geometry.
fn add_view(
    alloc: Global,
    views: &[View<'_>],
    component: Component,
    view: &View<'_>,
    joined: &mut Columns,
) -> Result<(), Memory>
    requires kept { AreColumnsOf component views.now joined.old }
    ensures columns { OnOk result (plain_columns joined.new ≡ fold (with_joined (parts_of component views.now)) (plain_columns joined.old) (map (head_on None) (part_of component (geometry_of view.now)).columns)) }
    ensures kept { AreColumnsOf component views.now joined.new }
{
    let own = view.own_columns(component);
    add_columns(alloc, views, component, own, None, joined)?;
    let Some((columns, _)) = view.handed(component) else {
        return Ok(());
    };
    let place = component.own_place();
    add_columns(alloc, views, component, columns, Some(place), joined)
}

/// The columns of a join: a name comes where it is first seen, with the place and the kind that it
/// has there, and with the values of all geometries.
pub fn joined_columns(
    alloc: Global,
    views: &[View<'_>],
    component: Component,
) -> Result<Columns, Memory>
    ensures columns { IfOk result (λ c. plain_columns c ≡ joined_columns (parts_of component views.now)) }
    ensures kept { IfOk result (AreColumnsOf component views.now) }
{
    let mut joined = Columns::new(alloc);
    for view in views {
        add_view(alloc, views, component, view, &mut joined)?;
    }
    Ok(joined)
}
