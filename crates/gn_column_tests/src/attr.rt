use gn_attr::{Column, Columns, Name, array};
use gn_lazy::{Path, PathStep};
use gn_memory::Memory;
use gn_shared::Meter;
use gn_value::Place;
use std::alloc::Global;
use std::process::Abort;
use std::test::Fail;

#[derive(Drop)]
struct Seal;

fn named(alloc: Global, text: &str) -> Result<Name, Memory> {
    let mut name = String::new(alloc);
    name.push_str(text)?;
    Ok(Name::Named(name))
}

/// The name of an output of a node in a turn of a zone.
fn anonymous(alloc: Global, turn: u32, node: u32, socket: u32) -> Result<Name, Memory> {
    let mut steps = Vec::new(alloc);
    steps.push(PathStep {
        node: 7,
        turn: Some(turn),
    })?;
    steps.push(PathStep { node, turn: None })?;
    Ok(Name::Anonymous {
        path: Path { steps },
        socket,
    })
}

fn integers(alloc: Global, values: &[i32]) -> Result<Column, Memory> {
    let mut items = Vec::new(alloc);
    items.extend_from_slice(values)?;
    Ok(Column::Int(array::array_of(items)?))
}

fn set(columns: &mut Columns, name: Name, place: Place, column: Column) -> Result<(), Memory> {
    match columns.set(name, place, column) {
        Ok(()) => Ok(()),
        Err(_) => Err(Memory),
    }
}

/// Whether the column with a number has this name, and is one of these integers on this place.
fn is_at(columns: &Columns, at: usize, name: &Name, place: Place, values: &[i32]) -> bool {
    match columns.entry(at) {
        Some((n, p, Column::Int(array))) => *n == *name && p == place && array.items() == values,
        _ => false,
    }
}

/// The columns a, b and a again.
fn a_b_a(alloc: Global) -> Result<Columns, Memory> {
    let mut columns = Columns::new(alloc);
    set(
        &mut columns,
        named(alloc, "a")?,
        Place::Point,
        integers(alloc, &[1])?,
    )?;
    set(
        &mut columns,
        named(alloc, "b")?,
        Place::Point,
        integers(alloc, &[2])?,
    )?;
    set(
        &mut columns,
        named(alloc, "a")?,
        Place::Face,
        integers(alloc, &[3, 4])?,
    )?;
    Ok(columns)
}

#[test]
fn a_column_that_is_set_again_keeps_its_number(rt: HostRuntime) -> Result<(), Fail> {
    let columns = a_b_a(rt.alloc())?;
    let (a, b) = (named(rt.alloc(), "a")?, named(rt.alloc(), "b")?);
    assert!(rt; columns.len() == 2);
    assert!(rt; is_at(&columns, 0, &a, Place::Face, &[3, 4]));
    assert!(rt; is_at(&columns, 1, &b, Place::Point, &[2]));
    assert!(rt; columns.entry(2).is_none());
    Ok(())
}

#[test]
fn the_columns_behind_a_removed_one_close_up(rt: HostRuntime) -> Result<(), Fail> {
    let mut columns = a_b_a(rt.alloc())?;
    let (a, b) = (named(rt.alloc(), "a")?, named(rt.alloc(), "b")?);
    assert!(rt; columns.remove(&a));
    assert!(rt; !columns.remove(&a));
    assert_eq!(rt; columns.len(), 1);
    assert!(rt; is_at(&columns, 0, &b, Place::Point, &[2]));
    Ok(())
}

/// Columns of one value each, under as many anonymous names.
fn many(alloc: Global, count: u32) -> Result<Columns, Memory> {
    let mut columns = Columns::new(alloc);
    for turn in 0..count {
        let name = anonymous(alloc, turn, 1, 0)?;
        set(&mut columns, name, Place::Cloud, integers(alloc, &[0])?)?;
    }
    Ok(columns)
}

#[test]
fn one_name_of_many_is_found_as_a_whole(rt: HostRuntime) -> Result<(), Fail> {
    let columns = many(rt.alloc(), 3_000)?;
    assert_eq!(rt; columns.len(), 3_000);
    assert!(rt; columns.get(&anonymous(rt.alloc(), 2_999, 1, 0)?).is_some());
    assert!(rt; columns.get(&anonymous(rt.alloc(), 3_000, 1, 0)?).is_none());
    assert!(rt; columns.get(&anonymous(rt.alloc(), 2_999, 2, 0)?).is_none());
    assert!(rt; columns.get(&anonymous(rt.alloc(), 2_999, 1, 1)?).is_none());
    Ok(())
}

/// Writes the first value of a column, if there is one with as many values.
fn write_first(
    rt: &impl Abort,
    columns: &mut Columns,
    name: &Name,
    values: &Column,
    meter: &mut Meter<Seal>,
) -> Option<Result<(), Memory>> {
    let (_, column) = columns.get(name)?;
    assert!(rt; values.is_like(column));
    assert!(rt; values.len() == 2);
    columns.write_column(name, values, &[true, false], meter)
}

/// The copies that are noted where a column is written alone, and then beside a second one.
fn copies(rt: &impl Abort, alloc: Global, meter: &mut Meter<Seal>) -> Result<(u64, u64), Memory> {
    let a = named(alloc, "a")?;
    let mut columns = a_b_a(alloc)?;
    write_first(rt, &mut columns, &a, &integers(alloc, &[7, 0])?, meter).unwrap_or(Err(Memory))?;
    let alone = meter.copies();
    let second = columns.second(meter)?;
    write_first(rt, &mut columns, &a, &integers(alloc, &[8, 0])?, meter).unwrap_or(Err(Memory))?;
    assert!(rt; is_at(&columns, 0, &a, Place::Face, &[8, 4]));
    assert!(rt; is_at(&second, 0, &a, Place::Face, &[7, 4]));
    Ok((alone, meter.copies()))
}

#[test]
fn a_copy_is_noted_only_where_an_array_has_other_handles(rt: HostRuntime) -> Result<(), Fail> {
    let mut meter = Meter::new(Seal);
    let copies = copies(&rt, rt.alloc(), &mut meter);
    assert_eq!(rt; meter.spend(Seal), (0, 1));
    assert_eq!(rt; copies?, (0, 1));
    Ok(())
}

/// Shares a list of columns until its arrays have one part left, and then once more.
fn to_the_last_part(alloc: Global, meter: &mut Meter<Seal>) -> Result<u64, Memory> {
    let mut kept = Vec::new(alloc);
    kept.push(a_b_a(alloc)?)?;
    for at in 0..8 {
        if at < kept.len() {
            let next = kept[at].second(meter)?;
            kept.push(next)?;
        }
    }
    let shared = meter.copies();
    if let Some(columns) = kept.last_mut() {
        columns.second(meter)?;
    }
    Ok(shared)
}

#[test]
fn an_array_whose_handle_has_one_part_is_copied(rt: HostRuntime) -> Result<(), Fail> {
    let mut meter = Meter::new(Seal);
    let shared = to_the_last_part(rt.alloc(), &mut meter);
    assert_eq!(rt; meter.spend(Seal), (0, 2));
    assert_eq!(rt; shared?, 0);
    Ok(())
}
