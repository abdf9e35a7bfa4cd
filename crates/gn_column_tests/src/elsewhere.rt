ghost use Rattle.std.specs.Prelude.{◌≡◌};
ghost use Rattle.gn_value.specs.Registers.{register_len};

use crate::interp::sample;
use gn_elsewhere::{bring, sums};
use gn_field::Part::{self, Leading, Total, Trailing};
use gn_interp::count_on;
use gn_value::Place::{self, Edge, Face, Point};
use gn_value::op::Register;
use gn_value::{Fx, V3};
use std::alloc::Global;
use std::process::Abort;
use std::test::Fail;

fn len(values: &Register) -> usize
    ensures { result ≡ register_len values.now }
{
    match values {
        Register::Truth(values) => values.len(),
        Register::Int(values) => values.len(),
        Register::Fixed(values) => values.len(),
        Register::Vector(values) => values.len(),
    }
}

/// The sums of a register's values in groups.
fn added(
    rt: &impl Abort,
    alloc: Global,
    part: Part,
    values: &Register,
    groups: &[i32],
) -> Result<Register, Fail> {
    assert!(rt; len(values) < 100);
    assert_eq!(rt; groups.len(), len(values));
    Ok(sums(alloc, part, values, groups)?)
}

/// Whether two registers have the same values of one kind.
fn is_same(one: &Register, other: &Register) -> bool {
    match (one, other) {
        (Register::Truth(one), Register::Truth(other)) => one.as_slice() == other.as_slice(),
        (Register::Int(one), Register::Int(other)) => one.as_slice() == other.as_slice(),
        (Register::Fixed(one), Register::Fixed(other)) => one.as_slice() == other.as_slice(),
        (Register::Vector(one), Register::Vector(other)) => one.as_slice() == other.as_slice(),
        _ => false,
    }
}

fn truths(alloc: Global, values: &[bool]) -> Result<Register, Fail> {
    Ok(Register::Truth(values.to_vec(alloc)?))
}

fn integers(alloc: Global, values: &[i32]) -> Result<Register, Fail> {
    Ok(Register::Int(values.to_vec(alloc)?))
}

fn fixed(alloc: Global, raw: &[i64]) -> Result<Register, Fail> {
    let mut values = Vec::new(alloc);
    for &number in raw {
        values.push(Fx(number))?;
    }
    Ok(Register::Fixed(values))
}

fn vectors(alloc: Global, raw: &[(i64, i64, i64)]) -> Result<Register, Fail> {
    let mut values = Vec::new(alloc);
    for &(x, y, z) in raw {
        let (x, y, z) = (Fx(x), Fx(y), Fx(z));
        values.push(V3 { x, y, z })?;
    }
    Ok(Register::Vector(values))
}

/// Compares the sums of values in groups with those that are wanted.
fn compare(
    rt: &impl Abort,
    alloc: Global,
    (part, values, groups): (Part, Register, &[i32]),
    want: Register,
) -> Result<(), Fail> {
    let sums = added(rt, alloc, part, &values, groups)?;
    assert!(rt; is_same(&sums, &want));
    Ok(())
}

#[test]
fn integers_add_up_within_their_group(rt: HostRuntime) -> Result<(), Fail> {
    let (values, groups): (&[i32], &[i32]) = (&[5, -2, 7, 1, 4], &[3, 3, -1, 3, -1]);
    let most = i32::MAX;
    let rows: [(Part, &[i32], &[i32], &[i32]); 5] = [
        (Leading, values, groups, &[5, 3, 7, 4, 11]),
        (Trailing, values, groups, &[0, 5, 0, 3, 7]),
        (Total, values, groups, &[4, 4, 11, 4, 11]),
        (Total, &[], &[], &[]),
        (Leading, &[most, 1, -2], &[0; 3], &[most, most, most - 1]),
    ];
    for (part, values, groups, want) in rows {
        let values = integers(rt.alloc(), values)?;
        let want = integers(rt.alloc(), want)?;
        compare(&rt, rt.alloc(), (part, values, groups), want)?;
    }
    Ok(())
}

#[test]
fn values_of_other_kinds_add_up_too(rt: HostRuntime) -> Result<(), Fail> {
    let alloc = rt.alloc();
    let most = i64::MAX;
    let numbers = fixed(alloc, &[most, 1, -2])?;
    let want = fixed(alloc, &[most, most, most - 1])?;
    compare(&rt, alloc, (Leading, numbers, &[7; 3]), want)?;
    let directions = vectors(alloc, &[(1, 2, 3), (10, 20, 30), (5, 0, -9)])?;
    let want = vectors(alloc, &[(6, 2, -6), (10, 20, 30), (6, 2, -6)])?;
    compare(&rt, alloc, (Total, directions, &[1, 2, 1]), want)?;
    let want = truths(alloc, &[false, false])?;
    compare(
        &rt,
        alloc,
        (Total, truths(alloc, &[true, true])?, &[0, 0]),
        want,
    )
}

/// Compares the values of a register on another place of the sample with those that are wanted.
fn compare_brought(
    rt: &impl Abort,
    alloc: Global,
    (from, values): (Place, Register),
    (to, want): (Place, Register),
) -> Result<(), Fail> {
    let mesh = sample(alloc)?;
    let topology = mesh.topology();
    assert_eq!(rt; len(&values), count_on(&topology, from));
    let brought = bring(alloc, values, from, to, &topology)?;
    assert!(rt; is_same(&brought, &want));
    Ok(())
}

#[test]
fn registers_are_brought_to_another_place(rt: HostRuntime) -> Result<(), Fail> {
    let alloc = rt.alloc();
    let (y, n) = (true, false);
    let here = (Point, integers(alloc, &[1, 2, 4, -1, 0, 9])?);
    compare_brought(&rt, alloc, here, (Face, integers(alloc, &[2, 1])?))?;
    let here = (Edge, truths(alloc, &[y, n, n, n, n, y])?);
    let there = (Point, truths(alloc, &[y, y, y, n, y, n])?);
    compare_brought(&rt, alloc, here, there)?;
    let here = (Point, fixed(alloc, &[1, 2, 4, -1, 0, 9])?);
    compare_brought(&rt, alloc, here, (Face, fixed(alloc, &[2, 1])?))?;
    let here = (Point, vectors(alloc, &[(0, 3, 0); 6])?);
    compare_brought(&rt, alloc, here, (Face, vectors(alloc, &[(0, 3, 0); 2])?))
}
