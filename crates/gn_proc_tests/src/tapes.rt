ghost use Rattle.std.specs.Prelude.{◌≡◌, ◌≤◌, None, length, IfOk};
ghost use Rattle.gn_field.specs.Steps.{exprs_of};
ghost use Rattle.gn_field.specs.Trees.{HaveSources};

use crate::fields::{Same, chain, pair};
use gn_field::{Field, Source};
use gn_memory::Memory;
use gn_proc::{TapeFault, build};
use gn_value::Value;
use std::alloc::Global;
use std::test::Fail;

/// Constant fields of different values.
fn constants<S: Source>(alloc: Global, count: u32) -> Result<Vec<Field<S>>, Memory>
    requires { count ≤ 65536 }
    ensures count { IfOk result (λ fields. length fields.items ≡ count) }
    ensures plain { IfOk result (λ fields. HaveSources (λ _. None) (exprs_of fields.items)) }
{
    let mut fields = Vec::new(alloc);
    for value in 0..count {
        fields.push(Field::constant(alloc, Value::Int(value as i32))?)?;
    }
    Ok(fields)
}

/// How many instructions the tape of so many constants has, or why there is none.
fn of_constants<S: Source>(alloc: Global, count: u32) -> Result<Result<u32, TapeFault>, Memory>
    requires { count ≤ 65536 }
{
    let fields = constants::<S>(alloc, count)?;
    Ok(build(alloc, &fields).map(|tape| tape.len()))
}

/// How many instructions the tape of a chain and a constant has, or why there is none.
fn of_chain<S: Source>(alloc: Global, constant: Value) -> Result<Result<u32, TapeFault>, Fail> {
    let field = chain::<S>(alloc, 2)?;
    let other = Field::constant(alloc, constant)?;
    let fields = pair(alloc, field, other)?;
    Ok(build(alloc, &fields).map(|tape| tape.len()))
}

#[test]
fn a_tape_has_each_subtree_once(rt: HostRuntime) -> Result<(), Fail> {
    // the index, one, and two sums; then the other constant
    let other = of_chain::<Same>(rt.alloc(), Value::Int(2))?;
    assert_eq!(rt; other, Ok(5));
    let same = of_chain::<Same>(rt.alloc(), Value::Int(1))?;
    assert_eq!(rt; same, Ok(4));
    Ok(())
}

#[test]
fn a_tape_has_at_most_4096_instructions(rt: HostRuntime) -> Result<(), Fail> {
    let most = of_constants::<Same>(rt.alloc(), 4096)?;
    assert_eq!(rt; most, Ok(4096));
    let more = of_constants::<Same>(rt.alloc(), 4097)?;
    assert_eq!(rt; more, Err(TapeFault::TooMany { distinct: 4097 }));
    Ok(())
}
