use crate::fields::{Same, chain, sum};
use gn_field::{Field, FieldFault, Input, Source};
use gn_value::{Value, ValueKind};
use std::alloc::Global;
use std::test::Fail;

/// The index doubled a number of times.
fn doubled<S: Source>(alloc: Global, times: u32) -> Result<Field<S>, FieldFault> {
    let mut field = Field::input(alloc, Input::Index)?;
    for _ in 0..times {
        let other = field.second()?;
        field = sum(alloc, field, other)?;
    }
    Ok(field)
}

#[test]
fn forty_doublings_have_forty_one_subtrees(rt: HostRuntime) -> Result<(), Fail> {
    let field: Field<Same> = doubled(rt.alloc(), 40)?;
    assert_eq!(rt; field.distinct(), 41);
    assert!(rt; field.varies());
    assert_eq!(rt; field.kind(), ValueKind::Int);
    Ok(())
}

#[test]
fn a_field_has_at_most_4096_subtrees(rt: HostRuntime) -> Result<(), Fail> {
    let field: Field<Same> = chain(rt.alloc(), 4094)?;
    assert_eq!(rt; field.distinct(), 4096);
    let fault = chain::<Same>(rt.alloc(), 4095).err();
    assert_eq!(rt; fault, Some(FieldFault::TooMany { distinct: 4097 }));
    Ok(())
}

#[test]
fn fields_have_subtrees_in_common(rt: HostRuntime) -> Result<(), Fail> {
    let a = rt.alloc();
    let mut fields: Vec<Field<Same>> = Vec::new(a);
    fields.push(chain(a, 1)?)?;
    fields.push(chain(a, 2)?)?;
    fields.push(Field::constant(a, Value::Int(2))?)?;
    assert_eq!(rt; Field::together(a, &fields)?, 5);
    Ok(())
}
