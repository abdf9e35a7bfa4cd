use gn_attr::{Column, Name, array};
use gn_geometry::{Cloud, Mesh};
use gn_memory::Memory;
use gn_shared::Meter;
use gn_value::{Fx, Place, V3};
use std::alloc::Global;
use std::process::Abort;
use std::test::Fail;

#[derive(Drop)]
struct Seal;

/// Puts the second point elsewhere.
fn put_second(
    rt: &impl Abort,
    alloc: Global,
    cloud: &mut Cloud,
    to: i64,
    meter: &mut Meter<Seal>,
) -> Result<(), Memory> {
    assert!(rt; cloud.points().len() == 3);
    cloud.own_points(alloc, meter)?;
    cloud.sole_points()[1] = V3::splat(Fx(to));
    Ok(())
}

/// The second point of a cloud that was shared and then moved, that of its twin, and the copies
/// that were noted before it was shared.
fn moved(
    rt: &impl Abort,
    alloc: Global,
    meter: &mut Meter<Seal>,
) -> Result<(Option<V3>, Option<V3>, u64), Memory> {
    let mut cloud = Cloud::from_points(alloc, [V3::ZERO; 3].to_vec(alloc)?)?;
    put_second(rt, alloc, &mut cloud, 5, meter)?;
    let alone = meter.copies();
    let twin = cloud.second(alloc, meter)?;
    put_second(rt, alloc, &mut cloud, 7, meter)?;
    Ok((
        cloud.points().get(1).copied(),
        twin.points().get(1).copied(),
        alone,
    ))
}

#[test]
fn positions_are_copied_only_where_they_are_shared(rt: HostRuntime) -> Result<(), Fail> {
    let mut meter = Meter::new(Seal);
    let moved = moved(&rt, rt.alloc(), &mut meter);
    assert_eq!(rt; meter.spend(Seal), (0, 1));
    let (here, there, alone) = moved?;
    assert_eq!(rt; here, Some(V3::splat(Fx(7))));
    assert_eq!(rt; there, Some(V3::splat(Fx(5))));
    assert_eq!(rt; alone, 0);
    Ok(())
}

fn weight(alloc: Global) -> Result<Name, Fail> {
    let mut name = String::new(alloc);
    name.push_str("weight")?;
    Ok(Name::Named(name))
}

#[test]
fn a_cloud_keeps_columns_for_its_points(rt: HostRuntime) -> Result<(), Fail> {
    let mut cloud = Cloud::from_points(rt.alloc(), [V3::ZERO; 3].to_vec(rt.alloc())?)?;
    let column = Column::Int(array::array_of([4, 5, 6].to_vec(rt.alloc())?)?);
    assert_eq!(rt; column.len(), cloud.points().len());
    assert!(rt; cloud.set_column(weight(rt.alloc())?, column).is_ok());
    match cloud.columns().entry(0) {
        Some((name, Place::Cloud, Column::Int(values))) => {
            assert!(rt; *name == weight(rt.alloc())?);
            assert_eq!(rt; values.items(), [4, 5, 6].as_slice());
        }
        _ => return Err("another column".into()),
    }
    assert!(rt; cloud.remove_column(&weight(rt.alloc())?));
    assert!(rt; !cloud.remove_column(&weight(rt.alloc())?));
    assert_eq!(rt; cloud.columns().len(), 0);
    Ok(())
}

#[test]
fn an_empty_mesh_has_no_elements(rt: HostRuntime) -> Result<(), Fail> {
    let mesh = Mesh::empty(rt.alloc())?;
    for place in [Place::Point, Place::Edge, Place::Face, Place::Corner] {
        assert_eq!(rt; mesh.count(place), 0);
    }
    assert_eq!(rt; mesh.topology().faces, [0].as_slice());
    Ok(())
}
