use gn_geometry::{Cloud, Geometry, Instances, Transform};
use gn_memory::Memory;
use gn_shared::Meter;
use gn_value::{Fx, Place, V3};
use std::alloc::Global;
use std::test::Fail;

#[derive(Drop)]
struct Seal;

const UP: Transform = Transform {
    rows: [
        V3 {
            x: Fx(1 << 32),
            y: Fx(0),
            z: Fx(0),
        },
        V3 {
            x: Fx(0),
            y: Fx(1 << 32),
            z: Fx(0),
        },
        V3 {
            x: Fx(0),
            y: Fx(0),
            z: Fx(1 << 32),
        },
    ],
    at: V3 {
        x: Fx(0),
        y: Fx(0),
        z: Fx(1 << 32),
    },
};

/// An instance of a cloud of two points.
fn placed(alloc: Global) -> Result<Geometry, Memory> {
    let points = [V3::splat(Fx(3)), V3::splat(Fx(4))].to_vec(alloc)?;
    let mut part = Geometry::empty(alloc)?;
    part.cloud = Cloud::from_points(alloc, points)?;
    let mut parts = Vec::new(alloc);
    parts.push(part)?;
    let mut geometry = Geometry::empty(alloc)?;
    geometry.instances = Instances::from_parts(alloc, parts, [(UP, 0)].to_vec(alloc)?);
    Ok(geometry)
}

fn twin(alloc: Global, meter: &mut Meter<Seal>) -> Result<Geometry, Memory> {
    let mut geometry = placed(alloc)?;
    geometry.second(alloc, meter)
}

#[test]
fn a_second_geometry_has_the_parts_of_the_first(rt: HostRuntime) -> Result<(), Fail> {
    let mut meter = Meter::new(Seal);
    let twin = twin(rt.alloc(), &mut meter);
    assert_eq!(rt; meter.spend(Seal), (0, 0));
    let twin = twin?;
    assert_eq!(rt; twin.count(Place::Instance), 1);
    assert_eq!(rt; twin.depth(), 1);
    assert_eq!(rt; twin.instances.items(), [(UP, 0)].as_slice());
    match twin.instances.parts() {
        [part] => {
            assert_eq!(rt;
                part.cloud.points(),
                [V3::splat(Fx(3)), V3::splat(Fx(4))].as_slice()
            );
        }
        _ => return Err("other parts".into()),
    }
    Ok(())
}
