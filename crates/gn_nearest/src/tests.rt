use super::*;
use gn_value::{Fx, V3};
use std::test::Fail;

fn point(x: i64, y: i64, z: i64) -> V3 {
    V3 {
        x: Fx(x),
        y: Fx(y),
        z: Fx(z),
    }
}

const ONE: i64 = 1 << 32;

#[test]
fn the_nearest_is_the_first_of_those_as_near(rt: HostRuntime) -> Result<(), Fail> {
    let a = rt.alloc();
    let none = BoxTree::new(a, &[])?;
    assert_eq!(rt; none.nearest(V3::ZERO), None);
    let two = BoxTree::new(a, &[V3::ZERO, point(2 * ONE, 0, 0)])?;
    assert_eq!(rt; two.nearest(point(ONE, 0, 0)), Some(0));
    assert_eq!(rt; two.nearest(point(ONE + 1, 0, 0)), Some(1));
    let equal = BoxTree::new(a, &[point(ONE, ONE, ONE); 40])?;
    assert_eq!(rt; equal.nearest(V3::ZERO), Some(0));
    assert_eq!(rt; equal.nearest(point(ONE, ONE, ONE)), Some(0));
    Ok(())
}

#[test]
fn coordinates_at_the_ends_of_their_range(rt: HostRuntime) -> Result<(), Fail> {
    let low = point(i64::MIN, i64::MIN, i64::MIN);
    let high = point(i64::MAX, i64::MAX, i64::MAX);
    let one = BoxTree::new(rt.alloc(), &[low])?;
    assert_eq!(rt; one.nearest(high), Some(0));
    let both = BoxTree::new(rt.alloc(), &[low, high])?;
    assert_eq!(rt; both.nearest(high), Some(1));
    assert_eq!(rt; both.nearest(low), Some(0));
    assert_eq!(rt; both.nearest(V3::ZERO), Some(1));
    Ok(())
}

#[test]
fn a_row_of_points_is_halved(rt: HostRuntime) -> Result<(), Fail> {
    let mut points = Vec::new(rt.alloc());
    for x in 0..100u32 {
        points.push(point(i64::from(x), 0, 0))?;
    }
    assert!(rt; points.len() == 100);
    let tree = BoxTree::new(rt.alloc(), &points)?;
    for x in 0..100u32 {
        assert_eq!(rt; tree.nearest(point(i64::from(x), 3, 4)), Some(x));
    }
    Ok(())
}
