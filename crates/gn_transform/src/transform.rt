//! Points and transforms under a transform.
ghost use Rattle.std.specs.Prelude.{◌≡◌, ◌++◌, ◌+ℤ◌, map, OnOk};
ghost use Rattle.gn_value.specs.Values.{exact_dot, fx};
ghost use Rattle.gn_geometry.specs.Geometries.{plain_transform};
ghost use Rattle.gn_joins.specs.Transforms.{along, moved_point, moved_transform, row_by};

use gn_geometry::Transform;
use gn_memory::Memory;
use gn_value::whole::saturate_i64;
use gn_value::{Fx, V3};

/// The products of a row, each rounded down, and the shift, added exactly.
fn exact_along(row: V3, shift: Fx, point: V3) -> i128
    ensures { result ≡ exact_dot row point +ℤ shift.0 }
{
    let x = row.x.exact_product(point.x);
    let y = row.y.exact_product(point.y);
    let z = row.z.exact_product(point.z);
    x + y + z + shift.0 as i128
}

/// A component of a point that is moved: the exact sum, brought into range once.
fn along(row: V3, shift: Fx, point: V3) -> Fx
    ensures { result ≡ fx (along row shift.0 point) }
{
    Fx(saturate_i64(exact_along(row, shift, point)))
}

/// Where a transform puts a point.
pub fn apply(transform: &Transform, point: V3) -> V3
    ensures { result ≡ moved_point (plain_transform transform.now) point }
{
    let [x, y, z] = transform.rows;
    V3 {
        x: along(x, transform.at.x, point),
        y: along(y, transform.at.y, point),
        z: along(z, transform.at.z, point),
    }
}

/// Puts points behind others, each where a transform puts it.
pub fn append_moved(into: &mut Vec<V3>, transform: &Transform, points: &[V3]) -> Result<(), Memory>
    ensures { OnOk result (into.new.items ≡ into.old.items ++ map (moved_point (plain_transform transform.now)) points.now) }
{
    for point in points {
        into.push(apply(transform, *point))?;
    }
    Ok(())
}

/// A row of the product of two maps: its products with the columns of the inner one.
fn row_by(row: V3, inner: &Transform) -> V3
    ensures { result ≡ row_by row (plain_transform inner.now) }
{
    let [a, b, c] = inner.rows;
    V3 {
        x: row.dot(V3 {
            x: a.x,
            y: b.x,
            z: c.x,
        }),
        y: row.dot(V3 {
            x: a.y,
            y: b.y,
            z: c.y,
        }),
        z: row.dot(V3 {
            x: a.z,
            y: b.z,
            z: c.z,
        }),
    }
}

/// The transform of an instance that another transform moves: the product of the maps, and the
/// instance's translation where the other transform puts it.
pub fn compose(outer: &Transform, inner: &Transform) -> Transform
    ensures { plain_transform result ≡ moved_transform (plain_transform outer.now) (plain_transform inner.now) }
{
    let [x, y, z] = outer.rows;
    Transform {
        rows: [row_by(x, inner), row_by(y, inner), row_by(z, inner)],
        at: apply(outer, inner.at),
    }
}
