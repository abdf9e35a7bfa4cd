//! What the instances of a geometry have.
ghost use Rattle.std.specs.Prelude.{◌≡◌, ◌<◌, length, All};
ghost use Rattle.gn_geometry.specs.Geometries.{columns_in, instances_in, items_in, parts_in};

use gn_attr::Columns;
use gn_geometry::{Geometry, Instances, Transform};

/// The instances of a geometry.
fn instances_of(geometry: &Geometry) -> &Instances
    ensures { result.now ≡ instances_in geometry.now }
{
    &geometry.instances
}

/// The parts that the instances of a geometry place.
pub(crate) fn parts_of(geometry: &Geometry) -> &[Geometry]
    ensures { result.now ≡ parts_in (instances_in geometry.now) }
{
    instances_of(geometry).parts()
}

/// The transform of each instance of a geometry, and the number of the part that it places.
pub(crate) fn items_of(geometry: &Geometry) -> &[(Transform, u32)]
    ensures items { result.now ≡ items_in (instances_in geometry.now) }
    ensures named { All (λ i. i.1 < length (parts_in (instances_in geometry.now))) result.now }
{
    instances_of(geometry).items()
}

/// The columns of the instances of a geometry.
pub(crate) fn columns_of(geometry: &Geometry) -> &Columns
    ensures { result.now ≡ columns_in (instances_in geometry.now) }
{
    instances_of(geometry).columns()
}
