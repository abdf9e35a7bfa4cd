//! How many elements there may be on a place.
ghost use Rattle.std.specs.Prelude.{◌≡◌, ◌-◌, ◌^◌, min, map};
ghost use Rattle.gn_geometry.specs.Geometries.{plain_geometry};
ghost use Rattle.gn_joins.specs.Limits.{all_places, count_together, first_over};

use gn_geometry::Geometry;
use gn_value::Place;

/// How many elements there may be on a place.
pub const MOST_ELEMENTS: u64 = 1 << 23;

/// The places in their order.
pub const PLACES: [Place; 6] = [
    Place::Point,
    Place::Edge,
    Place::Face,
    Place::Corner,
    Place::Cloud,
    Place::Instance,
];

/// How many elements geometries have together on a place, at most 2^64 - 1.
fn count_together(geometries: &[Geometry], place: Place) -> u64
    ensures { result ≡ min (count_together (map plain_geometry geometries.now) place) (2 ^ 64 - 1) }
{
    let mut count = 0u64;
    for geometry in geometries {
        count = count.saturating_add(geometry.count(place));
    }
    count
}

/// The first place on which geometries have together more elements than there may be, and how many
/// they have, at most 2^64 - 1.
pub(crate) fn too_many(geometries: &[Geometry]) -> Option<(Place, u64)>
    ensures { result ≡ first_over (count_together (map plain_geometry geometries.now)) all_places }
{
    for place in &PLACES {
        let elements = count_together(geometries, *place);
        if elements > MOST_ELEMENTS {
            return Some((*place, elements));
        }
    }
    None
}
