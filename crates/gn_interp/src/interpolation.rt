//! Columns on one place as columns on another.
ghost use Rattle.std.specs.Prelude.{◌≡◌, ◌<◌, ◌^◌, length, IfOk};
ghost use Rattle.gn_plain.specs.Columns.{count_of_values};
ghost use Rattle.gn_plain.specs.Topology.{IsNumbered, IsValid};
ghost use Rattle.gn_plain.specs.Interpolation.{one_suffices};
ghost use Rattle.gn_attr.specs.Columns.{values_of, IsSoleColumn};
ghost use Rattle.gn_interp.specs.Takings.{topology_of, unplaced};
ghost use Rattle.gn_interp.specs.Gathered.{count_on, IsAdapted, ValuesAreGathered};

use crate::gather::truths;
use crate::means::{fixed_means, integer_means, vector_means};
use crate::takings::takings;
use gn_attr::Column;
use gn_attr::array::array_of;
use gn_memory::Memory;
use gn_value::Place;
use gn_value::op::Topology;
use std::alloc::Global;

/// How many elements a place of a mesh has; 0 on a place that is none of a mesh.
pub fn count_on(topology: &Topology<'_>, place: Place) -> usize
    ensures { result ≡ count_on (topology_of topology.now) place }
{
    match place {
        Place::Point => topology.points as usize,
        Place::Edge => topology.edges.len(),
        Place::Face => topology.faces.len().saturating_sub(1),
        Place::Corner => topology.corner_points.len(),
        Place::Cloud | Place::Instance => 0,
    }
}

/// Whether a truth on a place holds where it holds of one of the elements of another.
fn one_suffices(from: Place, to: Place) -> bool
    ensures { result ≡ one_suffices from to }
{
    matches!(
        (from, to),
        (Place::Edge | Place::Face, Place::Point) | (Place::Face, Place::Edge)
    )
}

/// The values of a column as those of the elements that take them, of which there are `count`.
fn interpolate(
    alloc: Global,
    column: &Column,
    takings: &[(u32, u32)],
    count: usize,
    one_suffices: bool,
) -> Result<Column, Memory>
    requires few { length takings.now < 2 ^ 63 }
    ensures count { IfOk result (λ c. count_of_values (values_of c) ≡ count) }
    ensures values { IfOk result (λ c. ValuesAreGathered one_suffices takings.now (values_of column.now) (values_of c)) }
    ensures sole { IfOk result IsSoleColumn }
{
    match column {
        Column::Truth(array) => {
            let truths = truths(alloc, count, takings, array.items(), one_suffices)?;
            Ok(Column::Truth(array_of(truths)?))
        }
        Column::Int(array) => {
            let means = integer_means(alloc, count, takings, array.items())?;
            Ok(Column::Int(array_of(means)?))
        }
        Column::Fixed(array) => {
            let means = fixed_means(alloc, count, takings, array.items())?;
            Ok(Column::Fixed(array_of(means)?))
        }
        Column::Vector(array) => {
            let means = vector_means(alloc, count, takings, array.items())?;
            Ok(Column::Vector(array_of(means)?))
        }
    }
}

/// The values of a column on one place of a mesh as values on another: the mean of those that an
/// element takes, rounded down, or for truths whether one or all of them hold; 0 or false where an
/// element takes nothing. On its own place a column stays as it is.
///
/// Condition: the topology is valid, each of its lists has fewer than 2^32 members, and the column has
/// as many values as its place has elements.
pub fn adapt(
    alloc: Global,
    column: &Column,
    from: Place,
    to: Place,
    topology: &Topology<'_>,
) -> Result<Column, Memory>
    requires valid { IsValid (topology_of topology.now) }
    requires numbered { IsNumbered (topology_of topology.now) }
    requires count { count_of_values (values_of column.now) ≡ count_on (topology_of topology.now) from }
    ensures values { IfOk result (λ c. IsAdapted (unplaced (topology_of topology.now)) from to (count_on (topology_of topology.now) to) (values_of column.now) (values_of c)) }
    ensures sole { IfOk result IsSoleColumn }
{
    if from == to {
        return column.copied(alloc);
    }
    let takings = takings(alloc, from, to, topology)?;
    let count = count_on(topology, to);
    interpolate(alloc, column, &takings, count, one_suffices(from, to))
}
