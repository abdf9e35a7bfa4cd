//! Geometries that are joined.
//!
//! `join` has on each place the elements of its parts one after another, and the columns of all of
//! them. `SizeFault::Limit` comes exactly where a place would have more than 2^23 elements, with the
//! first such place. `joined_mesh` and `joined_cloud` are the mesh and the cloud of a join, of
//! geometries as they stand or as instances place them. What a join is `gn_joins` defines, over plain
//! geometry. The crate stands on `gn_pieces` for the lists, points and columns of joins, and on
//! `gn_geometry` for geometry.
#![tactic(auto)]

mod fault;
mod joining;
mod limit;
mod parts;
mod placed;

pub use fault::SizeFault;
pub use joining::join;
pub use limit::{MOST_ELEMENTS, PLACES};
pub use parts::{joined_cloud, joined_mesh};
