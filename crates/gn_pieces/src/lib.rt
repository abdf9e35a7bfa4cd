//! The pieces of a join of geometries: the lists of its mesh, its points, and its columns.
//!
//! Geometries go into a join by reference, each as it stands or as an instance places it: moved by a
//! transform and with the columns of the instance, so that nothing is copied before it is joined.
//! `joined_lists` and `joined_points` put the shapes and the points one behind another, and
//! `joined_columns` gathers the columns of meshes, clouds or instances, on the place and in the kind
//! with which each name is first seen. What a join is `gn_joins` defines, over plain geometry. The
//! crate stands on `gn_geometry` for geometry, on `gn_transform` for points that are moved, and on
//! `gn_interp` for columns on other places.
#![tactic(auto)]

mod columns;
mod shapes;
mod values;
mod view;

pub use columns::joined_columns;
pub use shapes::{Lists, joined_lists, joined_points};
pub use view::{Component, Placing, View};
