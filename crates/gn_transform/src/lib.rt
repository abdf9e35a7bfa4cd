//! Points under transforms, and transforms one behind another.
//!
//! A transform is a linear map by its rows, and then a translation. `apply` adds the products of a
//! row, each rounded down, and the translation exactly, and brings each component into range once.
//! `compose` gives the transform of instances that another transform moves, and `append_moved` puts
//! points that are moved behind others. What a transform makes of points and of other transforms
//! `gn_joins` defines, over plain geometry. The crate stands on `gn_geometry` for the transforms and
//! on `gn_value` for the numbers.
#![tactic(auto)]

mod transform;

pub use transform::{append_moved, apply, compose};
