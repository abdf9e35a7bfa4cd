//! Geometry whose instances are realised.
//!
//! `realize` has in place of instances what they place, moved by their transforms and with their
//! columns. `SizeFault::Limit` comes exactly where a place would have more than 2^23 elements, with
//! the first such place. What realised geometry is `gn_joins` defines, over plain geometry. The crate
//! stands on `gn_join` for joins and on `gn_transform` for transforms, both of which it hands on, and
//! on `gn_geometry` for geometry.
#![tactic(auto)]

mod counts;
mod placed;
mod realizing;

pub use gn_join::{SizeFault, join};
pub use gn_transform::{apply, compose};
pub use realizing::realize;
