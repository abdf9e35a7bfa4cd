//! Columns: under a name, values of one kind for the elements of a place.
//!
//! The values of a column are in a shared array. `Columns` is an ordered list of columns under
//! different names; contracts see its members in order, each with its name, its place and its
//! handle, and `plain_columns` forgets the handles. A second list shares each array whose handle
//! has a part to give, and a column is written in place where its handle is the only one of the
//! block. Where an array is copied instead, the meter notes it. The crate stands on `gn_shared` for
//! the arrays, on `gn_value` for the values, on `gn_lazy` for the paths in names, and on `indexmap`
//! for the order and the look-up of names; its definitions are over the plain columns of `gn_plain`.
#![tactic(auto)]

pub mod array;
pub mod column;
pub mod columns;
pub mod name;

pub use column::Column;
pub use columns::{Columns, NoSpace};
pub use name::Name;
