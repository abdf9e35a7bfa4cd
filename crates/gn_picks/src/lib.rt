//! The values of some elements, in an order that is asked for.
//!
//! `picked` gives the column that has, for each of some numbers, the value of a column at the element of
//! that number, and `picked_items` does the same for a list. Past the end a value is zero, so that no
//! number is refused. The crate stands on `gn_attr` for columns, and on `gn_geometry_rows`, which defines
//! what is picked from columns.
#![tactic(auto)]

mod picks;

pub use picks::{picked, picked_items};
