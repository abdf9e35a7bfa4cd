//! What lines, grids and cuboids are, as plain shapes.
//!
//! The crate holds definitions alone, checked by worked rows: where the vertices of each shape are, in which
//! order, which edges join them, and which corners each face has. It stands on `gn_plain` for shapes and on
//! `gn_value` for numbers.
#![tactic(auto)]
