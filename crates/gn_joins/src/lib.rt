//! What the join of geometries is, and what becomes of geometry under a transform and where its
//! instances are realised, over plain geometry.
//!
//! The crate holds definitions and laws alone. A join has the elements of its parts one after
//! another, with their numbers shifted, and the columns of all of them; realised, a geometry is the
//! join of itself without its instances and of what these place. The laws say how many elements a
//! join has. The crate stands on `gn_plain` for geometry and on `gn_value` for numbers.
#![tactic(auto)]
