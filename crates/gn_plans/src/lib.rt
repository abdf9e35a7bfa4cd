//! What a tree asks for, where this version evaluates it.
//!
//! This crate holds definitions alone. By `IsPlan` of `specs/Plans.antt` a tree has a plan where it gives
//! out no geometry, its own input, or what a Set Position makes of its input by constants, through any
//! number of groups; `Plan` is such a plan in code. `gn_origin` finds the plan of a tree, and that the
//! plan makes what the tree means is a law of `gn_plan_laws`. The crate stands on the meaning of trees in
//! `gn_meaning`, and on `gn_rows` for what conversions make of a constant.
#![tactic(auto)]

mod plans;

pub use plans::Plan;
