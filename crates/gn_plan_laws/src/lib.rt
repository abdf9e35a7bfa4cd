//! What a tree with a plan means: the geometry that it gives out, and the nodes that it demands.
//!
//! This crate holds definitions and proofs alone. `made` of `specs/Made.antt` is the geometry that a plan
//! makes of the input's mesh; the laws `plan_stands` and `plan_demands` show for each tree that keeps the
//! rules and has the plan that this geometry stands at what the tree gives out, and that the list of the
//! one node that moves, or the empty list, has the demanded nodes, each once. The crate stands on the
//! plans of `gn_plans`, on the meaning of trees in `gn_meaning` and on the rows of `gn_rows`.
#![tactic(auto)]
