//! What a geometry is, as plain lists, and what a field is worth at its elements.
//!
//! The crate holds definitions alone. A geometry is a mesh, a cloud of points and instances, each
//! with its columns, and nothing of how a program keeps them; the crates that keep geometry say by
//! these definitions what theirs stands for. A field is an expression, whose value at an element is
//! found by recursion. The crate stands on `gn_value`, and on `gn_node_set` for the paths of nodes.
#![tactic(auto)]
