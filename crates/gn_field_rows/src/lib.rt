//! What the kinds of nodes give whose inputs and outputs are fields alone.
//!
//! The crate holds definitions and their laws: for each of these 26 kinds the fields at the outputs, as
//! expressions over the fields at the inputs, and which kinds of values both have. It promises that fields
//! of the kinds that a node takes make fields of the kinds that it gives, with arguments that each operation
//! and step takes. It stands on `gn_plain` for fields, on `gn_node_kind` for the kinds with their settings, and
//! on `gn_field` for what fields of the right kinds are.
#![tactic(auto)]
