//! What the kinds of nodes give that make geometry, join it, place it or measure it.
//!
//! The crate holds definitions alone, checked by worked rows: for each of these 16 kinds the outputs for the
//! inputs. It stands on `gn_rows` for what links carry, on `gn_shapes` for the shapes that are made of numbers, on
//! `gn_joins` for joins, transforms and realising, and on `gn_node_kind` for the kinds.
#![tactic(auto)]
