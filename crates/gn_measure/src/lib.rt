//! How deep zones are nested, and how many nodes a tree has with its groups unfolded.
//!
//! The definitions are plain numbers without bounds (`Measures` in `gn_rules`). `Measures` finds them
//! group by group, each once and without unfolding, and promises to say exactly whether a node is
//! higher, or a tree has more nodes, than a limit: it stops at 2^64 - 1, where both are more than any
//! limit. It stands on the trees of `gn_tree` and the look-ups of `gn_names`.
#![tactic(auto)]

mod groups;
mod measure;
mod measures;

pub use measures::Measures;
