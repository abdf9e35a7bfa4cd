//! Kinds of nodes with the values of their settings, made of what a tree spells.
//!
//! `kind_of` is the way from the name and the settings of a node to its typed `Kind`: it promises the kind
//! that `kind_with` of `specs/Kinds.antt` gives, and none exactly where that gives none. What a kind says is
//! copied, and a zone keeps its body and the groups of its tree. Two laws go with it, for the crates above:
//! a kind is written by the name and the settings that it is made of (`as_written`), and each node of its
//! form has a kind, unless it names a group (`node_covered`). The crate stands on the trees of `gn_tree`,
//! the table of `gn_kinds` and the operations of `gn_value`.
#![tactic(auto)]

mod copy;
mod kind;
mod names;

pub use copy::copy_groups;
pub use kind::kind_of;
