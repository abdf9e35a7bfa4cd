//! The rules F2 to F7 of a tree, as definitions.
//!
//! `specs` says what is at each pointer of a tree (`Things`), which rules a thing breaks by itself
//! (`Rules`), and which rule and pointer are named (`IsNamed`): the least rule that is broken anywhere,
//! at the first pointer where it is. `Walk` defines the same as a way through the tree,
//! and `named_tells` in `proofs` states that both agree. The rules stand on the trees of `gn_tree`, the table
//! of kinds, the pointers of `gn_pointers` and the paths of `gn_cycle`; `gn_check` is the code.
#![tactic(auto)]

mod rule;
mod shape;
mod sought;

pub use rule::Rule;
pub use shape::Shape;
pub use sought::Sought;
