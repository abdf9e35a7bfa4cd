//! What a tree asks for, found by following its links back through groups.
//!
//! `find_plan` gives the plan of every tree that has one by `IsPlan` of `gn_plans`, and says of every other
//! tree that it has none. What an input reads is followed along links, into groups and out of them, back to
//! where its value comes from; the conversions on the way are collected, and each costs one step. The
//! crate stands on the trees of `gn_check`, on the meaning of trees in `gn_meaning` and on the look-ups of
//! `gn_names`.
#![tactic(auto)]

mod groups;
mod list;
mod plans;
mod read;
mod sockets;
mod walk;

pub use plans::find_plan;
