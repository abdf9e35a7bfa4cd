//! What the parts of one evaluation share: arrays, the machine that says how handles share them,
//! and the meter.
//!
//! A `SharedArray` is one of several handles on a block of items. A word in the block counts them,
//! and each handle has parts of the right to share, which a new handle takes from the one that it
//! is shared from; with all parts it is the only one. Sharing and dropping a handle are one atomic
//! step each and touch no item, and no call waits. `ShareWorld` is the same as a program over
//! events: each of its steps is one atomic step on a block's word, or one write, and its laws hold
//! over every list of events. The meter counts runs and copies; it must be spent, and only code
//! that has a value of its seal can make or spend one.
//!
//! The crate stands on `gn_block`, which has every raw step, and on `thiserror`.
#![tactic(auto)]

pub mod array;
pub mod meter;
pub mod world;
pub mod write;

pub use array::{AtLimit, InUse, NoRoom, SharedArray, USERS};
pub use meter::Meter;
pub use world::{ShareEvent, ShareWorld, StepFault};
