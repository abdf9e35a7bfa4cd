//! The outside of the evaluator: where bytes come from and where they go.
//!
//! A shelf gives the files that are asked for by name, a sink takes bytes, and a gate sees which node
//! begins and ends. A shelf or a sink may show its contents to contracts, and then each answer is tied
//! to them. A call reports that it failed, or that it found no file, only where a count rose in that
//! call, also for a shelf that shows nothing else. The shelf and the sink in memory show everything;
//! those over the system are the trusted edge. The crate stands on `gn_memory` alone.
#![tactic(auto)]

pub mod folder_shelf;
pub mod gate;
pub mod mem_shelf;
pub mod mem_sink;
pub mod shelf;
pub mod sink;
pub mod std_sink;

pub use folder_shelf::FolderShelf;
pub use gate::{Gate, OpenGate};
pub use mem_shelf::{Call, MemShelf};
pub use mem_sink::MemSink;
pub use shelf::{Fetched, Shelf};
pub use sink::{Put, Sink};
pub use std_sink::StdSink;
