//! The program's commands: what `geonodes` does for the words that it is called with.
//!
//! Both top calls are handed the outside world: a shelf of files, a sink for the output, a sink for
//! messages, and a meter. For every list of words they keep one statement, the record `IsCall` of
//! `specs/Run.antt`: the status is the one that the files lead to; where it is `Done` for `eval`, the
//! bytes written are the text of the geometry that the tree gives out, the files asked
//! for are the tree and the input, each once, and the node runs are as many as the nodes demanded; any
//! other end is reported by a line on the sink of messages. `check` asks for the tree alone, runs no node
//! and writes `ok`. Words that spell no command touch no file and no output.
//!
//! A tree is read and checked by `gn_read`. So far `eval` evaluates the trees that have a plan by
//! `gn_plans`, which `gn_origin` finds; every other well-formed tree ends as `NotBuilt`. What a plan makes
//! is what the tree means by the laws of `gn_plan_laws`, over `gn_meaning` and `gn_rows`. Meshes and their
//! texts are those of `gn_geom`, `gn_elements` and `gn_obj`, the outside is that of `gn_io`, and the meter
//! that of `gn_shared`.
#![tactic(auto)]

mod command;
mod ending;
mod files;
mod load;
mod message;
mod moving;
mod refusal;
mod request;
mod status;

pub use command::{run, run_alone};
pub use refusal::{refuse_stray, refuse_unread};
pub use status::Status;
