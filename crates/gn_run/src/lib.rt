//! Fields over masks.
//!
//! `evaluate` promises a column for each of some fields, as long as the context: at the elements of a
//! mask it has the field's value there, and zero at the others. `TooMany` comes exactly where the fields
//! together have more than 4,096 different subtrees, with their number.
//!
//! The fields are merged into one tape, the mask is cut into parts, which run in threads, and the parts'
//! values are put together in order, so the result is the same with any number of threads. The crate
//! stands on `gn_proc` for tapes, on `gn_mask` for masks, on `gn_attr` for columns, on `gn_fill` for
//! registers and on `rayon` for threads.
#![tactic(auto)]

mod columns;
mod fields;
mod parts;

pub use fields::evaluate;
