//! What a pass knows, for clauses alone: no value of it is made.
use std::alloc::Global;
use std::collections::LinkedList;

/// The knowledge of one pass.
pub struct View<J, E> {
    /// The job of the state, or `None` where the pass was joined into another.
    pub job: Option<J>,
    /// The beginning of the journal that the pass saw.
    pub known: LinkedList<E, Global>,
    /// How many of the 128 parts of the turn the pass has.
    pub parts: u64,
    /// How many events were given back by the pass and by those that were joined into it.
    pub own: u64,
    /// Whether the state is out with the pass.
    pub holds: bool,
}
