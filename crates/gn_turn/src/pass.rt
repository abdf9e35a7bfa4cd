//! A turn, and the passes by which workers take it.
ghost use Rattle.std.specs.Prelude.{◌≡◌, ◌<◌};
ghost use Rattle.gn_turn.specs.Views.{carried};

use crate::guarded::Guarded;
use crate::rule::Rule;
use crate::view::View;
use atomic_table::{Seat, Table};
use std::alloc::Global;
use std::snapshot::Snapshot;

/// A state that one pass at a time takes and gives back.
#[derive(Drop)]
pub struct Turn<S: Guarded> {
    pub(crate) table: Table<Option<S>, View<S::Job, S::Event>, Snapshot<S>, Rule<S>, Global>,
    ghost sized: { (table.shared.table_id.words ≡ 2) × (table.shared.table_id.slots ≡ 1) },
}

/// The right to take turns, with what is known of the journal. It has no bytes, and it must be
/// spent, by `Turn::join` or `Turn::close`.
pub struct Pass<S: Guarded> {
    pub(crate) seat: Seat<Option<S>, View<S::Job, S::Event>>,
    ghost carries: { seat.me.1 ≡ carried seat.me.0.holds },
    ghost lives: { 0 < seat.me.0.parts },
}

/// There was no memory for a turn. The state comes back.
#[derive(Drop)]
pub struct NoTurn<S> {
    pub state: S,
}
