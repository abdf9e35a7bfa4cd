//! The calls on a turn.
ghost use Rattle.std.specs.Prelude.{◌≡◌, ◌<◌, ◌-◌, ◌+◌, true, false, [], ◌∷◌, length, Some, IfOk, IfErr, IfSome, IfNone};
ghost use Rattle.gn_turn.specs.Views.{view, opened, gave_part, got_part, joined};
ghost use Rattle.gn_turn.specs.Holds.{Took, MayGive, gave, Last};
ghost use Rattle.gn_turn.specs.Passes.{view_of, IsOf, IsSame};

use crate::guarded::Guarded;
use crate::pass::{NoTurn, Pass, Turn};
use crate::plays::{Add, Claim, Count, Part, Release};
use crate::view::View;
use atomic_table::{Refused, Seat, Table};
use std::alloc::{AllocFailed, Global};
use std::snapshot::Snapshot;
use std::sync::Wait;

/// The word that is `TAKEN` while a pass holds the turn, and else `FREE`.
const HELD: usize = 0;

/// The word that counts the events given back.
const EVENTS: usize = 1;

/// The slot of the state.
const STATE: usize = 0;

const FREE: u64 = 0;

const TAKEN: u64 = 1;

/// Returns the slots of a turn's table: the one with the state.
fn slots_of<S: Guarded>(alloc: Global, state: S) -> Result<Vec<Option<S>>, NoTurn<S>>
    ensures ok { IfOk result (λ slots. slots.items ≡ Some state ∷ []) }
    ensures err { IfErr result (λ e. e.state ≡ state) }
{
    let mut slots = Vec::new(alloc);
    match slots.push(Some(state)) {
        Ok(()) => Ok(slots),
        Err(failed) => {
            let AllocFailed { value } = failed;
            slots.destroy_empty();
            let Some(state) = value else { unreachable!() };
            Err(NoTurn { state })
        }
    }
}

/// Returns the state that is in the slots.
fn state_of<S: Guarded>(mut slots: Vec<Option<S>>) -> S
    requires { (x : S) × (slots.items ≡ Some x ∷ []) }
    ensures { slots.items ≡ Some result ∷ [] }
{
    let Some(Some(state)) = slots.pop() else {
        unreachable!()
    };
    slots.destroy_empty();
    state
}

impl<S: Guarded> Turn<S> {
    /// Makes a turn at `state`, and a pass with all 128 parts of it. Where there is no memory the
    /// state comes back.
    pub fn new(alloc: Global, state: S) -> Result<(Turn<S>, Pass<S>), NoTurn<S>>
        requires good { S.good state }
        requires fresh { S.journal state ≡ [] }
        ensures ok { IfOk result (λ t. IsOf t.0 t.1 × (view_of t.1 ≡ opened (S.job state))) }
        ensures err { IfErr result (λ e. e.state ≡ state) }
    {
        let about = Snapshot::of(&state);
        let slots = slots_of(alloc, state)?;
        match Table::new(alloc, &[FREE, 0], slots, &about) {
            Ok((table, seat)) => Ok((Turn { table }, Pass { seat })),
            Err(Refused { slots }) => Err(NoTurn {
                state: state_of(slots),
            }),
        }
    }

    /// Gives one part of a pass to a new pass, for a further worker.
    pub fn split(&self, pass: &mut Pass<S>) -> Pass<S>
        requires own { IsOf self.now pass.old }
        requires parts { 1 < (view_of pass.old).parts }
        requires free { (view_of pass.old).holds ≡ false }
        ensures own { IsSame pass.old pass.new × IsOf self.now result }
        ensures kept { view_of pass.new ≡ gave_part (view_of pass.old) }
        ensures given { view_of result ≡ got_part (view_of pass.old) }
    {
        let seat = self.table.shared.split_seat::<Part>(&mut pass.seat);
        Pass { seat }
    }

    /// Spends `other`: `pass` then has the parts and the own events of both, and knows the longer
    /// of the two beginnings of the journal.
    pub fn join(&self, pass: &mut Pass<S>, other: Pass<S>)
        requires own { IsOf self.now pass.old × IsOf self.now other }
        requires free { ((view_of pass.old).holds ≡ false) × ((view_of other).holds ≡ false) }
        ensures own { IsSame pass.old pass.new }
        ensures both { view_of pass.new ≡ joined (view_of pass.old) (view_of other) }
    {
        let Pass { seat } = other;
        self.table.shared.join_seat::<Part>(&mut pass.seat, seat);
    }

    /// Takes the turn if no pass has it.
    fn try_take(&self, pass: &mut Pass<S>) -> Option<S>
        requires own { IsOf self.now pass.old }
        requires free { (view_of pass.old).holds ≡ false }
        ensures own { IsSame pass.old pass.new }
        ensures took { IfSome result (Took S.job S.journal S.good (view_of pass.old) (view_of pass.new)) }
        ensures lost { IfNone result (view_of pass.new ≡ view_of pass.old) }
    {
        let shared = &self.table.shared;
        let found = shared.compare_exchange::<Claim<S>>(&mut pass.seat, HELD, FREE, TAKEN);
        if found != FREE {
            return None;
        }
        shared.exchange(&mut pass.seat, STATE, None)
    }

    /// Takes the turn and the state. While another pass has the turn it sleeps; nothing is promised
    /// of when it wakes.
    ///
    /// The state is good for the job, and its journal begins with the events that the pass knew.
    /// The pass then knows the whole journal.
    pub fn take<R: Wait>(&self, rt: &R, pass: &mut Pass<S>) -> S
        requires own { IsOf self.now pass.old }
        requires free { (view_of pass.old).holds ≡ false }
        ensures own { IsSame pass.old pass.new }
        ensures took { Took S.job S.journal S.good (view_of pass.old) (view_of pass.new) result }
    {
        for _ in rt.forever() {
            if let Some(state) = self.try_take(pass) {
                return state;
            }
            self.table.shared.park(rt, HELD, TAKEN as u32);
        }
        unreachable!()
    }

    /// Counts the event, if there is one, of a state that lies in the slot and is not given yet.
    fn count(
        &self,
        seat: &mut Seat<Option<S>, View<S::Job, S::Event>>,
        state: &Snapshot<S>,
        events: u64,
    )
        requires own { seat.old.table_id ≡ self.now.table.shared.table_id }
        requires out { seat.old.me.1 ≡ (0, Some state.now.value) ∷ [] }
        requires lives { 0 < seat.old.me.0.parts }
        requires holds { seat.old.me.0.holds ≡ true }
        requires state { MayGive S.job S.journal S.good seat.old.me.0 state.now.value }
        requires events { events ≡ length (S.journal state.now.value) }
        ensures same { (seat.new.table_id ≡ seat.old.table_id) × (seat.new.me.1 ≡ seat.old.me.1) }
        ensures view { seat.new.me.0 ≡ view seat.old.me.0.job (S.journal state.now.value) seat.old.me.0.parts (seat.old.me.0.own + (length (S.journal state.now.value) - length seat.old.me.0.known)) true }
    {
        let known = self.table.shared.load::<Count>(seat, EVENTS);
        if events != known {
            self.table.shared.fetch_add::<Add<S>>(seat, EVENTS, 1);
        }
    }

    /// Gives the turn back with the state, whose journal is the one that was taken or has one event
    /// more, and wakes one worker that sleeps, if there is one. The pass then knows this journal, and
    /// has one own event more where the journal has.
    pub fn give(&self, pass: &mut Pass<S>, state: S)
        requires own { IsOf self.now pass.old }
        requires holds { (view_of pass.old).holds ≡ true }
        requires state { MayGive S.job S.journal S.good (view_of pass.old) state }
        ensures own { IsSame pass.old pass.new }
        ensures gave { view_of pass.new ≡ gave (S.journal state) (view_of pass.old) }
    {
        let shared = &self.table.shared;
        let given = Snapshot::of(&state);
        let events = state.events();
        let _none = shared.exchange(&mut pass.seat, STATE, Some(state));
        self.count(&mut pass.seat, &given, events);
        shared.swap::<Release>(&mut pass.seat, HELD, FREE);
        shared.wake_one(HELD);
    }

    /// Takes the turn once more, with all parts, and gives the state out.
    ///
    /// The state is good for the job. Its journal begins with the events that the pass knew, and
    /// has as many events as the pass and those that were joined into it gave back.
    pub fn close<R: Wait>(self, rt: &R, last: Pass<S>) -> S
        requires own { IsOf self last }
        requires free { (view_of last).holds ≡ false }
        requires whole { (view_of last).parts ≡ 128 }
        ensures { Last S.job S.journal S.good (view_of last) result }
    {
        let mut last = last;
        let state = self.take(rt, &mut last);
        let Pass { seat: _ } = last;
        state
    }
}
