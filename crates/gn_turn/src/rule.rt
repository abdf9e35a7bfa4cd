//! The rule of a turn's table.
use crate::guarded::Guarded;
use crate::view::View;
use atomic_table::TableRule;
use std::marker::PhantomData;
use std::snapshot::Snapshot;

/// The rule for states of type `S`. Its key is the state that the turn was made with.
pub struct Rule<S> {
    marker: PhantomData<S>,
}

impl<S: Guarded> TableRule<Option<S>, View<S::Job, S::Event>, Snapshot<S>> for Rule<S> {
    ghost use Rattle.gn_turn.specs.Rule.{Kept};
    ghost use Rattle.gn_turn.specs.Views.{opened};

    ghost holds = { λ about. Kept S.job S.journal S.good (S.job about.value) };

    ghost first = { λ about. opened (S.job about.value) };
}
