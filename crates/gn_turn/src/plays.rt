//! What each step on the table tells its caller.
use crate::guarded::Guarded;
use crate::view::View;
use atomic_table::{Join, Play, Split};
use std::marker::PhantomData;

/// The compare-exchange of the word `held` from free to taken.
pub struct Claim<S> {
    marker: PhantomData<S>,
}

impl<S: Guarded> Play<Option<S>, View<S::Job, S::Event>> for Claim<S> {
    ghost use Rattle.gn_turn.specs.Steps.{claimed};

    ghost then = { λ _. claimed S.job S.journal S.good };
}

/// The load of the word `events` by the pass that has the turn.
pub struct Count;

impl<S, J, E> Play<Option<S>, View<J, E>> for Count {
    ghost use Rattle.gn_turn.specs.Steps.{counted};

    ghost then = { λ _. counted };
}

/// The fetch-add on the word `events`.
pub struct Add<S> {
    marker: PhantomData<S>,
}

impl<S: Guarded> Play<Option<S>, View<S::Job, S::Event>> for Add<S> {
    ghost use Rattle.gn_turn.specs.Steps.{added};

    ghost then = { λ _. added S.journal };
}

/// The swap of the word `held` back to free.
pub struct Release;

impl<S, J, E> Play<Option<S>, View<J, E>> for Release {
    ghost use Rattle.gn_turn.specs.Steps.{released};

    ghost then = { λ _. released };
}

/// How one part of a pass goes to a new pass, and how one pass takes in another.
pub struct Part;

impl<J, E> Split<View<J, E>> for Part {
    ghost use Rattle.gn_turn.specs.Views.{gave_part, got_part};

    ghost left = { gave_part };

    ghost right = { got_part };
}

impl<J, E> Join<View<J, E>> for Part {
    ghost use Rattle.gn_turn.specs.Views.{joined, spent};

    ghost both = { joined };

    ghost spent = { spent };
}
