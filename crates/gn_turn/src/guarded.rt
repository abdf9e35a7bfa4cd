//! What a state under a turn is.
ghost use Rattle.std.specs.Prelude.{◌≡◌, ◌<◌, ◌^◌, List, length};

/// A state that workers take turns at. Clauses see its job, which never changes, its journal, to
/// which each turn adds one event or none, and whether it is right for its job.
pub trait Guarded: Send + Drop {
    type Job;

    type Event;

    ghost job: { Self → Self.Job };

    ghost journal: { Self → List Self.Event };

    // The state is right for its job.
    ghost good: { Self → Type 0 };

    /// Returns the number of events in the journal.
    fn events(&self) -> u64
        requires { length (journal self.now) < 2 ^ 62 }
        ensures { result ≡ length (journal self.now) };
}
