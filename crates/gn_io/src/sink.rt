ghost use Rattle.std.specs.Prelude.{◌≤◌, ℕ, List, Option};
ghost use Rattle.gn_io.specs.Outside.{Rose};
ghost use Rattle.gn_io.specs.Sink.{OnFailedPut, Takes};

/// How a sink answers when it is given a piece of bytes.
#[derive(Clone, Copy, Debug, PartialEq, Eq)]
pub enum Put {
    /// The whole piece went in.
    All,
    /// The piece did not go in whole.
    Failed {
        /// How many bytes of the piece went in, from its first on.
        taken: u64,
    },
}

/// A place that takes bytes.
pub trait Sink {
    // the bytes taken so far, if the sink shows them
    ghost held: { Self → Option (List ℕ) };

    // how many calls failed: a count that stops at 2^64 - 1
    ghost faults: { Self → ℕ };

    /// Puts the bytes at the end of those that the sink holds.
    ///
    /// `Failed` comes only where the count of faults rose in this call. A sink that takes nothing
    /// of a piece that isn't empty has failed.
    fn put(&mut self, bytes: &[u8]) -> Put
        ensures takes { Takes bytes.now result (held self.old) (held self.new) }
        ensures failed { OnFailedPut result (Rose (faults self.old) (faults self.new)) }
        ensures faults { faults self.old ≤ faults self.new };
}
