ghost use Rattle.std.specs.Prelude.{◌≡◌, ◌≤◌, ℕ, Option};
ghost use Rattle.gn_io.specs.Outside.{Files, Names, Rose};
ghost use Rattle.gn_io.specs.Shelf.{AsksFor, Misses, OnAbsent, OnFailedFetch, Serves};

/// How a shelf answers when it is asked for a file.
#[derive(Clone, Copy, Debug, PartialEq, Eq)]
pub enum Fetched {
    /// The file's bytes are there, and they are within the limit.
    Whole,
    /// There is no file of that name.
    Absent,
    /// The file is longer than the limit.
    TooLong {
        /// A length above the limit, in bytes: the file's own where the shelf knows it.
        length: u64,
    },
    /// The file could not be read.
    Failed,
    /// There was no memory for the bytes.
    Memory,
}

/// A place that gives files by name.
pub trait Shelf {
    // the bytes under each name, if the shelf shows them
    ghost holds: { Self → Option Files };

    // the names asked for, in order, if the shelf shows them
    ghost asked: { Self → Option Names };

    // the names answered `Absent`, in order, if the shelf shows them
    ghost missed: { Self → Option Names };

    // how many calls failed: a count that stops at 2^64 - 1
    ghost faults: { Self → ℕ };

    // how many calls found no file: a count that stops at 2^64 - 1
    ghost misses: { Self → ℕ };

    /// Puts the bytes of the file `name` in place of what `into` had, if they are at most `limit`.
    ///
    /// After every answer but `Whole`, `into` is empty. `Absent` comes only where the count of
    /// misses rose in this call, and `Failed` only where the count of faults did. `Memory` is want
    /// of memory alone, and may come at any time.
    fn fetch(&mut self, name: &str, limit: u64, into: &mut Vec<u8>) -> Fetched
        ensures serves { Serves (holds self.old) name.now limit into.new.items result }
        ensures absent { OnAbsent result (Rose (misses self.old) (misses self.new)) }
        ensures failed { OnFailedFetch result (Rose (faults self.old) (faults self.new)) }

        // What the shelf shows afterwards.
        ensures holds { holds self.new ≡ holds self.old }
        ensures asked { AsksFor name.now result (asked self.old) (asked self.new) }
        ensures missed { Misses name.now result (missed self.old) (missed self.new) }
        ensures faults { faults self.old ≤ faults self.new }
        ensures misses { misses self.old ≤ misses self.new };
}
