ghost use Rattle.std.specs.Prelude.{◌≡◌, ◌+◌, ◌-◌, ◌^◌, ◌<◌};
ghost use Rattle.gn_shared.specs.Count.{nothing_noted, with_run, with_copy, both};

use std::marker::{Model, PhantomData};

/// Counts the runs of nodes and the copies of arrays in an evaluation. Contracts see a `Count`.
///
/// A meter must be spent: its type is not `Drop`, so code that is given one and lets it go does
/// not compile. To make or to spend one takes a value of the seal `L`. Code that is generic in `L`
/// has no such value, and so can neither make nor spend a meter: it can only note, split and join.
pub struct Meter<L> {
    runs: u64,
    copies: u64,
    seal: PhantomData<L>,
}

impl<L> Model for Meter<L> {
    ghost use Rattle.std.specs.Prelude.{◌<◌, ◌^◌};
    ghost use Rattle.gn_shared.specs.Count.{Count};

    ghost Value = { Count };

    ghost view = { λ m. record { runs = m.runs; copies = m.copies } };

    ghost invariant = { λ m. m.runs < 2 ^ 63 };
}

impl<L> Meter<L> {
    /// A meter that has noted nothing.
    pub fn new(seal: L) -> Meter<L>
    where
        L: Drop,
        ensures { result ≡ nothing_noted }
    {
        drop(seal);
        Self::empty()
    }

    /// A second meter, which has noted nothing, to be joined again later. The first one stays as
    /// it is.
    pub fn split(&mut self) -> Meter<L>
        ensures apart { result ≡ nothing_noted }
        ensures unchanged { self.new ≡ self.old }
    {
        Meter::empty()
    }

    /// Adds what the other meter noted, and ends it.
    pub fn join(&mut self, other: Meter<L>)
        requires { self.old.runs + other.runs < 2 ^ 63 - 1 }
        ensures { self.new ≡ both self.old other }
    {
        let (runs, copies) = other.into_numbers();
        self.runs += runs;
        self.copies = self.copies.saturating_add(copies);
    }

    /// Notes one run of a node.
    pub fn note_run(&mut self)
        requires { self.old.runs < 2 ^ 63 - 1 }
        ensures { self.new ≡ with_run self.old }
    {
        self.runs += 1;
    }

    /// Notes one copy of an array. At 2^64 - 1 the number of copies stays.
    pub fn note_copy(&mut self)
        ensures { self.new ≡ with_copy self.old }
    {
        self.copies = self.copies.saturating_add(1);
    }

    /// The number of runs that were noted.
    pub fn runs(&self) -> u64
        ensures noted { result ≡ self.now.runs }
        ensures in_range { result < 2 ^ 63 }
    {
        self.runs
    }

    /// The number of copies that were noted.
    pub fn copies(&self) -> u64
        ensures { result ≡ self.now.copies }
    {
        self.copies
    }

    /// Ends the meter, and gives its runs and its copies.
    pub fn spend(self, seal: L) -> (u64, u64)
    where
        L: Drop,
        ensures { result ≡ (self.runs, self.copies) }
    {
        drop(seal);
        self.into_numbers()
    }

    fn empty() -> Meter<L>
        ensures { result ≡ nothing_noted }
    {
        Meter {
            runs: 0,
            copies: 0,
            seal: PhantomData,
        }
    }

    fn into_numbers(self) -> (u64, u64)
        ensures { result ≡ (self.runs, self.copies) }
    {
        let Meter {
            runs,
            copies,
            seal: _,
        } = self;
        (runs, copies)
    }
}
