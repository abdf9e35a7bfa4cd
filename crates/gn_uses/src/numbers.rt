ghost use Rattle.std.specs.Prelude.{◌≡◌, ◌+◌, ◌<◌, IfOk, OnErr, not};
ghost use Rattle.gn_uses.specs.Sets.{has, with_number, larger, with_member, NumberSet, no_numbers};

use gn_memory::Memory;
use std::alloc::Global;
use std::marker::Model;

/// A set of numbers below a bound, in the order in which they came. There is room for all of them, so
/// that putting one in takes no memory.
#[derive(Drop)]
pub(crate) struct Numbers {
    flags: Vec<bool>,
    items: Vec<usize>,
}

impl Model for Numbers {
    ghost use Rattle.std.specs.Prelude.{length, vec_capacity};
    ghost use Rattle.gn_uses.specs.Sets.{NumberSet, IsFlagged};

    ghost Value = { NumberSet };

    ghost view = { λ s. record { bound = length s.flags.items; items = s.items.items } };

    ghost invariant = { λ s. IsFlagged s.flags.items s.items.items (vec_capacity s.items) };
}

impl Numbers {
    /// No number, below 0.
    pub(crate) fn new(alloc: Global) -> Numbers
        ensures { result ≡ no_numbers }
    {
        Numbers {
            flags: Vec::new(alloc),
            items: Vec::new(alloc),
        }
    }

    /// Makes the bound larger by one. A refusal changes nothing.
    pub(crate) fn grow(&mut self) -> Result<(), Memory>
        ensures ok { IfOk result (λ _. self.new ≡ larger self.old) }
        ensures err { OnErr result (self.new ≡ self.old) }
    {
        let room = self.flags.len() - self.items.len();
        self.items.reserve(room.saturating_add(1))?;
        self.flags.push(false)?;
        Ok(())
    }

    /// Whether the number is in the set.
    pub(crate) fn has(&self, number: usize) -> bool
        ensures { result ≡ has self.now.items number }
    {
        match self.flags.get(number) {
            Some(flag) => *flag,
            None => false,
        }
    }

    /// Puts the number behind the others, and returns whether it is new.
    ///
    /// Condition: it is below the bound.
    pub(crate) fn put(&mut self, number: usize) -> bool
        requires { number < self.old.bound }
        ensures set { self.new ≡ with_member self.old number }
        ensures is_new { result ≡ not (has self.old.items number) }
    {
        if self.flags[number] {
            return false;
        }
        self.flags[number] = true;
        self.items.push_reserved(number);
        true
    }

    /// The numbers, the first one first.
    pub(crate) fn items(&self) -> &[usize]
        ensures { result.now ≡ self.now.items }
    {
        &self.items
    }
}
