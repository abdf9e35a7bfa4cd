//! Names in a list, and the number of the first of a name.
//!
//! Contracts see `Names` as the list of its names. `first` promises the number of the first name of
//! the list that is the one that is asked for, in one look-up, however long the list is.
//!
//! The numbers are kept in an ordered map of the standard library, and not in one with a hash: names
//! come from files, and whoever writes a file can choose names whose hashes collide. A look-up among n
//! names compares the logarithm of n of them, whatever they are.
#![tactic(auto)]

ghost use Rattle.std.specs.Prelude.{◌≡◌, IfOk, map};
ghost use Rattle.gn_names.specs.First.{first_of, AreFirst};

use gn_memory::Memory;
use std::alloc::Global;
use std::collections::BTreeMap;
use std::marker::Model;

/// A list of names, some of which may be equal.
#[derive(Drop)]
pub struct Names<'a> {
    list: Vec<&'a str>,
    numbers: BTreeMap<&'a str, usize>,
}

impl<'a> Model for Names<'a> {
    ghost use Rattle.std.specs.Prelude.{List, ℕ, map};
    ghost use Rattle.gn_names.specs.First.{AreFirst};

    ghost Value = { List (List ℕ) };

    ghost view = { λ x. map (λ n. n.now) x.list.items };

    ghost invariant = { λ x. AreFirst x.numbers (map (λ n. n.now) x.list.items) };
}

/// The number of the first of each name of the list.
fn first_numbers<'a>(alloc: Global, list: &[&'a str]) -> Result<BTreeMap<&'a str, usize>, Memory>
    ensures { IfOk result (λ numbers. AreFirst numbers (map (λ n. n.now) list.now)) }
{
    let mut numbers = BTreeMap::new(alloc);
    // From the last name to the first, so the first of equal names is what the map keeps.
    let mut number = list.len();
    while number > 0 {
        number -= 1;
        numbers.insert(list[number], number)?;
    }
    Ok(numbers)
}

impl<'a> Names<'a> {
    /// The names of the list.
    pub fn new(alloc: Global, list: Vec<&'a str>) -> Result<Names<'a>, Memory>
        ensures { IfOk result (λ names. names ≡ map (λ n. n.now) list.entry.items) }
    {
        let numbers = first_numbers(alloc, &list)?;
        Ok(Names { list, numbers })
    }

    /// The number, from 0, of the first name of the list that is this one.
    pub fn first(&self, name: &str) -> Option<usize>
        ensures { result ≡ first_of self.now name.now }
    {
        self.numbers.get(name).copied()
    }
}
