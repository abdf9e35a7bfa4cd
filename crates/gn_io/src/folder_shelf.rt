ghost use Rattle.std.specs.Prelude.{◌≡◌, ◌≤◌, None, ℕ, [], length, IfOk, IfSome};
ghost use Rattle.gn_io.specs.FolderShelf.{counted, IsOnePast, IsWholeOrLong, Reads};
ghost use Rattle.gn_io.specs.Shelf.{Serves};

use crate::shelf::{Fetched, Shelf};
use std::fs::{File, OpenFile};
use std::io;
use std::io::{ErrorKind, Read};
use std::marker::Model;
use std::rt::Files;

/// A shelf over the files below the current folder.
///
/// It shows contracts nothing of what they hold. A name that no file has is `Absent`. A folder, a
/// path through a file and every other fault of the system are `Failed`.
#[derive(Drop)]
pub struct FolderShelf<'a, R> {
    rt: &'a R,
    faults: u64,
    misses: u64,
}

impl<'a, R> Model for FolderShelf<'a, R> {
    ghost use Rattle.gn_io.specs.FolderShelf.{FileCounts};

    ghost Value = { FileCounts };

    ghost view = { λ s. record { faults = s.faults; misses = s.misses } };
}

impl<'a, R: Files> FolderShelf<'a, R> {
    /// A shelf that reads files by this runtime and has counted nothing yet.
    pub fn new(rt: &'a R) -> FolderShelf<'a, R>
        ensures { result ≡ record { faults = 0; misses = 0 } }
    {
        FolderShelf {
            rt,
            faults: 0,
            misses: 0,
        }
    }
}

impl<R: Files> Shelf for FolderShelf<'_, R> {
    ghost holds = { λ _. None };

    ghost asked = { λ _. None };

    ghost missed = { λ _. None };

    ghost faults = { λ s. s.faults };

    ghost misses = { λ s. s.misses };

    /// Reads the file, and of one that is longer than the limit the first `limit` bytes and one.
    fn fetch(&mut self, name: &str, limit: u64, into: &mut Vec<u8>) -> Fetched
        ensures serves { Serves None name.now limit into.new.items result }
        ensures one_past { IsOnePast limit result }
        ensures counted { self.new ≡ counted self.old result }
        ensures faults { self.old.faults ≤ self.new.faults }
        ensures misses { self.old.misses ≤ self.new.misses }
    {
        into.clear();
        let error = match read_file(self.rt, name, limit, into) {
            Ok(answer) => return answer,
            Err(error) => error,
        };
        into.clear();
        match error.kind() {
            ErrorKind::OutOfMemory => Fetched::Memory,
            ErrorKind::NotFound => {
                self.misses = self.misses.saturating_add(1);
                Fetched::Absent
            }
            _ => {
                self.faults = self.faults.saturating_add(1);
                Fetched::Failed
            }
        }
    }
}

/// Reads the file into the empty `into`.
fn read_file<R: Files>(rt: &R, name: &str, limit: u64, into: &mut Vec<u8>) -> io::Result<Fetched>
    requires { into.old.items ≡ [] }
    ensures serves { IfOk result (λ answer. Serves None name.now limit into.new.items answer) }
    ensures one_past { IfOk result (IsOnePast limit) }
    ensures answer { IfOk result IsWholeOrLong }
{
    let file = File::open(rt, name)?;
    // one byte more than the file has, so that the end is found with no further room
    let length = file.metadata()?.len().min(limit.saturating_add(1)) as usize;
    into.reserve_exact(length.saturating_add(1))?;
    read_within(file, limit, into)
}

/// Reads what the reader has left into the empty `into` where it is at most `limit` bytes, and no more
/// than one byte past the limit.
///
/// A fault of the reader is an `Err`, whatever was read before it.
#[tactic(auto, using(crate::proofs::Fronts::short_front))]
fn read_within<R: Read + Drop>(reader: R, limit: u64, into: &mut Vec<u8>) -> io::Result<Fetched>
    requires { into.old.items ≡ [] }
    ensures read { IfOk result (λ answer. IfSome (R.remaining reader) (λ bytes. Reads limit bytes answer into.new.items)) }
    ensures serves { IfOk result (λ answer. Serves None [] limit into.new.items answer) }
    ensures one_past { IfOk result (IsOnePast limit) }
    ensures answer { IfOk result IsWholeOrLong }
{
    reader.take(limit.saturating_add(1)).read_to_end(into)?;
    if into.len() as u64 <= limit {
        return Ok(Fetched::Whole);
    }
    into.clear();
    Ok(Fetched::TooLong { length: limit + 1 })
}
