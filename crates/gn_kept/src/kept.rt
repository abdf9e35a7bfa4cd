ghost use Rattle.std.specs.Prelude.{◌≡◌, ◌≤◌, [], Some, None, IfOk, OnOk, OnErr, IfSome, IfNone, IsSomeAnd};
ghost use Rattle.gn_io.specs.Outside.{Rose};
ghost use Rattle.gn_kept.specs.Answers.{kept_for, said, with_answer, Asks, IsAgain, IsOfFile, Misses, OnAbsent, OnFailed};
ghost use Rattle.gn_kept.specs.Stored.{stored};

use gn_io::{Fetched, Shelf};
use gn_memory::Memory;
use gn_shared::{SharedArray, USERS};
use indexmap::IndexMap;
use std::alloc::Global;
use std::marker::Model;

/// The bytes of a file, which several handles share.
pub type Bytes = SharedArray<u8, USERS>;

/// What there is of a file that was asked for.
#[derive(Drop)]
pub enum Got {
    /// The file's bytes.
    Whole(Bytes),
    /// There is no file of that name.
    Absent,
    /// The file is longer than the limit.
    TooLong {
        /// A length above the limit, in bytes: the file's own where the shelf knows it.
        length: u64,
    },
    /// The file could not be read.
    Failed,
    /// There was no memory.
    Memory,
}

/// What is kept of a file.
#[derive(Drop)]
enum Answer {
    Whole(Bytes),
    Absent,
    TooLong { length: u64 },
}

/// Files that were asked for, by name.
#[derive(Drop)]
pub struct Kept {
    answers: IndexMap<String, Answer>,
}

impl Model for Kept {
    ghost use Rattle.std.specs.Prelude.{map};
    ghost use Rattle.gn_kept.specs.Answers.{Answers};
    ghost use Rattle.gn_kept.specs.Stored.{entry_of};

    ghost Value = { Answers };

    ghost view = { λ k. map entry_of k.answers.entries };
}

impl Kept {
    /// No files yet.
    pub fn new(alloc: Global) -> Kept
        ensures { result ≡ [] }
    {
        Kept {
            answers: IndexMap::new(alloc),
        }
    }

    /// The file of a name: what is kept for it, whatever the limit was and is, and else what the
    /// shelf answers, which is kept then unless it is `Failed` or `Memory`.
    ///
    /// `limit` is in bytes. `Memory` is want of memory alone, and may come at any time.
    pub fn get<H: Shelf>(&mut self, shelf: &mut H, name: &str, limit: u64) -> Got
        // What is kept is given again, and the shelf is not asked.
        ensures again { IfSome (kept_for self.old name.now) (λ answer. IsAgain answer result × (self.new ≡ self.old) × (shelf.new ≡ shelf.old)) }

        // Another name is asked for, and its answer is kept.
        ensures kept { IfNone (kept_for self.old name.now) (self.new ≡ with_answer name.now (said result) self.old) }
        ensures file { IfNone (kept_for self.old name.now) (IsOfFile (H.holds shelf.old) name.now limit result) }
        ensures asked { IfNone (kept_for self.old name.now) (Asks name.now result (H.asked shelf.old) (H.asked shelf.new)) }
        ensures missed { IfNone (kept_for self.old name.now) (Misses name.now result (H.missed shelf.old) (H.missed shelf.new)) }
        ensures absent { IfNone (kept_for self.old name.now) (OnAbsent result (Rose (H.misses shelf.old) (H.misses shelf.new))) }
        ensures failed { OnFailed result (Rose (H.faults shelf.old) (H.faults shelf.new)) }

        // What is true of the shelf after each call.
        ensures holds { H.holds shelf.new ≡ H.holds shelf.old }
        ensures faults { H.faults shelf.old ≤ H.faults shelf.new }
        ensures misses { H.misses shelf.old ≤ H.misses shelf.new }
    {
        match self.again(name) {
            Some(got) => got,
            None => self.ask(shelf, name, limit),
        }
    }

    /// What is kept for a name.
    fn again(&mut self, name: &str) -> Option<Got>
        ensures stays { self.new ≡ self.old }
        ensures is_new { IfNone result (kept_for self.old name.now ≡ None) }
        ensures again { IfSome result (λ got. IsSomeAnd (kept_for self.old name.now) (λ answer. IsAgain answer got)) }
    {
        let alloc = *self.answers.allocator();
        let answer = self.answers.get_mut(name)?;
        Some(answer.given(alloc))
    }

    /// Asks the shelf for a name for which nothing is kept, and keeps what it answers.
    fn ask<H: Shelf>(&mut self, shelf: &mut H, name: &str, limit: u64) -> Got
        requires is_new { kept_for self.old name.now ≡ None }
        ensures kept { self.new ≡ with_answer name.now (said result) self.old }
        ensures file { IsOfFile (H.holds shelf.old) name.now limit result }
        ensures asked { Asks name.now result (H.asked shelf.old) (H.asked shelf.new) }
        ensures missed { Misses name.now result (H.missed shelf.old) (H.missed shelf.new) }
        ensures absent { OnAbsent result (Rose (H.misses shelf.old) (H.misses shelf.new)) }
        ensures failed { OnFailed result (Rose (H.faults shelf.old) (H.faults shelf.new)) }
        ensures holds { H.holds shelf.new ≡ H.holds shelf.old }
        ensures faults { H.faults shelf.old ≤ H.faults shelf.new }
        ensures misses { H.misses shelf.old ≤ H.misses shelf.new }
    {
        let mut bytes = Vec::new(*self.answers.allocator());
        match shelf.fetch(name, limit, &mut bytes) {
            Fetched::Whole => match SharedArray::new(bytes) {
                Ok(bytes) => self.keep(name, Answer::Whole(bytes)),
                Err(_) => Got::Memory,
            },
            Fetched::Absent => self.keep(name, Answer::Absent),
            Fetched::TooLong { length } => self.keep(name, Answer::TooLong { length }),
            Fetched::Failed => Got::Failed,
            Fetched::Memory => Got::Memory,
        }
    }

    /// Gives an answer, and keeps it under a name for which nothing is kept.
    fn keep(&mut self, name: &str, mut answer: Answer) -> Got
        requires is_new { kept_for self.old name.now ≡ None }
        ensures given { IsAgain (stored answer) result }
        ensures kept { self.new ≡ with_answer name.now (said result) self.old }
    {
        match answer.given(*self.answers.allocator()) {
            Got::Memory => Got::Memory,
            got => match self.put(name, answer) {
                Ok(()) => got,
                Err(_) => Got::Memory,
            },
        }
    }

    /// Puts an answer under a name for which nothing is kept.
    fn put(&mut self, name: &str, answer: Answer) -> Result<(), Memory>
        requires is_new { kept_for self.old name.now ≡ None }
        ensures ok { OnOk result (self.new ≡ with_answer name.now (Some (stored answer)) self.old) }
        ensures refused { OnErr result (self.new ≡ self.old) }
    {
        let name = String::from_str(*self.answers.allocator(), name)?;
        self.answers.insert(name, answer)?;
        Ok(())
    }
}

impl Answer {
    /// The answer for one more call.
    fn given(&mut self, alloc: Global) -> Got
        ensures stays { stored self.new ≡ stored self.old }
        ensures given { IsAgain (stored self.old) result }
    {
        match self {
            Answer::Whole(bytes) => match second(alloc, bytes) {
                Ok(bytes) => Got::Whole(bytes),
                Err(_) => Got::Memory,
            },
            Answer::Absent => Got::Absent,
            Answer::TooLong { length } => Got::TooLong { length: *length },
        }
    }
}

/// One more handle on the same bytes: on the same block, or on a copy if this handle has one part
/// alone.
fn second(alloc: Global, bytes: &mut Bytes) -> Result<Bytes, Memory>
    ensures stays { bytes.new.items ≡ bytes.old.items }
    ensures twin { IfOk result (λ twin. twin.items ≡ bytes.old.items) }
{
    if let Ok(twin) = bytes.share() {
        return Ok(twin);
    }
    let mut copy = Vec::new(alloc);
    copy.extend_from_slice(bytes.items())?;
    match SharedArray::new(copy) {
        Ok(copy) => Ok(copy),
        Err(_) => Err(Memory),
    }
}
