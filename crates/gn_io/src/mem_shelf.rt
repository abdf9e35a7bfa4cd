ghost use Rattle.std.specs.Prelude.{◌≡◌, ℕ, ◌+◌, nat_eq, List, [], length, map, Some, option_map, option_copied, string_bytes, vec_items};
ghost use Rattle.std.specs.BTreeMap.{get_by_text};
ghost use Rattle.gn_io.specs.MemShelf.{answer_of, answer_within, asked_of, AnswersAs, faults_of, file_of, GivesFile, missed_of, misses_of, Records};

use crate::shelf::{Fetched, Shelf};
use std::alloc::Global;
use std::collections::BTreeMap;
use std::marker::Model;

/// One call of a shelf in memory: the name that it asked for and the answer.
#[derive(Debug, Drop)]
pub struct Call {
    /// The name that was asked for.
    pub name: String,
    /// What the shelf answered.
    pub answer: Fetched,
}

/// A shelf over files in memory.
///
/// Its calls are numbered from 1, and it keeps a record of them. A call whose number is in the
/// first list fails. Another whose number is in the second list, or whose name no file has, finds
/// nothing. A call for which the record finds no memory has no number.
#[derive(Drop)]
pub struct MemShelf {
    files: BTreeMap<String, Vec<u8>>,
    fail: Vec<u64>,
    miss: Vec<u64>,
    calls: Vec<Call>,
}

impl Model for MemShelf {
    ghost use Rattle.std.specs.Prelude.{map, string_bytes, vec_items};
    ghost use Rattle.gn_io.specs.MemShelf.{StoredFiles};

    ghost Value = { StoredFiles };

    ghost view = { λ s. record {
      files = map (λ entry. (string_bytes entry.0, vec_items entry.1)) s.files.entries;
      fail = s.fail.items;
      miss = s.miss.items;
      calls = map (λ call. (string_bytes call.name, call.answer)) s.calls.items;
    } };
}

impl MemShelf {
    /// A shelf that holds these files and was asked for nothing yet.
    pub fn new(
        alloc: Global,
        files: BTreeMap<String, Vec<u8>>,
        fail: Vec<u64>,
        miss: Vec<u64>,
    ) -> MemShelf
        ensures files { (name : List ℕ) → file_of result name ≡ option_map vec_items (get_by_text files name) }
        ensures fail { result.fail ≡ fail.items }
        ensures miss { result.miss ≡ miss.items }
        ensures calls { result.calls ≡ [] }
    {
        MemShelf {
            files,
            fail,
            miss,
            calls: Vec::new(alloc),
        }
    }

    /// The calls so far, in order.
    pub fn calls(&self) -> &[Call]
        ensures { map (λ call. (string_bytes call.name, call.answer)) result.now ≡ self.now.calls }
    {
        self.calls.as_slice()
    }

    /// The number of the next call.
    fn next_number(&self) -> u64
        ensures { result ≡ length self.now.calls + 1 }
    {
        self.calls.len() as u64 + 1
    }

    /// The file of that name, if there is one.
    fn file(&self, name: &str) -> Option<&Vec<u8>>
        ensures { option_map vec_items (option_copied result) ≡ file_of self.now name.now }
    {
        self.files.get(name)
    }

    /// Puts a file's bytes into the empty `into` as the next call must.
    fn serve(&self, name: &str, limit: u64, into: &mut Vec<u8>) -> Fetched
        requires { into.old.items ≡ [] }
        ensures answer { AnswersAs (answer_of self.now name.now limit) result }
        ensures bytes { GivesFile (file_of self.now name.now) result into.new.items }
    {
        let number = self.next_number();
        if self.fail.contains(&number) {
            return Fetched::Failed;
        }
        if self.miss.contains(&number) {
            return Fetched::Absent;
        }
        copy_within(self.file(name), limit, into)
    }
}

impl Shelf for MemShelf {
    ghost holds = { λ s. Some (file_of s) };

    ghost asked = { λ s. Some (asked_of s) };

    ghost missed = { λ s. Some (missed_of s) };

    ghost faults = { faults_of };

    ghost misses = { misses_of };

    /// Answers by the number of the call and by the files. It copies a file that it gives.
    fn fetch(&mut self, name: &str, limit: u64, into: &mut Vec<u8>) -> Fetched
        ensures answer { AnswersAs (answer_of self.old name.now limit) result }
        ensures bytes { GivesFile (file_of self.old name.now) result into.new.items }
        ensures recorded { Records self.old name.now result self.new }
    {
        into.clear();
        let Ok(copy) = String::from_str(*into.allocator(), name) else {
            return Fetched::Memory;
        };
        let answer = self.serve(name, limit, into);
        let call = Call { name: copy, answer };
        if self.calls.push(call).is_err() {
            into.clear();
            return Fetched::Memory;
        }
        answer
    }
}

/// Copies a file that is there and within the limit.
fn copy_within(file: Option<&Vec<u8>>, limit: u64, into: &mut Vec<u8>) -> Fetched
    requires { into.old.items ≡ [] }
    ensures answer { AnswersAs (answer_within limit (option_map vec_items (option_copied file.entry))) result }
    ensures bytes { GivesFile (option_map vec_items (option_copied file.entry)) result into.new.items }
{
    let Some(file) = file else {
        return Fetched::Absent;
    };
    let length = file.len() as u64;
    if length > limit {
        return Fetched::TooLong { length };
    }
    match into.extend_from_slice(file) {
        Ok(()) => Fetched::Whole,
        Err(_) => Fetched::Memory,
    }
}
