ghost use Rattle.std.specs.Prelude.{◌≡◌, ◌≤◌, [], min, Some, unwrap_or, IfOk};
ghost use Rattle.gn_io.specs.MemSink.{after_put, most_at, put_answer};

use crate::sink::{Put, Sink};
use gn_memory::Memory;
use std::alloc::Global;
use std::marker::Model;

/// A sink into memory that was taken beforehand.
///
/// Its calls are numbered from 1, and the number stops at 2^64 - 1. A call fails where its number
/// is in the list, beside the most that it takes; the first entry of a number counts. Another
/// call fails where its piece is longer than the room that is left, and takes what fits.
#[derive(Drop)]
pub struct MemSink {
    fail: Vec<(u64, u64)>,
    room: usize,
    held: Vec<u8>,
    calls: u64,
    faults: u64,
}

impl Model for MemSink {
    ghost use Rattle.std.specs.Prelude.{◌≤◌, vec_len, vec_capacity};
    ghost use Rattle.gn_io.specs.MemSink.{StoredBytes};

    ghost Value = { StoredBytes };

    ghost view = { λ s. record {
      fail = s.fail.items;
      room = s.room;
      held = s.held.items;
      calls = s.calls;
      faults = s.faults;
    } };

    ghost invariant = { λ s. (vec_len s.held ≤ s.room) × (s.room ≤ vec_capacity s.held) };
}

impl MemSink {
    /// An empty sink with memory for `room` bytes, or the answer that there was none.
    pub fn new(alloc: Global, fail: Vec<(u64, u64)>, room: usize) -> Result<MemSink, Memory>
        ensures { IfOk result (λ s. s ≡ record { fail = fail.items; room = room; held = []; calls = 0; faults = 0 }) }
    {
        let held = Vec::with_capacity(alloc, room)?;
        Ok(MemSink {
            fail,
            room,
            held,
            calls: 0,
            faults: 0,
        })
    }

    /// The bytes that it holds.
    pub fn held(&self) -> &[u8]
        ensures { result.now ≡ self.now.held }
    {
        self.held.as_slice()
    }
}

impl Sink for MemSink {
    ghost held = { λ s. Some s.held };

    ghost faults = { λ s. s.faults };

    /// Answers by the number of the call and by the room that is left. It takes no memory.
    fn put(&mut self, bytes: &[u8]) -> Put
        ensures answer { result ≡ put_answer self.old bytes.now }
        ensures after { self.new ≡ after_put self.old bytes.now }
        ensures faults { self.old.faults ≤ self.new.faults }
    {
        let call = self.calls.saturating_add(1);
        let most = most_at(self.fail.as_slice(), call);
        let room = self.room - self.held.len();
        let taken = bounded(most, bytes.len(), room);
        self.calls = call;
        let Ok(()) = self.held.extend_from_slice(&bytes[..taken]) else {
            unreachable!();
        };
        if most.is_some() || taken < bytes.len() {
            self.faults = self.faults.saturating_add(1);
            return Put::Failed {
                taken: taken as u64,
            };
        }
        Put::All
    }
}

/// The most that a call takes, by the first entry of its number.
fn most_at(fail: &[(u64, u64)], call: u64) -> Option<u64>
    ensures { result ≡ most_at fail.now call }
{
    let entry = fail.iter().find(|entry| entry.0 == call)?;
    Some(entry.1)
}

/// The least of the two lengths and of the number, if there is one.
fn bounded(most: Option<u64>, length: usize, room: usize) -> usize
    ensures { result ≡ min (min (unwrap_or most length) length) room }
{
    let most = most.unwrap_or(length as u64);
    most.min(length as u64).min(room as u64) as usize
}
