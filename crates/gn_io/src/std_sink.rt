ghost use Rattle.std.specs.Prelude.{◌≡◌, ◌≤◌, length, take, unwrap_or, None};
ghost use Rattle.std.specs.Io.KnownBytes.{Appends};
ghost use Rattle.gn_io.specs.StdSink.{faults_after, Writes};

use crate::sink::{Put, Sink};
use std::io::{ErrorKind, Write};
use std::marker::Model;

/// A sink over a writer of the standard library, as the standard output is.
///
/// It shows contracts nothing of what it passed on.
#[derive(Drop)]
pub struct StdSink<W> {
    to: W,
    faults: u64,
}

impl<W> Model for StdSink<W> {
    ghost use Rattle.gn_io.specs.StdSink.{CountedWriter};

    ghost Value = { CountedWriter W };

    ghost view = { λ s. record { to = s.to; faults = s.faults } };
}

impl<W: Write + Drop> StdSink<W> {
    /// A sink that writes to this writer and has counted no fault yet.
    pub fn new(to: W) -> StdSink<W>
        ensures { result ≡ record { to = to; faults = 0 } }
    {
        StdSink { to, faults: 0 }
    }
}

impl<W: Write + Drop> Sink for StdSink<W> {
    ghost held = { λ _. None };

    ghost faults = { λ s. s.faults };

    /// Writes the piece and flushes the writer, so that no byte of it stays in a buffer.
    ///
    /// A write that was interrupted is tried again. After `Failed`, `taken` is how many bytes the
    /// writer took. All of them are taken where only the flush failed.
    fn put(&mut self, bytes: &[u8]) -> Put
        ensures writes { Writes bytes.now result (W.contents self.old.to) (W.contents self.new.to) }
        ensures counted { self.new.faults ≡ faults_after self.old.faults result }
        ensures faults { self.old.faults ≤ self.new.faults }
    {
        let taken = write_until_fault(&mut self.to, bytes);
        if taken == bytes.len() && self.to.flush().is_ok() {
            return Put::All;
        }
        self.faults = self.faults.saturating_add(1);
        Put::Failed {
            taken: taken as u64,
        }
    }
}

/// Writes the bytes, and returns how many the writer took before the end or a fault.
fn write_until_fault<W: Write>(to: &mut W, bytes: &[u8]) -> usize
    ensures bound { result ≤ length bytes.now }
    ensures writes { Appends (W.contents to.old) (W.contents to.new) (take result bytes.now) }
{
    let mut taken = 0;
    for _ in 0..u64::MAX {
        if taken == bytes.len() {
            return taken;
        }
        let Some(more) = write_once(to, &bytes[taken..]) else {
            return taken;
        };
        taken += more;
    }
    taken
}

/// Writes once, and returns how many bytes the writer took, or `None` where it had a fault.
///
/// A write that was interrupted took none, and may be tried again. A writer that takes nothing of
/// bytes that are there has a fault.
fn write_once<W: Write>(to: &mut W, bytes: &[u8]) -> Option<usize>
    ensures bound { unwrap_or result 0 ≤ length bytes.now }
    ensures writes { Appends (W.contents to.old) (W.contents to.new) (take (unwrap_or result 0) bytes.now) }
{
    match to.write(bytes) {
        Ok(0) => None,
        Ok(taken) => Some(taken),
        Err(error) if error.kind() == ErrorKind::Interrupted => Some(0),
        Err(_) => None,
    }
}
