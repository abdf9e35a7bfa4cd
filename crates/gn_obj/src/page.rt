ghost use Rattle.std.specs.Prelude.{◌≡◌, ◌<◌, ◌≤◌, ◌+◌, ◌^◌, ◌++◌, [], length};
ghost use Rattle.std.specs.Fmt.{decimal};
ghost use Rattle.gn_decimal.specs.Decimal.{dec};
ghost use Rattle.gn_io.specs.Outside.{stopped};
ghost use Rattle.gn_obj.specs.Pages.{PageBytes, Written, with_text};

use gn_decimal::{write_number, write_whole};
use gn_io::{Put, Sink};
use gn_value::Fx;
use std::marker::Model;

/// The room of a page, in bytes.
pub(crate) const ROOM: usize = 16384;

/// The room that any piece of a line needs, in bytes.
pub(crate) const PIECE: usize = 128;

/// The output could not take all bytes.
#[derive(Clone, Copy, Debug, PartialEq, Eq)]
pub(crate) struct Unwritten;

/// Bytes that wait to be handed on in one piece, and how many were handed on before them. The page
/// is on the stack. Contracts see a `PageBytes`.
#[derive(Drop)]
pub(crate) struct Page {
    bytes: [u8; ROOM],
    len: usize,
    sent: u64,
}

impl Model for Page {
    ghost use Rattle.std.specs.Prelude.{◌≤◌, take};
    ghost use Rattle.gn_obj.specs.Pages.{PageBytes};

    ghost Value = { PageBytes };

    ghost view = { λ p. record { waiting = take p.len p.bytes; sent = p.sent } };

    ghost invariant = { λ p. p.len ≤ 16384 };
}

impl Page {
    /// A page with nothing on it.
    pub(crate) fn new() -> Page
        ensures { result ≡ record { waiting = []; sent = 0 } }
    {
        Page {
            bytes: [0; ROOM],
            len: 0,
            sent: 0,
        }
    }

    /// How many bytes are on the page.
    #[inline(always)]
    fn len(&self) -> usize
        ensures count { result ≡ length self.now.waiting }
        ensures within { result ≤ 16384 }
    {
        self.len
    }

    /// How many bytes were handed on: a count that stops at 2^64 - 1.
    pub(crate) fn sent(&self) -> u64
        ensures { result ≡ self.now.sent }
    {
        self.sent
    }

    /// The bytes on the page.
    fn as_slice(&self) -> &[u8]
        ensures { result.now ≡ self.now.waiting }
    {
        &self.bytes[..self.len]
    }

    /// Takes all bytes off the page; `taken` of them were handed on.
    fn take_off(&mut self, taken: u64)
        ensures { self.new ≡ record { waiting = []; sent = stopped (self.old.sent + taken) } }
    {
        self.len = 0;
        self.sent = self.sent.saturating_add(taken);
    }

    /// Puts a text behind what is on the page.
    #[inline(always)]
    pub(crate) fn append(&mut self, text: &[u8])
        requires { length self.old.waiting + length text.now ≤ 16384 }
        ensures { self.new ≡ with_text self.old text.now }
    {
        let end = self.len + text.len();
        self.bytes[self.len..end].copy_from_slice(text);
        self.len = end;
    }

    /// Puts the text of a number behind what is on the page.
    #[inline(always)]
    pub(crate) fn append_number(&mut self, value: Fx)
        requires { length self.old.waiting + 24 ≤ 16384 }
        ensures text { self.new ≡ with_text self.old (dec value.0) }
        ensures room { length self.new.waiting ≤ length self.old.waiting + 22 }
    {
        self.len = write_number(value, &mut self.bytes, self.len);
    }

    /// Puts the digits of a whole number behind what is on the page.
    #[inline(always)]
    pub(crate) fn append_whole(&mut self, number: u64)
        requires small { number < 10 ^ 10 }
        requires room { length self.old.waiting + 10 ≤ 16384 }
        ensures text { self.new ≡ with_text self.old (decimal number) }
        ensures room { length self.new.waiting ≤ length self.old.waiting + 10 }
    {
        self.len = write_whole(number, &mut self.bytes, self.len);
    }
}

/// Hands the page on, and takes all bytes off it.
#[cold]
#[inline(never)]
pub(crate) fn flush<K: Sink>(out: &mut K, page: &mut Page) -> Result<(), Unwritten>
    ensures writes { Written [] K.held K.faults out.old out.new page.old page.new result }
    ensures empty { page.new.waiting ≡ [] }
{
    match out.put(page.as_slice()) {
        Put::All => {
            let len = page.len() as u64;
            page.take_off(len);
            Ok(())
        }
        Put::Failed { taken } => {
            page.take_off(taken);
            Err(Unwritten)
        }
    }
}

/// Makes room for a piece of a line on the page.
#[inline(always)]
pub(crate) fn make_room<K: Sink>(out: &mut K, page: &mut Page) -> Result<(), Unwritten>
    ensures writes { Written [] K.held K.faults out.old out.new page.old page.new result }
    ensures room { length page.new.waiting + 128 ≤ 16384 }
{
    if page.len() + PIECE <= ROOM {
        return Ok(());
    }
    flush(out, page)
}
