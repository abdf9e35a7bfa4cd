//! The program `geonodes`.
//!
//! It hands the real outside to the top call: the files of the current folder, standard output,
//! standard error and a meter of its own. All that is promised of a command is promised by
//! `gn_app`, on which it stands beside `gn_io` and `gn_shared`. Words of which one is no text are no
//! command; the line names the first word that fits none.
#![tactic(auto)]

ghost use Rattle.std.specs.Prelude.{◌≡◌, map, option_map, string_bytes};
ghost use Rattle.std.specs.Process.{exit_status};
ghost use Rattle.gn_app.specs.Ending.{no_memory, said_of};
ghost use Rattle.gn_app.specs.Run.{Between, Tells, outside_of, shelf_by, sink_by};
ghost use Rattle.gn_shared.specs.Count.{Count, nothing_noted};
ghost use Rattle.geonodes.specs.Runs.{IsRun, Runs};

mod words;

use crate::words::{Words, read_words};
use gn_app::{refuse_stray, refuse_unread, run};
use gn_io::{FolderShelf, OpenGate, Shelf, Sink, StdSink};
use gn_shared::Meter;
use std::alloc::Global;
use std::process::ExitCode;
use std::sync::Wait;
use std::thread::Threads;

/// What makes and spends the program's meter.
#[derive(Clone, Copy)]
struct Seal;

/// Runs the command that the texts spell, with a meter of its own, and returns its exit status.
fn run_texts<R, H, K, E>(
    rt: &R,
    alloc: Global,
    texts: &[String],
    shelf: &mut H,
    out: &mut K,
    err: &mut E,
) -> ExitCode
where
    R: Threads + Wait + Sync,
    H: Shelf,
    K: Sink,
    E: Sink,
    ensures { (noted : Count) × Between (outside_of (shelf_by H.holds H.asked H.missed H.faults H.misses) (sink_by K.held K.faults))
        (shelf.old, out.old, nothing_noted) (shelf.new, out.new, noted)
        (IsRun (map string_bytes texts.now) (exit_status result) (sink_by E.held E.faults err.old) (sink_by E.held E.faults err.new)) }
{
    let mut meter = Meter::new(Seal);
    let status = run(rt, alloc, texts, shelf, out, err, &OpenGate, &mut meter);
    let _ = meter.spend(Seal);
    ExitCode::from(status.code())
}

/// Runs the command that the words spell, if they spell one, and returns the exit status.
fn run_words<R, H, K, E>(
    rt: &R,
    alloc: Global,
    words: &Words,
    shelf: &mut H,
    out: &mut K,
    err: &mut E,
) -> ExitCode
where
    R: Threads + Wait + Sync,
    H: Shelf,
    K: Sink,
    E: Sink,
    ensures { (noted : Count) × Between (outside_of (shelf_by H.holds H.asked H.missed H.faults H.misses) (sink_by K.held K.faults))
        (shelf.old, out.old, nothing_noted) (shelf.new, out.new, noted)
        (Runs (map string_bytes words.now.texts.items) (option_map (λ word. word.items) words.now.stray) (exit_status result)
        (sink_by E.held E.faults err.old) (sink_by E.held E.faults err.new)) }
{
    match &words.stray {
        Some(stray) => ExitCode::from(refuse_stray(&words.texts, stray, err).code()),
        None => run_texts(rt, alloc, &words.texts, shelf, out, err),
    }
}

/// Reports that there is no memory for the words, and returns the exit status.
fn refuse_words<E: Sink>(err: &mut E) -> ExitCode
    ensures code { exit_status result ≡ 10 }
    ensures message { Tells (said_of no_memory) (sink_by E.held E.faults err.old) (sink_by E.held E.faults err.new) }
{
    ExitCode::from(refuse_unread(err).code())
}

fn main(rt: HostRuntime) -> ExitCode {
    let mut shelf = FolderShelf::new(&rt);
    let mut out = StdSink::new(rt.stdout());
    let mut err = StdSink::new(rt.stderr());
    match read_words(&rt, rt.alloc()) {
        Ok(words) => run_words(&rt, rt.alloc(), &words, &mut shelf, &mut out, &mut err),
        Err(_) => refuse_words(&mut err),
    }
}

#[cfg(test)]
mod tests;
