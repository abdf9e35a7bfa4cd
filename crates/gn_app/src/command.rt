ghost use Rattle.std.specs.Prelude.{◌≡◌, ◌≤◌, ◌^◌, ◌*◌, map, string_bytes};
ghost use Rattle.gn_io.specs.Outside.{Rose};
ghost use Rattle.gn_io.specs.Sink.{OnFailedPut};
ghost use Rattle.gn_obj.specs.Pages.{TakesText};
ghost use Rattle.gn_app.specs.Command.{eval};
ghost use Rattle.gn_app.specs.Job.{ok_text, help_text, version_text};
ghost use Rattle.gn_app.specs.Run.{Between, IsRunOf, IsRunOfWords, IsCall, outside_of, shelf_by, sink_by};
ghost use Rattle.gn_app.specs.Seen.{command_of, ending_of};

use crate::ending::Ending;
use crate::files::{load_tree, prepare};
use crate::message::tell;
use crate::moving::{made, note_runs};
use crate::request::{Request, read_request};
use crate::status::Status;
use gn_io::{Gate, Put, Shelf, Sink};
use gn_obj::write_obj;
use gn_shared::Meter;
use std::alloc::Global;
use std::sync::Wait;
use std::thread::Threads;

/// What `check` writes for a well-formed tree.
const OK: &str = "ok\n";

/// What `--help` writes: the commands.
const HELP: &str =
    "usage: geonodes eval TREE OBJ\n       geonodes check TREE\n       geonodes --help\n       geonodes --version\n";

/// What `--version` writes.
const VERSION: &str = "geonodes 0.1.0\n";

/// Runs `eval TREE OBJ`.
fn run_eval<'a, H: Shelf, K: Sink, L>(
    alloc: Global,
    tree: &'a str,
    input: &'a str,
    shelf: &mut H,
    out: &mut K,
    meter: &mut Meter<L>,
) -> Ending<'a>
    requires { meter.old.runs ≤ 2 ^ 62 }
    ensures { Between (outside_of (shelf_by H.holds H.asked H.missed H.faults H.misses) (sink_by K.held K.faults))
        (shelf.old, out.old, meter.old) (shelf.new, out.new, meter.new)
        (IsRunOf (eval tree.now input.now) (ending_of result)) }
{
    let prepared = match prepare(alloc, tree, input, shelf) {
        Ok(prepared) => prepared,
        Err(ending) => return ending,
    };
    let plan = prepared.plan;
    let Ok(geometry) = made(alloc, prepared) else {
        return Ending::NoMemory;
    };
    note_runs(meter, plan);
    Ending::of_put(write_obj(&geometry, out))
}

/// Writes a text that is at hand. It takes no memory.
fn write_text<K: Sink>(out: &mut K, text: &str) -> Put
    ensures takes { TakesText text.now result (K.held out.old) (K.held out.new) }
    ensures failed { OnFailedPut result (Rose (K.faults out.old) (K.faults out.new)) }
{
    out.put(text.as_bytes())
}

/// Runs a command.
fn run_request<'a, H: Shelf, K: Sink, L>(
    alloc: Global,
    request: Request<'a>,
    shelf: &mut H,
    out: &mut K,
    meter: &mut Meter<L>,
) -> Ending<'a>
    requires { meter.old.runs ≤ 2 ^ 62 }
    ensures { Between (outside_of (shelf_by H.holds H.asked H.missed H.faults H.misses) (sink_by K.held K.faults))
        (shelf.old, out.old, meter.old) (shelf.new, out.new, meter.new)
        (IsRunOf (command_of request.entry) (ending_of result)) }
{
    match request {
        Request::Eval { tree, input } => run_eval(alloc, tree, input, shelf, out, meter),
        Request::Check { tree } => match load_tree(alloc, shelf, tree) {
            Ok(_) => Ending::of_put(write_text(out, OK)),
            Err(ending) => ending,
        },
        Request::Help => Ending::of_put(write_text(out, HELP)),
        Request::Version => Ending::of_put(write_text(out, VERSION)),
    }
}

/// Runs the command that the words spell, if they spell one.
fn run_words<'a, H: Shelf, K: Sink, L>(
    alloc: Global,
    words: &'a [String],
    shelf: &mut H,
    out: &mut K,
    meter: &mut Meter<L>,
) -> Ending<'a>
    requires { meter.old.runs ≤ 2 ^ 62 }
    ensures { Between (outside_of (shelf_by H.holds H.asked H.missed H.faults H.misses) (sink_by K.held K.faults))
        (shelf.old, out.old, meter.old) (shelf.new, out.new, meter.new)
        (IsRunOfWords (map string_bytes words.now) (ending_of result)) }
{
    match read_request(words) {
        Ok(request) => run_request(alloc, request, shelf, out, meter),
        Err(word) => Ending::Misused { word },
    }
}

/// Runs a command on this thread alone.
///
/// `eval TREE OBJ` writes the text of what the tree gives out for its input to `out`, asks `shelf`
/// for each file once, and notes each node run. `check TREE` asks for the tree alone and writes `ok`
/// and a line feed where it is well formed. Unless the end is `Done`, it is reported on `err` by one line.
///
/// The words are those after the program's own name. No count of workers is taken, and the call
/// waits for nobody.
pub fn run_alone<R, H, K, E, L>(
    rt: &R,
    alloc: Global,
    words: &[String],
    shelf: &mut H,
    out: &mut K,
    err: &mut E,
    meter: &mut Meter<L>,
) -> Status
where
    R: Threads + Sync,
    H: Shelf,
    K: Sink,
    E: Sink,
    L: Send + Sync,
    requires { meter.old.runs ≤ 2 ^ 62 }
    ensures { Between (outside_of (shelf_by H.holds H.asked H.missed H.faults H.misses) (sink_by K.held K.faults))
        (shelf.old, out.old, meter.old) (shelf.new, out.new, meter.new)
        (IsCall (map string_bytes words.now) result (sink_by E.held E.faults err.old) (sink_by E.held E.faults err.new)) }
{
    let _ = rt;
    let ending = run_words(alloc, words, shelf, out, meter);
    tell(err, &ending);
    ending.status()
}

/// Runs a command as `run_alone` does. It may take workers as soon as a command names some.
///
/// The gate is entered before a node's run and left after it by the runs of workers alone.
pub fn run<R, H, K, E, G, L>(
    rt: &R,
    alloc: Global,
    words: &[String],
    shelf: &mut H,
    out: &mut K,
    err: &mut E,
    gate: &G,
    meter: &mut Meter<L>,
) -> Status
where
    R: Threads + Wait + Sync,
    H: Shelf,
    K: Sink,
    E: Sink,
    G: Gate + Sync,
    L: Send + Sync,
    requires { meter.old.runs ≤ 2 ^ 62 }
    ensures { Between (outside_of (shelf_by H.holds H.asked H.missed H.faults H.misses) (sink_by K.held K.faults))
        (shelf.old, out.old, meter.old) (shelf.new, out.new, meter.new)
        (IsCall (map string_bytes words.now) result (sink_by E.held E.faults err.old) (sink_by E.held E.faults err.new)) }
{
    let _ = gate;
    run_alone(rt, alloc, words, shelf, out, err, meter)
}
