ghost use Rattle.std.specs.Prelude.{◌≡◌, ◌≤◌, ◌++◌, flat_map};
ghost use Rattle.gn_io.specs.Outside.{Rose};
ghost use Rattle.std.specs.Prelude.{Some};
ghost use Rattle.gn_app.specs.Ending.{misformed, bad_line, misused, no_memory, said_of};
ghost use Rattle.gn_app.specs.Outcome.{Says};
ghost use Rattle.gn_app.specs.Run.{Tells, sink_by};
ghost use Rattle.gn_app.specs.Seen.{ending_of};

use crate::ending::Ending;
use gn_io::{Put, Sink};
use itoa::Buffer;

/// Puts the pieces one behind the other, as far as none fails. It takes no memory.
fn put_pieces<E: Sink>(err: &mut E, pieces: &[&str])
    ensures { Says (flat_map (λ p. p.now) pieces.now) (E.held err.old) (E.held err.new) (Rose (E.faults err.old) (E.faults err.new)) }
{
    for piece in pieces {
        match err.put(piece.as_bytes()) {
            Put::All => {}
            Put::Failed { .. } => return,
        }
    }
}

/// Writes the line that tells which line of an input is bad, and by which rule.
fn tell_bad_line<E: Sink>(err: &mut E, line: u64, rule: u8)
    ensures { Tells (said_of (bad_line line rule)) (sink_by E.held E.faults err.old) (sink_by E.held E.faults err.new) }
{
    let mut line_buffer = Buffer::new();
    let mut rule_buffer = Buffer::new();
    let line = line_buffer.format(line);
    let rule = rule_buffer.format(rule);
    put_pieces(err, &["geonodes: obj text: line ", line, ": O", rule, "\n"])
}

/// Writes the line that tells which rule a tree breaks, and where.
fn tell_misform<E: Sink>(err: &mut E, place: &str, rule: u8)
    ensures { Tells (said_of (misformed rule place.now)) (sink_by E.held E.faults err.old) (sink_by E.held E.faults err.new) }
{
    let mut buffer = Buffer::new();
    let rule = buffer.format(rule);
    put_pieces(err, &["geonodes: tree form: F", rule, " at ", place, "\n"])
}

/// Writes the line of an end, and nothing where the run is done. It takes no memory.
pub(crate) fn tell<E: Sink>(err: &mut E, ending: &Ending<'_>)
    ensures { Tells (said_of (ending_of ending.now)) (sink_by E.held E.faults err.old) (sink_by E.held E.faults err.new) }
{
    match ending {
        Ending::Done => {}
        Ending::Misused { word: Some(word) } => tell_stray(err, word.as_bytes()),
        Ending::Misused { word: None } => put_pieces(
            err,
            &["geonodes: usage: more words expected\n"],
        ),
        Ending::NoFile { name } => put_pieces(err, &["geonodes: absent: ", name, "\n"]),
        Ending::Unreadable { name } => put_pieces(err, &["geonodes: read fault: ", name, "\n"]),
        Ending::Unwritable { taken } => {
            let mut buffer = Buffer::new();
            put_pieces(
                err,
                &[
                    "geonodes: write fault after ",
                    buffer.format(*taken),
                    " bytes\n",
                ],
            )
        }
        Ending::NoJson => put_pieces(err, &["geonodes: tree text\n"]),
        Ending::Misformed { place, rule } => tell_misform(err, place.as_str(), *rule),
        Ending::BadLine { line, rule } => tell_bad_line(err, *line, *rule),
        Ending::Overlong { name, length } => {
            let mut buffer = Buffer::new();
            put_pieces(
                err,
                &[
                    "geonodes: too long: ",
                    name,
                    ": ",
                    buffer.format(*length),
                    "\n",
                ],
            )
        }
        Ending::NotBuilt => put_pieces(err, &["geonodes: not built\n"]),
        Ending::NoMemory => put_pieces(err, &["geonodes: out of memory\n"]),
    }
}

/// Writes the line of a word that fits no command, as it came: it need not be a text. It takes no memory.
pub(crate) fn tell_stray<E: Sink>(err: &mut E, word: &[u8])
    ensures { Tells (said_of (misused (Some word.now))) (sink_by E.held E.faults err.old) (sink_by E.held E.faults err.new) }
{
    let Put::All = err.put("geonodes: usage: unexpected ".as_bytes()) else {
        return;
    };
    let Put::All = err.put(word) else {
        return;
    };
    let _ = err.put("\n".as_bytes());
}
