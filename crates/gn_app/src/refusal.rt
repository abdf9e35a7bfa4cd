ghost use Rattle.std.specs.Prelude.{◌≡◌, map, string_bytes};
ghost use Rattle.gn_app.specs.Ending.{no_memory, said_of};
ghost use Rattle.gn_app.specs.Run.{Tells, TellsStray, sink_by};
ghost use Rattle.gn_app.specs.declared.status.Status.TheVariants as statuses;

use crate::ending::Ending;
use crate::message::{tell, tell_stray};
use crate::request::read_request;
use crate::status::Status;
use gn_io::Sink;

/// Writes the line of words that are followed by a word that is no text.
fn tell_misfit<E: Sink>(words: &[String], stray: &[u8], err: &mut E)
    ensures { TellsStray (map string_bytes words.now) stray.now (sink_by E.held E.faults err.old) (sink_by E.held E.faults err.new) }
{
    match read_request(words) {
        Err(Some(word)) => tell(err, &Ending::Misused { word: Some(word) }),
        Err(None) => tell_stray(err, stray),
        Ok(_) => tell_stray(err, stray),
    }
}

/// Reports words that are followed by a word that is no text, so that they spell no command.
///
/// The line on `err` names the first of the words such that no command begins with the words up to it.
/// Where a command begins with all of them, it names the word that is no text, as it came.
pub fn refuse_stray<E: Sink>(words: &[String], stray: &[u8], err: &mut E) -> Status
    ensures status { result ≡ statuses.Usage }
    ensures message { TellsStray (map string_bytes words.now) stray.now (sink_by E.held E.faults err.old) (sink_by E.held E.faults err.new) }
{
    tell_misfit(words, stray, err);
    Status::Usage
}

/// Reports that there is no memory for the words.
pub fn refuse_unread<E: Sink>(err: &mut E) -> Status
    ensures status { result ≡ statuses.Memory }
    ensures message { Tells (said_of no_memory) (sink_by E.held E.faults err.old) (sink_by E.held E.faults err.new) }
{
    tell(err, &Ending::NoMemory);
    Status::Memory
}
