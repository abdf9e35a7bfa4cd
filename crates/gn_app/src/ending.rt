ghost use Rattle.std.specs.Prelude.{◌≡◌};
ghost use Rattle.gn_app.specs.Ending.{status_of};
ghost use Rattle.gn_app.specs.Seen.{ending_of, put_ending};

use crate::status::Status;
use gn_io::Put;

/// How a run ended, with what its message says.
#[derive(Drop)]
pub(crate) enum Ending<'a> {
    Done,
    /// The first word that fits no command, or none where more words are expected.
    Misused { word: Option<&'a str> },
    NoFile { name: &'a str },
    Unreadable { name: &'a str },
    /// How many bytes the output took, or 2^64 - 1 where these are more.
    Unwritable { taken: u64 },
    /// The bytes of the tree are no JSON text.
    NoJson,
    /// The least rule of F1 to F7 that the tree breaks, and the first place where it does, as a JSON
    /// Pointer.
    Misformed { place: String, rule: u8 },
    /// The first line of the input that breaks a rule, and the least rule that it breaks.
    BadLine { line: u64, rule: u8 },
    Overlong { name: &'a str, length: u64 },
    NotBuilt,
    NoMemory,
}

impl<'a> Ending<'a> {
    /// How a run ended whose output was put so.
    pub(crate) fn of_put(put: Put) -> Ending<'a>
        ensures { ending_of result ≡ put_ending put }
    {
        match put {
            Put::All => Ending::Done,
            Put::Failed { taken } => Ending::Unwritable { taken },
        }
    }

    /// The status of a run that ended so.
    pub(crate) fn status(&self) -> Status
        ensures { result ≡ status_of (ending_of self.now) }
    {
        match self {
            Ending::Done => Status::Done,
            Ending::Misused { .. } => Status::Usage,
            Ending::NoFile { .. } => Status::Absent,
            Ending::Unreadable { .. } => Status::ReadFault,
            Ending::Unwritable { .. } => Status::WriteFault,
            Ending::NoJson => Status::TreeText,
            Ending::Misformed { .. } => Status::TreeForm,
            Ending::BadLine { .. } => Status::ObjText,
            Ending::Overlong { .. } => Status::TooLong,
            Ending::NotBuilt => Status::NotBuilt,
            Ending::NoMemory => Status::Memory,
        }
    }
}
