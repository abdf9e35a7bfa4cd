ghost use Rattle.std.specs.Prelude.{◌≡◌};

/// How a run ended.
#[derive(Clone, Copy, Debug, PartialEq, Eq)]
pub enum Status {
    /// The output was written whole.
    Done,
    /// The words spell no command.
    Usage,
    /// The tree or the input is no file.
    Absent,
    /// A file could not be read.
    ReadFault,
    /// The output could not be written whole.
    WriteFault,
    /// The tree's bytes are no JSON text.
    TreeText,
    /// The tree is JSON, and breaks one of the rules F1 to F7.
    TreeForm,
    /// The input is an OBJ text with a line that breaks a rule.
    ObjText,
    /// The tree or the input is longer than its limit.
    TooLong,
    /// The tree is well formed, and one that the program does not evaluate yet.
    NotBuilt,
    /// There was no memory.
    Memory,
}

impl Status {
    ghost use Rattle.gn_app.specs.Status.{code_of};

    /// The exit status of the process: 0 where the output was written whole.
    pub fn code(&self) -> u8
        ensures { result ≡ code_of self.now }
    {
        match self {
            Status::Done => 0,
            Status::Usage => 2,
            Status::Absent => 3,
            Status::ReadFault => 4,
            Status::WriteFault => 5,
            Status::TreeText => 6,
            Status::TreeForm => 7,
            Status::ObjText => 8,
            Status::TooLong => 9,
            Status::Memory => 10,
            Status::NotBuilt => 11,
        }
    }
}
