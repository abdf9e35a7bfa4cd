//! The names of columns.
ghost use Rattle.std.specs.Prelude.{◌≡◌, IfOk};
ghost use Rattle.gn_attr.specs.Names.{plain_name};

use gn_lazy::Path;
use gn_memory::Memory;
use std::alloc::Global;

/// The name of a column.
#[derive(Debug, PartialEq, Eq, Hash, Drop)]
pub enum Name {
    /// A text, under which trees name the column.
    Named(String),
    /// The path of the node that made the column, and the number of that node's output.
    Anonymous { path: Path, socket: u32 },
}

impl Name {
    /// The same name once more.
    pub fn second(&self, alloc: Global) -> Result<Name, Memory>
        ensures { IfOk result (λ name. plain_name name ≡ plain_name self.now) }
    {
        match self {
            Name::Named(text) => {
                let mut copy = String::new(alloc);
                copy.push_str(text.as_str())?;
                Ok(Name::Named(copy))
            }
            Name::Anonymous { path, socket } => {
                let mut steps = Vec::new(alloc);
                steps.extend_from_slice(&path.steps)?;
                Ok(Name::Anonymous {
                    path: Path { steps },
                    socket: *socket,
                })
            }
        }
    }
}
