use crate::rule::Rule;
use gn_memory::Memory;
use std::alloc::{AllocError, AllocFailed};
use thiserror::Error;

/// Why no mesh was read.
#[derive(Clone, Copy, Debug, PartialEq, Eq, Error)]
pub enum ObjFault {
    /// The line of that number, from 1, is the first bad one, and that is the least of the rules O1
    /// to O5 that it breaks.
    #[error("line {line}: O{rule}")]
    Bad { line: u64, rule: u8 },
    /// There was no memory for the mesh.
    #[error("out of memory")]
    Memory,
}

impl From<Memory> for ObjFault {
    ghost use Rattle.std.specs.Prelude.{◌≡◌};
    ghost use Rattle.gn_elements.specs.declared.fault.ObjFault.TheVariants.{Memory};

    ghost from_gives = { λ _ fault. fault ≡ Memory };

    fn from(_: Memory) -> Self {
        ObjFault::Memory
    }
}

/// Why a line adds nothing.
#[derive(Clone, Copy)]
pub(crate) enum LineFault {
    /// The line breaks that rule.
    Broken(Rule),
    /// There was no memory for what it adds.
    Memory,
}

impl From<Rule> for LineFault {
    ghost use Rattle.std.specs.Prelude.{◌≡◌};
    ghost use Rattle.gn_elements.specs.declared.fault.LineFault.TheVariants.{Broken};

    ghost from_gives = { λ rule fault. fault ≡ Broken rule };

    fn from(rule: Rule) -> Self {
        LineFault::Broken(rule)
    }
}

impl From<Memory> for LineFault {
    ghost use Rattle.std.specs.Prelude.{◌≡◌};
    ghost use Rattle.gn_elements.specs.declared.fault.LineFault.TheVariants.{Memory};

    ghost from_gives = { λ _ fault. fault ≡ Memory };

    fn from(_: Memory) -> Self {
        LineFault::Memory
    }
}

impl From<AllocError> for LineFault {
    ghost use Rattle.std.specs.Prelude.{◌≡◌};
    ghost use Rattle.gn_elements.specs.declared.fault.LineFault.TheVariants.{Memory};

    ghost from_gives = { λ _ fault. fault ≡ Memory };

    fn from(_: AllocError) -> Self {
        LineFault::Memory
    }
}

impl<T: Drop> From<AllocFailed<T>> for LineFault {
    ghost use Rattle.std.specs.Prelude.{◌≡◌};
    ghost use Rattle.gn_elements.specs.declared.fault.LineFault.TheVariants.{Memory};

    ghost from_gives = { λ _ fault. fault ≡ Memory };

    fn from(_: AllocFailed<T>) -> Self {
        LineFault::Memory
    }
}
