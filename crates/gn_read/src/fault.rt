use gn_memory::Memory;
use thiserror::Error;

/// Why a text is no well-formed tree.
#[derive(Debug, Drop, Error)]
pub enum TreeFault {
    /// The bytes are no JSON.
    #[error("not JSON")]
    Text,
    /// The rule with that number behind `F` is the least that the value breaks, and the place, a JSON
    /// Pointer, the first where it does.
    #[error("F{rule} at {place}")]
    Form { place: String, rule: u8 },
    /// There was no memory.
    #[error("out of memory")]
    Memory,
}

impl From<Memory> for TreeFault {
    ghost use Rattle.std.specs.Prelude.{◌≡◌};
    ghost use Rattle.gn_read.specs.declared.fault.TreeFault.TheVariants.{Memory};

    ghost from_gives = { λ _ fault. fault ≡ Memory };

    fn from(_: Memory) -> Self {
        TreeFault::Memory
    }
}
