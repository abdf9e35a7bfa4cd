use gn_memory::Memory;
use thiserror::Error;

/// Why a tree is not well formed.
#[derive(Debug, Drop, Error)]
pub enum CheckFault {
    /// The tree breaks the rule `F` with that number and none with a lesser one. The place is a JSON
    /// Pointer, the first at which the tree breaks that rule.
    #[error("F{rule} at {place}")]
    Form { place: String, rule: u8 },
    /// There was no memory.
    #[error("out of memory")]
    Memory,
}

impl From<Memory> for CheckFault {
    ghost use Rattle.std.specs.Prelude.{◌≡◌};
    ghost use Rattle.gn_check.specs.declared.fault.CheckFault.TheVariants.{Memory};

    ghost from_gives = { λ _ fault. fault ≡ Memory };

    fn from(_: Memory) -> Self {
        CheckFault::Memory
    }
}
