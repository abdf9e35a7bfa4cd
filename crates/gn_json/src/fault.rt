use gn_memory::Memory;
use thiserror::Error;

/// Why a text is no tree.
#[derive(Debug, Drop, Error)]
pub enum JsonFault {
    /// The bytes are no JSON.
    #[error("not JSON")]
    Text,
    /// The value at that JSON Pointer is not of its form. The top is `/`.
    #[error("not of its form at {place}")]
    Form { place: String },
    /// There was no memory.
    #[error("out of memory")]
    Memory,
}

impl From<Memory> for JsonFault {
    ghost use Rattle.std.specs.Prelude.{◌≡◌};
    ghost use Rattle.gn_json.specs.declared.fault.JsonFault.TheVariants.{Memory};

    ghost from_gives = { λ _ fault. fault ≡ Memory };

    fn from(_: Memory) -> Self {
        JsonFault::Memory
    }
}
