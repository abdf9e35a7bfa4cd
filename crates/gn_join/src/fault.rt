//! Why no geometry is made of others.
use gn_memory::Memory;
use gn_value::Place;
use thiserror::Error;

/// Why no geometry was made of others.
#[derive(Clone, Copy, Debug, PartialEq, Eq, Error)]
pub enum SizeFault {
    /// A place would have more than 2^23 elements. It is the first such place in the order of `Place`.
    #[error("too many elements: {elements}")]
    Limit {
        place: Place,
        /// How many it would have, or 2^64 - 1 where that is less.
        elements: u64,
    },
    /// There was no memory for it.
    #[error("out of memory")]
    Memory,
}

impl From<Memory> for SizeFault {
    ghost use Rattle.std.specs.Prelude.{◌≡◌};
    ghost use Rattle.gn_join.specs.declared.fault.SizeFault.TheVariants.{Memory};

    ghost from_gives = { λ _ fault. fault ≡ Memory };

    fn from(_: Memory) -> Self {
        SizeFault::Memory
    }
}
