ghost use Rattle.std.specs.Prelude.{◌≡◌, ◌≢◌, ℕ};
ghost use Rattle.gn_block.specs.Names.{name_shares};
ghost use Rattle.counted_slot.specs.Counting.{idle};

use crate::counted::Counted;
use std::marker::Model;

/// The name of a block. It has no bytes, and whoever has it is the block's only handle.
#[derive(Drop)]
pub struct Name {
    pub ghost block: { ℕ },
}

impl Model for Name {
    ghost also_owns = { λ n. idle n.block };

    ghost also_shares = { λ n _ κ. name_shares n.block κ };
}

impl Name {
    /// A name that no block has yet.
    pub fn new() -> Name {
        Name {}
    }

    /// Beside a name that is owned there is no other one that is the same.
    pub fn beside(self, other: &Name) -> Name
        ensures { (result ≡ self) × (self.block ≢ other.now.block) }
    {
        let _ = other;
        self
    }

    /// And no handle that counts.
    pub fn beside_handle<X>(self, other: &Counted<X>) -> Name
        ensures { (result ≡ self) × (self.block ≢ other.now.block) }
    {
        let _ = other;
        self
    }
}

unsafe impl Send for Name {}

unsafe impl Sync for Name {}
