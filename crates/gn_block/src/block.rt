ghost use Rattle.std.specs.Prelude.{◌≡◌, ℕ};
ghost use Rattle.gn_block.specs.Whole.{loose_owns};

use crate::name::Name;
use crate::raw_box::RawBox;
use std::alloc::Global;
use std::marker::Model;

/// What lies in a block: the number of its handles, and the value that they share.
#[derive(Drop)]
pub struct Core<X> {
    pub users: u64,
    pub value: X,
}

/// A block with no handle, as its pointer.
pub struct Loose<X> {
    pub(crate) at: *mut Core<X>,
    pub ghost users: { ℕ },
    pub ghost value: { X },
    pub ghost block: { ℕ },
}

impl<X> Model for Loose<X> {
    ghost also_owns = { λ b. loose_owns X.row b.at b.users b.value b.block };
}

impl<X> Loose<X> {
    pub fn of(memory: RawBox<Core<X>, Global>, name: Name) -> Loose<X>
        ensures { (result.users ≡ memory.value.users) × (result.value ≡ memory.value.value) × (result.block ≡ name.block) }
    {
        let RawBox { at, alloc: _ } = memory;
        let Name {} = name;
        Loose { at }
    }

    pub fn into_parts(self, alloc: Global) -> (RawBox<Core<X>, Global>, Name)
        ensures { (result.0.value ≡ record { users = self.users; value = self.value }) × (result.1.block ≡ self.block) }
    {
        let Loose { at } = self;
        (RawBox { at, alloc }, Name {})
    }
}
