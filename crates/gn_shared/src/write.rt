// `write` has a file of its own, since its clause names the row of `SharedArray`.
ghost use Rattle.std.specs.Prelude.{◌≡◌, ◌≢◌, ◌≤◌, IfOk, IfErr};
ghost use Rattle.std.specs.Borrow.{sem};
ghost use Rattle.gn_shared.specs.Arrays.{IsAlone, items_of};
ghost use Rattle.gn_shared.specs.Writing.{LendsItemsIfOk, LendsItems, LendsVec, LendsAlone};

use crate::array::{Hold, InUse, SharedArray};

impl<T> Hold<T> {
    fn alone_vec(&mut self) -> &mut Vec<T>
        requires { IsAlone self.old }
        ensures* writes_back { sem 𝓛 (LendsAlone T.row self.entry result) }
        ensures value { result.now.items ≡ items_of self.old }
    {
        match self {
            Hold::Alone(memory, _) => &mut memory.value,
            Hold::Counted(_) => unreachable!(),
            Hold::Gone => unreachable!(),
        }
    }
}

impl<T: Drop, const LIMIT: u64> SharedArray<T, LIMIT> {
    fn sole_vec(&mut self) -> &mut Vec<T>
        requires { self.old.parts ≡ LIMIT }
        ensures* writes_back { sem 𝓛 (LendsVec T.row LIMIT.row LIMIT self.entry result) }
        ensures value { result.now.items ≡ self.old.items }
    {
        self.hold.alone_vec()
    }

    /// The items of a handle that is sole, to write to.
    pub fn sole_items(&mut self) -> &mut [T]
        requires { self.old.parts ≡ LIMIT }
        ensures* writes_back { sem 𝓛 (LendsItems T.row LIMIT.row LIMIT self.entry result) }
        ensures value { result.now ≡ self.old.items }
    {
        self.sole_vec().as_mut_slice()
    }

    // The handle itself, sole where the number is 0, and else the users that it was refused for.
    fn claimed(&mut self) -> (&mut SharedArray<T, LIMIT>, u64)
        ensures same { result.0.ghost_name ≡ self.entry.ghost_name }
        ensures sole { result.1 ≡ 0 → (result.0.now.parts ≡ LIMIT) × (result.0.now.items ≡ self.old.items) × (result.0.now.block ≡ self.old.block) }
        ensures in_use { result.1 ≢ 0 → (2 ≤ result.1) × (self.old.parts ≢ LIMIT) × (result.0.now ≡ self.old) }
    {
        let users = match self.claim() {
            Ok(()) => 0,
            Err(refused) => refused.users,
        };
        (self, users)
    }

    /// The items, to write to. The handle is then sole.
    pub fn write(&mut self) -> Result<&mut [T], InUse>
        ensures* writes_back { sem 𝓛 (LendsItemsIfOk T.row LIMIT.row LIMIT self.entry result) }
        ensures ok { IfOk result (λ r. r.now ≡ self.old.items) }
        ensures in_use { IfErr result (λ e. (2 ≤ e.users) × (self.old.parts ≢ LIMIT)) }
    {
        let (me, users) = self.claimed();
        if users != 0 {
            return Err(InUse { users });
        }
        Ok(me.sole_items())
    }
}
