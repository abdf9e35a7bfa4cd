ghost use Rattle.std.specs.Prelude.{◌≡◌, ◌≢◌, ℕ, ◌-◌, ◌/◌, ◌^◌, ◌<◌, ◌≤◌, max, OnOk, OnErr, IfOk, IfErr, MatchResult};
ghost use Rattle.gn_shared.specs.declared.array.Hold.TheVariants.{Alone, Counted, Gone};
ghost use Rattle.gn_shared.specs.Arrays.{items_of, block_of, Holds, IsCounted, IsAlone, IsLimit};

use gn_block::{Core, Counted, Loose, Name, RawBox};
use std::alloc::Global;
use std::marker::Model;
use std::mem;
use thiserror::Error;

/// The limit on parts that an array has where nothing else is wanted.
pub const USERS: u64 = 1 << 62;

/// There was no memory for the block. The items are handed back.
#[derive(Drop)]
pub struct NoRoom<T> {
    pub items: Vec<T>,
}

/// The handle has one part, and so cannot be shared again.
#[derive(Clone, Copy, Debug, PartialEq, Eq, Error)]
#[error("the handle has one part left")]
pub struct AtLimit;

/// The block had other handles, at the moment when they were counted.
#[derive(Clone, Copy, Debug, PartialEq, Eq, Error)]
#[error("the array has {users} users")]
pub struct InUse {
    pub users: u64,
}

pub(crate) enum Hold<T> {
    Alone(Box<Core<Vec<T>>>, Name),
    Counted(Counted<Vec<T>>),
    Gone,
}

/// A handle on an array that other handles may share.
pub struct SharedArray<T, const LIMIT: u64> {
    pub(crate) hold: Hold<T>,
    pub(crate) parts: u64,
    pub(crate) alloc: Global,
}

impl<T, const LIMIT: u64> Model for SharedArray<T, LIMIT> {
    ghost use Rattle.gn_shared.specs.Arrays.{ArrayView, items_of, block_of, Holds};

    ghost Value = { ArrayView T };

    ghost view = { λ s. record { items = items_of s.hold; parts = s.parts; block = block_of s.hold } };

    ghost invariant = { λ s. Holds LIMIT s.hold s.parts };
}

// Fills a place whose handle was taken out.
fn put<T>(place: &mut Hold<T>, hold: Hold<T>)
    requires { place.old ≡ Gone }
    ensures { place.new ≡ hold }
{
    match mem::replace(place, hold) {
        Hold::Gone => {}
        Hold::Alone(_memory, _name) => unreachable!(),
        Hold::Counted(_handle) => unreachable!(),
    }
}

// The handle as one that is counted.
fn counted<T: Drop>(hold: Hold<T>, limit: u64, parts: u64) -> Counted<Vec<T>>
    requires { Holds limit hold parts }
    ensures { (result.value.items ≡ items_of hold) × (result.block ≡ block_of hold) × (result.limit ≡ limit) × (result.parts ≡ parts) }
{
    let _ = parts;
    match hold {
        Hold::Alone(memory, name) => Counted::open(Loose::of(RawBox::of(memory), name), limit),
        Hold::Counted(handle) => handle,
        Hold::Gone => unreachable!(),
    }
}

// One look at the number of users.
fn look<T: Drop>(hold: Hold<T>, alloc: Global) -> Result<Hold<T>, (Hold<T>, u64)>
    requires { IsCounted hold }
    ensures { MatchResult result
        (λ h. IsAlone h × (items_of h ≡ items_of hold) × (block_of h ≡ block_of hold))
        (λ e. (e.0 ≡ hold) × (2 ≤ e.1)) }
{
    match hold {
        Hold::Counted(handle) => match handle.look() {
            Ok(block) => {
                let (memory, name) = block.into_parts(alloc);
                Ok(Hold::Alone(memory.into_box(), name))
            }
            Err((handle, users)) => Err((Hold::Counted(handle), users)),
        },
        Hold::Alone(_memory, _name) => unreachable!(),
        Hold::Gone => unreachable!(),
    }
}

impl<T: Drop, const LIMIT: u64> SharedArray<T, LIMIT> {
    /// An array of these items, with one handle.
    pub fn new(items: Vec<T>) -> Result<SharedArray<T, LIMIT>, NoRoom<T>>
        requires { IsLimit LIMIT }
        ensures sole { IfOk result (λ a. (a.items ≡ items.items) × (a.parts ≡ LIMIT)) }
        ensures no_room { IfErr result (λ e. e.items ≡ items) }
    {
        let alloc = *items.allocator();
        match Box::new(
            alloc,
            Core {
                users: 1,
                value: items,
            },
        ) {
            Ok(memory) => Ok(SharedArray {
                hold: Hold::Alone(memory, Name::new()),
                parts: LIMIT,
                alloc,
            }),
            Err(failed) => {
                let Core { users: _, value } = failed.value;
                Err(NoRoom { items: value })
            }
        }
    }

    /// The items.
    pub fn items(&self) -> &[T]
        ensures { result.now ≡ self.now.items }
    {
        match &self.hold {
            Hold::Alone(memory, _) => memory.value.as_slice(),
            Hold::Counted(handle) => handle.value().as_slice(),
            Hold::Gone => unreachable!(),
        }
    }

    /// How many parts of the block this handle has.
    pub fn parts(&self) -> u64
        ensures parts { result ≡ self.now.parts }
        ensures in_range { (0 < self.now.parts) × (self.now.parts ≤ LIMIT) }
    {
        self.parts
    }

    /// One more handle on the same block.
    pub fn share(&mut self) -> Result<SharedArray<T, LIMIT>, AtLimit>
        ensures ok { OnOk result ((self.old.parts ≢ 1) × (self.new.items ≡ self.old.items) × (self.new.block ≡ self.old.block)) }
        ensures at_limit { OnErr result ((self.old.parts ≡ 1) × (self.new ≡ self.old)) }
        ensures shared { IfOk result (λ h. (h.items ≡ self.old.items) × (h.block ≡ self.old.block) × (h.parts ≡ max (self.old.parts / 256) 1) × (self.new.parts ≡ self.old.parts - h.parts)) }
    {
        if self.parts == 1 {
            return Err(AtLimit);
        }
        let given = std::cmp::max(self.parts / 256, 1);
        let hold = mem::replace(&mut self.hold, Hold::Gone);
        let (first, second) = counted(hold, LIMIT, self.parts).share(given);
        put(&mut self.hold, Hold::Counted(first));
        self.parts -= given;
        Ok(SharedArray {
            hold: Hold::Counted(second),
            parts: given,
            alloc: self.alloc,
        })
    }

    /// Makes sure that this is the only handle of its block, so that `sole_items` lends the items. It
    /// is refused while there are others, of which it then returns the number with this one.
    pub fn claim(&mut self) -> Result<(), InUse>
        ensures ok { OnOk result ((self.new.parts ≡ LIMIT) × (self.new.items ≡ self.old.items) × (self.new.block ≡ self.old.block)) }
        ensures err { IfErr result (λ e. (2 ≤ e.users) × (self.old.parts ≢ LIMIT) × (self.new ≡ self.old)) }
    {
        if self.parts == LIMIT {
            return Ok(());
        }
        match look(mem::replace(&mut self.hold, Hold::Gone), self.alloc) {
            Ok(alone) => {
                put(&mut self.hold, alone);
                self.parts = LIMIT;
                Ok(())
            }
            Err((hold, users)) => {
                put(&mut self.hold, hold);
                Err(InUse { users })
            }
        }
    }

    /// Tries to claim sole use while `other` holds the same block: always refused.
    pub fn write_beside(&mut self, other: &SharedArray<T, LIMIT>) -> InUse
        requires { self.old.block ≡ other.now.block }
        ensures not_sole { self.old.parts ≢ LIMIT }
        ensures in_use { 2 ≤ result.users }
        ensures unchanged { self.new ≡ self.old }
    {
        match self.claim() {
            Err(refused) => refused,
            Ok(()) => {
                self.differs(other);
                unreachable!()
            }
        }
    }

    // The name of a handle that is sole differs from that of any other handle.
    fn differs(&mut self, other: &SharedArray<T, LIMIT>)
        requires { self.old.parts ≡ LIMIT }
        ensures { (self.new ≡ self.old) × (self.old.block ≢ other.now.block) }
    {
        let hold = mem::replace(&mut self.hold, Hold::Gone);
        let hold = apart(hold, &other.hold);
        put(&mut self.hold, hold);
    }
}

fn apart<T>(hold: Hold<T>, other: &Hold<T>) -> Hold<T>
    requires alone { IsAlone hold }
    requires there { other.now ≢ Gone }
    ensures { (result ≡ hold) × (block_of hold ≢ block_of other.now) }
{
    match hold {
        Hold::Alone(memory, name) => {
            let name = match other {
                Hold::Alone(_, other) => name.beside(other),
                Hold::Counted(handle) => name.beside_handle(handle),
                Hold::Gone => unreachable!(),
            };
            Hold::Alone(memory, name)
        }
        Hold::Counted(_handle) => unreachable!(),
        Hold::Gone => unreachable!(),
    }
}

impl<T: Drop, const LIMIT: u64> Drop for SharedArray<T, LIMIT> {
    fn drop(self) {
        let SharedArray {
            hold,
            parts: _,
            alloc,
        } = self;
        match hold {
            Hold::Alone(_memory, _name) => {}
            Hold::Counted(handle) => {
                if let Some(block) = handle.leave() {
                    let (memory, _name) = block.into_parts(alloc);
                    drop(memory.into_box());
                }
            }
            Hold::Gone => {}
        }
    }
}
