ghost use Rattle.std.specs.Prelude.{◌≡◌, ◌≢◌, ℕ, ◌-◌, ◌^◌, ◌<◌, ◌≤◌, IfSome, MatchResult};
ghost use Rattle.gn_block.specs.Blocks.{handle_owns, handle_shares};
ghost use Rattle.gn_block.specs.Whole.{whole};

use crate::block::{Core, Loose};
use std::marker::{Brand, Model};
use std::sync::atomic::Ordering::SeqCst;
use std::sync::atomic::raw;

/// One of several handles on a block.
pub struct Counted<X> {
    at: *mut Core<X>,
    pub ghost value: { X },
    pub ghost limit: { ℕ },
    pub ghost parts: { ℕ },
    pub ghost block: { ℕ },
}

impl<X> Model for Counted<X> {
    ghost also_owns = { λ h. handle_owns X.row (whole X.row) h.at h.value h.limit h.parts h.block };

    ghost also_shares = { λ h _ κ. handle_shares X.row (whole X.row) h.at h.value h.limit h.block κ };
}

impl<X> Counted<X> {
    /// The first handle, with every part.
    pub fn open(block: Loose<X>, limit: u64) -> Counted<X>
        requires { (block.users ≡ 1) × (0 < limit) × (limit ≤ 2 ^ 62) }
        ensures { (result.value ≡ block.value) × (result.block ≡ block.block) × (result.limit ≡ limit) × (result.parts ≡ limit) }
    {
        let _ = limit;
        let Loose { at } = block;
        Counted { at }
    }

    pub fn value(&self) -> &X
        ensures { result.now ≡ self.now.value }
    {
        unsafe { &(*self.at).value }
    }

    /// One more handle, which gets `parts` of this one's.
    pub fn share(self, parts: u64) -> (Counted<X>, Counted<X>)
        requires { (0 < parts) × (parts < self.parts) }
        ensures first { (result.0.value ≡ self.value) × (result.0.block ≡ self.block) × (result.0.limit ≡ self.limit) × (result.0.parts ≡ self.parts - parts) }
        ensures second { (result.1.value ≡ self.value) × (result.1.block ≡ self.block) × (result.1.limit ≡ self.limit) × (result.1.parts ≡ parts) }
    {
        let Counted { at } = self;
        let _ = unsafe { raw::fetch_add::<Brand>(&raw const (*at).users, 1, SeqCst) };
        (Counted { at }, Counted { at })
    }

    /// One handle fewer. The last one gets the block.
    pub fn leave(self) -> Option<Loose<X>>
        ensures { IfSome result (λ b. (b.users ≡ 0) × (b.value ≡ self.value) × (b.block ≡ self.block)) }
    {
        let Counted { at } = self;
        let found = unsafe { raw::fetch_sub::<Brand>(&raw const (*at).users, 1, SeqCst) };
        if found != 1 {
            return None;
        }
        Some(Loose { at })
    }

    /// The block, where this is its only handle. Else the handle again, and how many there are.
    pub fn look(self) -> Result<Loose<X>, (Counted<X>, u64)>
        ensures { MatchResult result
            (λ b. (b.users ≡ 1) × (b.value ≡ self.value) × (b.block ≡ self.block))
            (λ e. (e.0 ≡ self) × (2 ≤ e.1) × (self.parts ≢ self.limit)) }
    {
        let Counted { at } = self;
        let found = unsafe { raw::load::<Brand>(&raw const (*at).users, SeqCst) };
        if found != 1 {
            return Err((Counted { at }, found));
        }
        Ok(Loose { at })
    }
}

unsafe impl<X: Send + Sync> Send for Counted<X> {}

unsafe impl<X: Send + Sync> Sync for Counted<X> {}
