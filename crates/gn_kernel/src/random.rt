//! Values that look random and hang on an id and a seed alone.
ghost use Rattle.std.specs.Prelude.{◌≡◌, ◌^◌, ◌<◌, ◌≤◌, ◌*◌, ◌/◌, ◌≤ℤ◌, ◌-ℤ◌, ◌+ℤ◌, pos};
ghost use Rattle.gn_value.specs.Values.{fx};
ghost use Rattle.gn_value.specs.Rows.{component_hash, high_half, random_fixed, random_hash, random_int, random_truth, random_vector};

use crate::numbers::between;
use gn_value::{Fx, V3, mix64};

/// The hash of an id and a seed, which count by their bits.
#[tactic(auto, unfolding(gn_value::specs::Rows::random_hash))]
fn random_hash(id: i32, seed: i32) -> u64
    ensures { result ≡ random_hash id seed }
{
    let seed = (seed.cast_unsigned() as u64).wrapping_add(0x9E3779B97F4A7C15);
    mix64(mix64(seed) ^ id.cast_unsigned() as u64)
}

/// The high half of a hash, as a number from 0 up to 1.
fn high_half(hash: u64) -> Fx
    ensures { result ≡ fx (pos (high_half hash)) }
{
    Fx((hash >> 32) as i64)
}

/// A number between two.
pub fn random_fixed(low: Fx, high: Fx, id: i32, seed: i32) -> Fx
    ensures { result ≡ fx (random_fixed low.0 high.0 (random_hash id seed)) }
{
    fixed_by(low, high, random_hash(id, seed))
}

/// A number between two, by a hash.
#[tactic(auto, unfolding(gn_value::specs::Rows::random_fixed))]
fn fixed_by(low: Fx, high: Fx, hash: u64) -> Fx
    ensures { result ≡ fx (random_fixed low.0 high.0 hash) }
{
    between(high_half(hash), low, high)
}

/// The place that a part of 2^32 has among `count` places.
#[tactic(auto, using(crate::proofs::Shares::share_below))]
fn share(part: u64, count: u64) -> u64
    requires part { part < 2 ^ 32 }
    requires some { 0 < count }
    requires count { count ≤ 2 ^ 32 }
    ensures value { result ≡ part * count / 2 ^ 32 }
    ensures below { result < count }
{
    (part * count) >> 32
}

/// An integer from the least to the greatest; the least where they are turned round.
pub fn random_int(low: i32, high: i32, id: i32, seed: i32) -> i32
    ensures { result ≡ random_int low high (random_hash id seed) }
{
    int_by(low, high, random_hash(id, seed))
}

/// Such an integer, by a hash.
#[tactic(auto, unfolding(gn_value::specs::Rows::random_int))]
fn int_by(low: i32, high: i32, hash: u64) -> i32
    ensures { result ≡ random_int low high hash }
{
    if high < low {
        return low;
    }
    (low as i64 + share(hash >> 32, count_between(low, high)) as i64) as i32
}

/// How many integers there are from the least to the greatest.
fn count_between(low: i32, high: i32) -> u64
    requires { low ≤ℤ high }
    ensures value { pos result ≡ high -ℤ low +ℤ pos 1 }
    ensures some { 0 < result }
    ensures bound { result ≤ 2 ^ 32 }
{
    (high as i64 - low as i64 + 1) as u64
}

/// The hash of a component.
#[tactic(auto, unfolding(gn_value::specs::Rows::component_hash))]
fn component_hash(hash: u64, component: u64) -> u64
    ensures { result ≡ component_hash hash component }
{
    mix64(hash.wrapping_add(component))
}

/// A vector between two, each component by itself.
#[tactic(auto, unfolding(gn_value::specs::Rows::random_vector))]
pub fn random_vector(low: V3, high: V3, id: i32, seed: i32) -> V3
    ensures { result ≡ random_vector low high (random_hash id seed) }
{
    let hash = random_hash(id, seed);
    V3 {
        x: fixed_by(low.x, high.x, component_hash(hash, 0)),
        y: fixed_by(low.y, high.y, component_hash(hash, 1)),
        z: fixed_by(low.z, high.z, component_hash(hash, 2)),
    }
}

/// A truth that holds as often as the probability says.
#[tactic(auto, unfolding(gn_value::specs::Rows::random_truth))]
pub fn random_truth(probability: Fx, id: i32, seed: i32) -> bool
    ensures { result ≡ random_truth probability.0 (random_hash id seed) }
{
    high_half(random_hash(id, seed)).0 < probability.0
}
