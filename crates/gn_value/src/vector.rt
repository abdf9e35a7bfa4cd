ghost use Rattle.std.specs.Prelude.{◌≡◌, ◌+ℤ◌, ◌-ℤ◌, ◌*ℤ◌, pos};
ghost use Rattle.std.specs.Int.{int_min, int_max};
ghost use Rattle.gn_value.specs.Arithmetic.{difference_of, exact_product, floor_div, magnitude_of, one, product_of, quotient_of, sat, sum_of};
ghost use Rattle.gn_value.specs.Values.{by_component, component_mean, cross_of, crossed, dot_of, each_component, exact_dot, exact_length, fx, is_zero, length_of, normalized, v3};

use crate::fixed::Fx;
use crate::whole::{divide_down, mean, saturate_i64, square};
use gn_root::isqrt;

/// A vector of three fixed numbers.
#[derive(Clone, Copy, Debug, PartialEq, Eq, PartialOrd, Ord, Hash)]
pub struct V3 {
    pub x: Fx,
    pub y: Fx,
    pub z: Fx,
}

impl V3 {
    /// The zero vector.
    pub const ZERO: V3 = V3 {
        x: Fx(0),
        y: Fx(0),
        z: Fx(0),
    };

    /// The vector with one number in each component.
    pub fn splat(component: Fx) -> V3
        ensures { result ≡ v3 component.0 component.0 component.0 }
    {
        V3 {
            x: component,
            y: component,
            z: component,
        }
    }

    /// The sum by component.
    pub fn add(self, b: V3) -> V3
        ensures { result ≡ by_component sum_of self b }
    {
        V3 {
            x: self.x.add(b.x),
            y: self.y.add(b.y),
            z: self.z.add(b.z),
        }
    }

    /// The difference by component.
    pub fn sub(self, b: V3) -> V3
        ensures { result ≡ by_component difference_of self b }
    {
        V3 {
            x: self.x.sub(b.x),
            y: self.y.sub(b.y),
            z: self.z.sub(b.z),
        }
    }

    /// The product by component.
    pub fn mul(self, b: V3) -> V3
        ensures { result ≡ by_component product_of self b }
    {
        V3 {
            x: self.x.mul(b.x),
            y: self.y.mul(b.y),
            z: self.z.mul(b.z),
        }
    }

    /// The quotient by component; 0 where a component of `b` is 0.
    pub fn div(self, b: V3) -> V3
        ensures { result ≡ by_component quotient_of self b }
    {
        V3 {
            x: self.x.div(b.x),
            y: self.y.div(b.y),
            z: self.z.div(b.z),
        }
    }

    /// The lesser by component.
    pub fn min(self, b: V3) -> V3
        ensures { result ≡ by_component int_min self b }
    {
        V3 {
            x: self.x.min(b.x),
            y: self.y.min(b.y),
            z: self.z.min(b.z),
        }
    }

    /// The greater by component.
    pub fn max(self, b: V3) -> V3
        ensures { result ≡ by_component int_max self b }
    {
        V3 {
            x: self.x.max(b.x),
            y: self.y.max(b.y),
            z: self.z.max(b.z),
        }
    }

    /// The absolute value of each component, brought into range.
    pub fn abs(self) -> V3
        ensures { result ≡ each_component magnitude_of self }
    {
        V3 {
            x: self.x.abs(),
            y: self.y.abs(),
            z: self.z.abs(),
        }
    }

    /// The vector with each component multiplied by one number.
    pub fn scale(self, by: Fx) -> V3
        ensures { result ≡ each_component (λ c. product_of c by.0) self }
    {
        V3 {
            x: self.x.mul(by),
            y: self.y.mul(by),
            z: self.z.mul(by),
        }
    }

    /// The raw dot product without bounds: three products, each rounded down by itself, added
    /// exactly.
    pub fn exact_dot(self, b: V3) -> i128
        ensures { result ≡ exact_dot self b }
    {
        self.x.exact_product(b.x) + self.y.exact_product(b.y) + self.z.exact_product(b.z)
    }

    /// The dot product: three products, each rounded down by itself, added exactly and brought
    /// into range once.
    pub fn dot(self, b: V3) -> Fx
        ensures { result ≡ fx (dot_of self b) }
    {
        Fx(saturate_i64(self.exact_dot(b)))
    }

    /// The cross product: each component is the difference of two products, each rounded down,
    /// brought into range once.
    pub fn cross(self, b: V3) -> V3
        ensures { result ≡ cross_of self b }
    {
        V3 {
            x: cross_component(self.y, b.z, self.z, b.y),
            y: cross_component(self.z, b.x, self.x, b.z),
            z: cross_component(self.x, b.y, self.y, b.x),
        }
    }

    /// The length as a raw number, rounded down, which may be above the range of `Fx`.
    #[tactic(auto, unfolding(crate::specs::Values::exact_length))]
    pub fn exact_length(self) -> u64
        ensures { result ≡ exact_length self }
    {
        isqrt(square(self.x.0) + square(self.y.0) + square(self.z.0))
    }

    /// The length, rounded down and then brought into range.
    pub fn length(self) -> Fx
        ensures { result ≡ fx (length_of self) }
    {
        Fx(saturate_i64(self.exact_length() as i128))
    }

    /// The vector divided by its length, rounded down; the zero vector stays.
    pub fn normalize(self) -> V3
        ensures { result ≡ normalized self }
    {
        let length = self.exact_length();
        V3 {
            x: share_of(self.x, length),
            y: share_of(self.y, length),
            z: share_of(self.z, length),
        }
    }

    /// The mean of the components, rounded down.
    pub fn component_mean(self) -> Fx
        ensures { result ≡ fx (component_mean self) }
    {
        Fx(saturate_i64(mean(self.component_sum(), 3)))
    }

    /// The exact sum of the raw components.
    fn component_sum(self) -> i128
        ensures { result ≡ self.x.0 +ℤ self.y.0 +ℤ self.z.0 }
    {
        self.x.0 as i128 + self.y.0 as i128 + self.z.0 as i128
    }

    /// Whether each component is 0.
    pub fn is_zero(self) -> bool
        ensures { result ≡ is_zero self }
    {
        self.x.0 == 0 && self.y.0 == 0 && self.z.0 == 0
    }
}

/// The quotient of a component and a raw length, rounded down; 0 for no length.
fn share_of(component: Fx, length: u64) -> Fx
    ensures { result ≡ fx (sat (floor_div (component.0 *ℤ one) (pos length))) }
{
    Fx(saturate_i64(divide_down(component.0 as i128 * (1 << 32), length as i128)))
}

/// The difference of two products, each rounded down, brought into range.
fn cross_component(a: Fx, b: Fx, c: Fx, d: Fx) -> Fx
    ensures { result ≡ fx (crossed a.0 b.0 c.0 d.0) }
{
    Fx(saturate_i64(exact_difference(a, b, c, d)))
}

/// The difference of two products, each rounded down.
fn exact_difference(a: Fx, b: Fx, c: Fx, d: Fx) -> i128
    ensures { result ≡ exact_product a.0 b.0 -ℤ exact_product c.0 d.0 }
{
    a.exact_product(b) - c.exact_product(d)
}
