//! The registers that an operation reads.
ghost use Rattle.std.specs.Prelude.{◌≡◌, ◌<◌, ℕ, All, List, Some, length, map, slice_get, slice_index_or};
ghost use Rattle.gn_value.specs.Registers.{register_kind, register_len, registers_named};
ghost use Rattle.gn_value.specs.declared.op.Register.{Register};
ghost use Rattle.gn_registers.specs.Arguments.{argument};

use crate::of_kind::OfKind;
use gn_value::op::Register;
use std::marker::Model;

/// The registers that the arguments of an operation name, in order.
#[derive(Drop)]
pub struct Arguments<'a> {
    registers: &'a [Register],
    numbers: &'a [u32],
}

impl<'a> Model for Arguments<'a> {
    ghost Value = { List Register };

    ghost view = { λ x. registers_named x.registers.now x.numbers.now };

    ghost invariant = { λ x. All (λ number. number < length x.registers.now) x.numbers.now };
}

impl<'a> Arguments<'a> {
    /// The registers with these numbers.
    pub fn new(registers: &'a [Register], numbers: &'a [u32]) -> Arguments<'a>
        requires { All (λ number. number < length registers.now) numbers.now }
        ensures { result ≡ registers_named registers.now numbers.now }
    {
        Arguments { registers, numbers }
    }

    /// The register at a position.
    pub fn get(&self, at: usize) -> &Register
        requires { at < length self.now }
        ensures { slice_get self.now at ≡ Some result.now }
    {
        register_named(self.registers, self.numbers, at)
    }

    /// The values of the register at a position, which has the kind of the type and a length.
    pub fn list<T: OfKind>(&self, at: usize, count: usize) -> &[T]
        requires long { All (λ register. register_len register ≡ count) self.now }
        requires kind { slice_get (map register_kind self.now) at ≡ Some T.KIND }
        ensures len { length result.now ≡ count }
        ensures values { (k : ℕ) (v : T) → k < count →
            slice_index_or result.now k v ≡ T.in_value (argument k self.now at) }
    {
        T::list(self.get(at))
    }
}

/// The register with the number at a position.
#[tactic(auto, using(crate::proofs::Positions::argument_found))]
fn register_named<'a>(registers: &'a [Register], numbers: &[u32], at: usize) -> &'a Register
    requires in_range { All (λ number. number < length registers.now) numbers.now }
    requires there { at < length numbers.now }
    ensures { slice_get (registers_named registers.now numbers.now) at ≡ Some result.now }
{
    &registers[numbers[at] as usize]
}
