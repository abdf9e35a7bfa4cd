// Registers, and what they have.
ghost use Rattle.std.specs.Prelude.{◌≡◌, ◌<◌, ℕ, IfOk};
ghost use Rattle.gn_value.specs.Registers.{register_kind, register_len, register_value};
ghost use Rattle.gn_value.specs.Values.{zero_of};

use gn_memory::Memory;
use gn_value::op::Register;
use gn_value::{Fx, V3, ValueKind};
use std::alloc::Global;

/// The kind of a register's values.
pub fn kind_of(register: &Register) -> ValueKind
    ensures { result ≡ register_kind register.now }
{
    match register {
        Register::Truth(_) => ValueKind::Truth,
        Register::Int(_) => ValueKind::Int,
        Register::Fixed(_) => ValueKind::Fixed,
        Register::Vector(_) => ValueKind::Vector,
    }
}

/// How many values a register has.
pub fn len_of(register: &Register) -> usize
    ensures { result ≡ register_len register.now }
{
    match register {
        Register::Truth(values) => values.len(),
        Register::Int(values) => values.len(),
        Register::Fixed(values) => values.len(),
        Register::Vector(values) => values.len(),
    }
}

/// A register of zeros.
pub fn zeros(alloc: Global, kind: ValueKind, count: usize) -> Result<Register, Memory>
    ensures kind { IfOk result (λ r. register_kind r ≡ kind) }
    ensures len { IfOk result (λ r. register_len r ≡ count) }
    ensures values { IfOk result (λ r. (k : ℕ) → k < count → register_value k r ≡ zero_of kind) }
{
    match kind {
        ValueKind::Truth => Ok(Register::Truth(vec![in alloc; false; count]?)),
        ValueKind::Int => Ok(Register::Int(vec![in alloc; 0; count]?)),
        ValueKind::Fixed => Ok(Register::Fixed(vec![in alloc; Fx::ZERO; count]?)),
        ValueKind::Vector => Ok(Register::Vector(vec![in alloc; V3::ZERO; count]?)),
    }
}

/// The same values in a list of their own.
fn copied_list<T: Copy + Drop>(alloc: Global, values: &[T]) -> Result<Vec<T>, Memory>
    ensures { IfOk result (λ copy. copy.items ≡ values.now) }
{
    let mut copy = Vec::new(alloc);
    copy.extend_from_slice(values)?;
    Ok(copy)
}

/// A register of the same values.
pub fn copied(alloc: Global, register: &Register) -> Result<Register, Memory>
    ensures kind { IfOk result (λ copy. register_kind copy ≡ register_kind register.now) }
    ensures len { IfOk result (λ copy. register_len copy ≡ register_len register.now) }
    ensures values { IfOk result (λ copy. (k : ℕ) → register_value k copy ≡ register_value k register.now) }
{
    match register {
        Register::Truth(values) => Ok(Register::Truth(copied_list(alloc, values)?)),
        Register::Int(values) => Ok(Register::Int(copied_list(alloc, values)?)),
        Register::Fixed(values) => Ok(Register::Fixed(copied_list(alloc, values)?)),
        Register::Vector(values) => Ok(Register::Vector(copied_list(alloc, values)?)),
    }
}
