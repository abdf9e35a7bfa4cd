// Columns of the values of fields over a mask.
ghost use Rattle.std.specs.Prelude.{◌≡◌, ℕ, ◌<◌, [], All, IfOk, OnOk};
ghost use Rattle.std.specs.List.{AllZip};
ghost use Rattle.gn_plain.specs.Contexts.{length_of};
ghost use Rattle.gn_run.specs.Evaluated.{AreEvaluated, AreFilled, Holds};
ghost use Rattle.gn_run.specs.Putting.{AllPut, CanPut, IsZeroOf};

use crate::parts::{PartValues, run_parts};
use gn_attr::Column;
use gn_attr::array::array_of;
use gn_field::{Context, Source};
use gn_fill::{kind_of, put, zeros};
use gn_mask::Mask;
use gn_memory::Memory;
use gn_proc::Ready;
use gn_value::op::Register;
use std::alloc::Global;
use std::thread::Threads;

/// How many elements a part of a mask has.
const PART: u32 = 4096;

/// A register of zeros for each of some registers, of its kind.
fn zeros_like(alloc: Global, registers: &[Register], count: usize) -> Result<Vec<Register>, Memory>
    ensures { IfOk result (λ zeros. AllZip (IsZeroOf count) registers.now zeros.items) }
{
    let mut list = Vec::with_capacity(alloc, registers.len())?;
    for register in registers {
        list.push(zeros(alloc, kind_of(register), count)?)?;
    }
    Ok(list)
}

/// A register for each field of a tape, with zero at each element.
fn empty<S: Source, C: Context>(
    alloc: Global,
    ready: &Ready<'_, S, C>,
) -> Result<Vec<Register>, Memory>
    ensures { IfOk result (λ registers. AreFilled S.sources (C.meaning ready.now.1) [] ready.now.0 registers.items) }
{
    // run at no element, the tape gives a register of each field's kind
    let kinds = ready.run(alloc, &[])?;
    zeros_like(alloc, &kinds, ready.len() as usize)
}

/// Puts the values of a part into registers of all elements.
fn put_part(part: &PartValues, registers: &mut [Register])
    requires { AllZip (CanPut part.now.elements.items) part.now.registers.items registers.old }
    ensures { AllPut part.now.elements.items part.now.registers.items registers.old registers.new }
{
    for (k, values) in part.registers.iter().enumerate() {
        let into = &mut registers[k];
        put(values, &part.elements, into);
    }
}

/// Puts the values of fields at the elements of a mask into registers of all elements.
fn fill_registers<S: Source + Send + Sync, C: Context + Sync>(
    rt: &(impl Threads + Sync),
    alloc: Global,
    ready: &Ready<'_, S, C>,
    mask: &Mask,
    registers: &mut [Register],
) -> Result<(), Memory>
    requires within { All (λ n. n < length_of (C.meaning ready.now.1)) mask.now }
    requires empty { AreFilled S.sources (C.meaning ready.now.1) [] ready.now.0 registers.old }
    ensures { OnOk result (AreFilled S.sources (C.meaning ready.now.1) mask.now ready.now.0 registers.new) }
{
    let parts = mask.chunks(alloc, PART)?;
    let results = run_parts(rt, alloc, ready, &parts)?;
    for result in &results {
        match result {
            Ok(part) => put_part(part, registers),
            Err(memory) => return Err(*memory),
        }
    }
    Ok(())
}

/// A column of a register's values.
fn column_of(values: Register) -> Result<Column, Memory>
    ensures { IfOk result (Holds values) }
{
    match values {
        Register::Truth(values) => Ok(Column::Truth(array_of(values)?)),
        Register::Int(values) => Ok(Column::Int(array_of(values)?)),
        Register::Fixed(values) => Ok(Column::Fixed(array_of(values)?)),
        Register::Vector(values) => Ok(Column::Vector(array_of(values)?)),
    }
}

/// Columns of the values of registers.
fn columns_of(alloc: Global, registers: Vec<Register>) -> Result<Vec<Column>, Memory>
    ensures { IfOk result (λ columns. AllZip Holds registers.items columns.items) }
{
    let mut columns = Vec::with_capacity(alloc, registers.len())?;
    for register in registers {
        columns.push(column_of(register)?)?;
    }
    Ok(columns)
}

/// For each field of a tape a column as long as the context: at the elements of the mask the field's
/// values there, and zero at the others.
///
/// Condition: the mask's elements are in range.
pub(crate) fn columns_over<S: Source + Send + Sync, C: Context + Sync>(
    rt: &(impl Threads + Sync),
    alloc: Global,
    ready: &Ready<'_, S, C>,
    mask: &Mask,
) -> Result<Vec<Column>, Memory>
    requires { All (λ n. n < length_of (C.meaning ready.now.1)) mask.now }
    ensures { IfOk result (λ columns. AreEvaluated S.sources (C.meaning ready.now.1) mask.now ready.now.0 columns.items) }
{
    let mut registers = empty(alloc, ready)?;
    fill_registers(rt, alloc, ready, mask, registers.as_mut_slice())?;
    columns_of(alloc, registers)
}
