// The parts of a mask, in threads.
ghost use Rattle.std.specs.Prelude.{◌≡◌, ℕ, ◌<◌, All, IfOk};
ghost use Rattle.std.specs.List.{AllZip};
ghost use Rattle.gn_plain.specs.Contexts.{length_of};
ghost use Rattle.gn_run.specs.Evaluated.{GivesPart};

use gn_field::{Context, Source};
use gn_mask::Mask;
use gn_memory::Memory;
use gn_proc::Ready;
use gn_value::op::Register;
use rayon::prelude::*;
use std::alloc::{AllocError, Global};
use std::thread::Threads;

/// The elements of a part, and for each field its values at them.
#[derive(Drop)]
pub(crate) struct PartValues {
    pub(crate) elements: Vec<u32>,
    pub(crate) registers: Vec<Register>,
}

/// The values of fields at the elements of a part.
fn run_part<S: Source, C: Context>(
    alloc: Global,
    ready: &Ready<'_, S, C>,
    part: &Mask,
) -> Result<PartValues, Memory>
    requires { All (λ n. n < length_of (C.meaning ready.now.1)) part.now }
    ensures { GivesPart S.sources (C.meaning ready.now.1) ready.now.0 part.now result }
{
    let elements = part.to_vec(alloc)?;
    let registers = ready.run(alloc, &elements)?;
    Ok(PartValues {
        elements,
        registers,
    })
}

/// The values of fields at the elements of each part, in order.
pub(crate) fn run_parts<S: Source + Send + Sync, C: Context + Sync>(
    rt: &(impl Threads + Sync),
    alloc: Global,
    ready: &Ready<'_, S, C>,
    parts: &[Mask],
) -> Result<Vec<Result<PartValues, Memory>>, AllocError>
    requires { All (λ part. All (λ n. n < length_of (C.meaning ready.now.1)) part) parts.now }
    ensures { IfOk result (λ values. AllZip (GivesPart S.sources (C.meaning ready.now.1) ready.now.0) parts.now values.items) }
{
    // a part is much work, so one is worth a thread
    parts
        .par_iter()
        .with_min_len(1)
        .map(
            |part: &Mask| -> Result<PartValues, Memory>
                requires { All (λ n. n < length_of (C.meaning ready.now.1)) part.now }
                ensures { GivesPart S.sources (C.meaning ready.entry.now.1) ready.entry.now.0 part.now result }
            { run_part(alloc, ready, part) },
        )
        .collect(rt, alloc)
}
