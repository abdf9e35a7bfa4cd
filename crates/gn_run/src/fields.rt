// Fields over the elements of a mask.
ghost use Rattle.std.specs.Prelude.{◌≡◌, ◌<◌, ◌≤◌, All, length, IfOk, IfErr, OnOk};
ghost use Rattle.gn_plain.specs.Contexts.{length_of};
ghost use Rattle.gn_plain.specs.Subtrees.{count_different};
ghost use Rattle.gn_field.specs.Together.{AgreeOnSources};
ghost use Rattle.gn_proc.specs.Faults.{IsTapeFault};
ghost use Rattle.gn_run.specs.Evaluated.{AreEvaluated};

use crate::columns::columns_over;
use gn_attr::Column;
use gn_field::{Context, Field, Source};
use gn_mask::Mask;
use gn_proc::{TapeFault, build};
use std::alloc::Global;
use std::thread::Threads;

/// For each of some fields a column as long as the context: at the elements of the mask the field's
/// values there, and zero at the others.
///
/// `TooMany` comes exactly where the fields together have more than 4,096 different subtrees.
///
/// Conditions: the mask's elements are in range; there are at most 65,536 fields; any two sampled parts
/// of them have one source if the path of their nodes is one.
pub fn evaluate<S: Source + Send + Sync, C: Context + Drop + Sync>(
    rt: &(impl Threads + Sync),
    alloc: Global,
    fields: &[Field<S>],
    context: &C,
    mask: &Mask,
) -> Result<Vec<Column>, TapeFault>
    requires within { All (λ n. n < length_of (C.meaning context.now)) mask.now }
    requires few_fields { length fields.now ≤ 65536 }
    requires one_source { AgreeOnSources fields.now }
    ensures values { IfOk result (λ columns. AreEvaluated S.sources (C.meaning context.now) mask.now fields.now columns.items) }
    ensures few { OnOk result (count_different fields.now ≤ 4096) }
    ensures fault { IfErr result (IsTapeFault (count_different fields.now)) }
{
    let tape = build(alloc, fields)?;
    let ready = tape.ready(alloc, context)?;
    let columns = columns_over(rt, alloc, &ready, mask)?;
    Ok(columns)
}
