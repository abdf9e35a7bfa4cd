// Values on a place of a context's component as values on the context's own place.
ghost use Rattle.std.specs.Prelude.{◌≡◌, IfOk};
ghost use Rattle.gn_value.specs.Registers.{register_len};
ghost use Rattle.gn_plain.specs.Contexts.{length_of};
ghost use Rattle.gn_wholes.specs.Contexts.{HasPlace, IsBrought, moved};

use gn_elsewhere::bring;
use gn_field::Context;
use gn_memory::Memory;
use gn_value::Place;
use gn_value::op::Register;
use std::alloc::Global;

/// Values on a place of the context's component as values on the context's own place.
///
/// Condition: the component has the place, and there are as many values as the place has elements.
#[tactic(auto, using(crate::proofs::Bringing::kept, crate::proofs::Bringing::stayed, crate::proofs::Bringing::counted, crate::proofs::Bringing::valued))]
pub fn bring_here<C: Context>(
    alloc: Global,
    values: Register,
    from: Place,
    context: &C,
) -> Result<Register, Memory>
    requires has { HasPlace (C.meaning context.now) from }
    requires long { register_len values ≡ length_of (moved (C.meaning context.now) from) }
    ensures { IfOk result (λ register. IsBrought (C.meaning context.now) from values register) }
{
    let Some(to) = context.place() else {
        unreachable!();
    };
    let Some(topology) = context.topology() else {
        return Ok(values);
    };
    if from == to {
        return Ok(values);
    }
    bring(alloc, values, from, to, &topology)
}
