// Where the values of a step on a place are.
ghost use Rattle.std.specs.Prelude.{IfSome, IfNone};
ghost use Rattle.gn_slots.specs.Registers.{IsFound, IsThere};

use crate::whole::Whole;
use gn_value::Place;
use gn_value::op::Register;

/// The values of a step on a place.
pub(crate) fn find(wholes: &[Whole], step: u32, place: Place) -> Option<&Register>
    ensures found { IfSome result (λ values. IsFound wholes.now step place values.now) }
    ensures none { IfNone result (¬ IsThere wholes.now step place) }
{
    for whole in wholes {
        if whole.is_of(step, place) {
            return Some(&whole.values);
        }
    }
    None
}
