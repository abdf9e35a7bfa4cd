// The values of steps at all elements of a place.
ghost use Rattle.std.specs.Prelude.{◌≡◌};
ghost use Rattle.std.specs.Bool.{Decides};

use gn_value::Place;
use gn_value::op::Register;

/// The values of a step at all elements of a place.
#[derive(Drop)]
pub struct Whole {
    pub step: u32,
    pub place: Place,
    pub values: Register,
}

impl Whole {
    /// Whether the values are those of a step on a place.
    pub(crate) fn is_of(&self, step: u32, place: Place) -> bool
        ensures { Decides result ((self.now.step ≡ step) × (self.now.place ≡ place)) }
    {
        self.step == step && self.place == place
    }
}
