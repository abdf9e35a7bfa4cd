// Where fields are read.
ghost use Rattle.std.specs.Prelude.{◌≡◌, ◌<◌, option_map, IfOk};
ghost use Rattle.gn_value.specs.Values.{kind_of};
ghost use Rattle.gn_plain.specs.Contexts as plain;
ghost use Rattle.gn_plain.specs.Contexts.{kind_of_input, length_of, input_at};
ghost use Rattle.gn_field.specs.Steps.{plain_input};
ghost use Rattle.gn_field.specs.Contexts.{place_of, on_place, IsTopologyOf};

use crate::input::Input;
use gn_memory::Memory;
use gn_value::op::Topology;
use gn_value::{Place, Value};
use std::alloc::Global;

/// A place of a geometry, at whose elements fields are read, or no place: then there is one element,
/// at which every input is zero.
pub trait Context: Sized {
    ghost meaning: { Self → plain.Context };

    /// The place, or `None` for the empty context.
    fn place(&self) -> Option<Place>
        ensures { result ≡ place_of (meaning self.now) };

    /// How many elements there are.
    fn len(&self) -> u32
        ensures { result ≡ length_of (meaning self.now) };

    /// What an input is at an element.
    fn input(&self, input: &Input, element: u32) -> Value
        requires { element < length_of (meaning self.now) }
        ensures value { result ≡ input_at (meaning self.now) (plain_input input.now) element }
        ensures kind { kind_of result ≡ kind_of_input (plain_input input.now) };

    /// The same geometry on another place, or `None` where the place is of another component. The empty
    /// context has no other.
    fn other(&self, alloc: Global, place: Place) -> Result<Option<Self>, Memory>
        ensures { IfOk result (λ other. option_map meaning other ≡ on_place (meaning self.now) place) };

    /// How the mesh hangs together, by which values on one of its places are interpolated on another;
    /// `None` where the context is not on a place of a mesh.
    fn topology(&self) -> Option<Topology<'_>>
        ensures { IsTopologyOf (meaning self.now) result };
}
