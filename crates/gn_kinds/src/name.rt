ghost use Rattle.std.specs.Prelude.{◌≡◌};
ghost use Rattle.gn_kinds.specs.Names as names;

use crate::row::SocketKind;
use gn_value::Place;

/// The name of a kind, as a tree has it.
pub fn kind_name(kind: SocketKind) -> &'static str
    ensures { result.now ≡ names.kind_name kind }
{
    match kind {
        SocketKind::Truth => "truth",
        SocketKind::Int => "int",
        SocketKind::Fixed => "fixed",
        SocketKind::Vector => "vector",
        SocketKind::Geometry => "geometry",
    }
}

/// The name of a place, as a tree has it.
pub fn place_name(place: Place) -> &'static str
    ensures { result.now ≡ names.place_name place }
{
    match place {
        Place::Point => "point",
        Place::Edge => "edge",
        Place::Face => "face",
        Place::Corner => "corner",
        Place::Cloud => "cloud",
        Place::Instance => "instance",
    }
}

/// The one of these kinds that has the name.
pub fn find_kind(kinds: &[SocketKind], name: &str) -> Option<SocketKind>
    ensures { result ≡ names.kind_named kinds.now name.now }
{
    for kind in kinds {
        if kind_name(*kind) == name {
            return Some(*kind);
        }
    }
    None
}

/// The one of these places that has the name.
pub fn find_place(places: &[Place], name: &str) -> Option<Place>
    ensures { result ≡ names.place_named places.now name.now }
{
    for place in places {
        if place_name(*place) == name {
            return Some(*place);
        }
    }
    None
}
