// Sets of places.
ghost use Rattle.std.specs.Prelude.{◌≡◌, true};
ghost use Rattle.gn_value.specs.declared.value.Place.{Place};
ghost use Rattle.gn_schedule.specs.Asked.{has_place, no_places};

use gn_value::Place;

/// Some of the places.
#[derive(Clone, Copy)]
pub struct Places {
    pub point: bool,
    pub edge: bool,
    pub face: bool,
    pub corner: bool,
    pub cloud: bool,
    pub instance: bool,
}

impl Places {
    /// None of them.
    pub fn none() -> Places
        ensures { result ≡ no_places }
    {
        Places {
            point: false,
            edge: false,
            face: false,
            corner: false,
            cloud: false,
            instance: false,
        }
    }

    /// One of them.
    pub fn one(place: Place) -> Places
        ensures { has_place result place ≡ true }
    {
        let none = Places::none();
        match place {
            Place::Point => Places {
                point: true,
                ..none
            },
            Place::Edge => Places { edge: true, ..none },
            Place::Face => Places { face: true, ..none },
            Place::Corner => Places {
                corner: true,
                ..none
            },
            Place::Cloud => Places {
                cloud: true,
                ..none
            },
            Place::Instance => Places {
                instance: true,
                ..none
            },
        }
    }

    /// Whether a place is one of them.
    pub fn has(self, place: Place) -> bool
        ensures { result ≡ has_place self place }
    {
        match place {
            Place::Point => self.point,
            Place::Edge => self.edge,
            Place::Face => self.face,
            Place::Corner => self.corner,
            Place::Cloud => self.cloud,
            Place::Instance => self.instance,
        }
    }

    /// These and others.
    pub fn with(self, other: Places) -> Places
        ensures these { (p : Place) → has_place self p ≡ true → has_place result p ≡ true }
        ensures others { (p : Place) → has_place other p ≡ true → has_place result p ≡ true }
    {
        Places {
            point: self.point || other.point,
            edge: self.edge || other.edge,
            face: self.face || other.face,
            corner: self.corner || other.corner,
            cloud: self.cloud || other.cloud,
            instance: self.instance || other.instance,
        }
    }
}
