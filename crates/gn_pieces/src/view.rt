//! Geometries as they go into a join.
ghost use Rattle.std.specs.Prelude.{◌≡◌, option_map};
ghost use Rattle.gn_plain.specs.Geometry.{count};
ghost use Rattle.gn_attr.specs.Columns.{plain_columns};
ghost use Rattle.gn_geometry.specs.Fits.{AreFitting};
ghost use Rattle.gn_geometry.specs.Geometries.{cloud_in, instances_in, mesh_in};
ghost use Rattle.gn_pieces.specs.Views.{columns_at, geometry_of, handed_on, has_one_place, is_place_of, own_place, part_of, places_of, shown};

use gn_attr::Columns;
use gn_geometry::{Cloud, Geometry, Instances, Mesh, Transform};
use gn_value::Place;

/// What of a geometry is joined.
#[derive(Clone, Copy)]
pub enum Component {
    Mesh,
    Cloud,
    Instances,
}

/// How an instance places a geometry: by its transform, and with the values that the columns of the
/// instances have at its number.
#[derive(Clone, Copy)]
pub struct Placing<'a> {
    pub transform: Transform,
    pub columns: &'a Columns,
    pub item: usize,
}

/// A geometry as it goes into a join: as it stands, or as an instance places it.
#[derive(Clone, Copy)]
pub struct View<'a> {
    pub geometry: &'a Geometry,
    pub placing: Option<Placing<'a>>,
}

impl Component {
    /// The place whose elements an instance hands its columns to, where it hands them on.
    pub(crate) fn own_place(self) -> Place
        ensures { result ≡ own_place self }
    {
        match self {
            Component::Mesh => Place::Point,
            Component::Cloud => Place::Cloud,
            Component::Instances => Place::Instance,
        }
    }

    /// Whether it has elements of one place alone.
    pub(crate) fn has_one_place(self) -> bool
        ensures { result ≡ has_one_place self }
    {
        match self {
            Component::Mesh => false,
            Component::Cloud => true,
            Component::Instances => true,
        }
    }

    /// Whether a place is one of its own.
    fn has(self, place: Place) -> bool
        ensures { result ≡ is_place_of self place }
    {
        match self {
            Component::Mesh => match place {
                Place::Cloud => false,
                Place::Instance => false,
                _ => true,
            },
            Component::Cloud => Place::Cloud == place,
            Component::Instances => Place::Instance == place,
        }
    }
}

impl<'a> View<'a> {
    /// The mesh, where it is before it is moved.
    pub(crate) fn mesh(&self) -> &'a Mesh
        ensures { result.now ≡ mesh_in self.now.geometry.now }
    {
        let geometry = self.geometry;
        &geometry.mesh
    }

    /// The cloud, where it is before it is moved.
    pub(crate) fn cloud(&self) -> &'a Cloud
        ensures { result.now ≡ cloud_in self.now.geometry.now }
    {
        let geometry = self.geometry;
        &geometry.cloud
    }

    /// The instances, where they are before they are moved.
    fn instances(&self) -> &'a Instances
        ensures { result.now ≡ instances_in self.now.geometry.now }
    {
        let geometry = self.geometry;
        &geometry.instances
    }

    /// How many elements there are on a place.
    pub(crate) fn elements(&self, place: Place) -> u64
        ensures { result ≡ count (geometry_of self.now) place }
    {
        self.geometry.count(place)
    }

    /// How many elements a component has on a place; 0 on a place of another.
    pub(crate) fn count(&self, component: Component, place: Place) -> usize
        ensures { result ≡ (part_of component (geometry_of self.now)).component.count place }
    {
        if component.has(place) {
            self.elements(place) as usize
        } else {
            0
        }
    }

    /// The columns of a component, without those of the instance.
    pub(crate) fn own_columns(&self, component: Component) -> &'a Columns
        ensures columns { result.now ≡ columns_at component self.now.geometry.now }
        ensures fit { AreFitting (places_of component self.now.geometry.now) result.now }
    {
        match component {
            Component::Mesh => self.mesh().columns(),
            Component::Cloud => self.cloud().columns(),
            Component::Instances => self.instances().columns(),
        }
    }

    /// The columns that an instance hands on to a component, and the instance's number. `None` comes
    /// where no instance places the geometry, and where there is no element to hand them to.
    pub(crate) fn handed(&self, component: Component) -> Option<(&'a Columns, usize)>
        ensures { (part_of component (geometry_of self.now)).columns ≡ handed_on (option_map shown result) (own_place component) ((part_of component (geometry_of self.now)).component.count (own_place component)) (plain_columns (columns_at component self.now.geometry.now)) }
    {
        let placing = self.placing?;
        let place = component.own_place();
        if place == Place::Instance {
            return None;
        }
        if self.count(component, place) == 0 {
            return None;
        }
        Some((placing.columns, placing.item))
    }
}
