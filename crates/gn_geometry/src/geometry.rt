//! Geometry whole, and instances of geometries. The two lead back to each other.
ghost use Rattle.std.specs.Prelude.{◌≡◌, ◌<◌, ◌-◌, ◌^◌, min, [], None, length, All, is_some, IfOk, IfErr, OnOk, OnErr};
ghost use Rattle.gn_plain.specs.Columns.{count_of_values, entry_named, with_entry, without_entry};
ghost use Rattle.gn_plain.specs.Geometry as plain;
ghost use Rattle.gn_value.specs.declared.value.Place.TheVariants as place;
ghost use Rattle.gn_attr.specs.Names.{plain_name};
ghost use Rattle.gn_attr.specs.Columns.{values_of};
ghost use Rattle.gn_geometry.specs.Fits.{AreFitting};
ghost use Rattle.gn_geometry.specs.Notes.{noted_each, NotesFirst};
ghost use Rattle.gn_geometry.specs.Geometries.{columns_in, depth, geometry_copies, instance_count, instances, items_in, parts_in, parts_of, plain_geometry, with_columns, with_transform, IsSole, IsTwinGeometry, KeepsGeometry};

use crate::cloud::Cloud;
use crate::mesh::Mesh;
use crate::twins::second_geometry;
use gn_attr::{Column, Columns, Name, NoSpace};
use gn_memory::Memory;
use gn_shared::Meter;
use gn_value::{Place, V3};
use std::alloc::Global;
use std::marker::Model;

/// A linear map by its rows, and then a translation.
#[derive(Clone, Copy, Debug, PartialEq, Eq)]
pub struct Transform {
    pub rows: [V3; 3],
    pub at: V3,
}

/// A mesh, a cloud of points, and instances of geometries.
#[cycle(geometry)]
#[derive(Drop)]
pub struct Geometry {
    pub mesh: Mesh,
    pub cloud: Cloud,
    pub instances: Instances,
}

/// Instances: each has a transform, and places a part, which it names by its number.
#[cycle(geometry)]
#[derive(Drop)]
pub struct Instances {
    pub(crate) parts: Vec<Geometry>,
    pub(crate) items: Vec<(Transform, u32)>,
    pub(crate) columns: Columns,
}

impl Model for Instances {
    ghost use Rattle.std.specs.Prelude.{length};
    ghost use Rattle.gn_geometry.specs.Geometries.{ArePlaced, InstancesView, instances, parts_of};
    ghost use Rattle.gn_geometry.specs.Codes.{instances_code};

    ghost Value = { InstancesView };

    ghost coded = { instances_code };

    ghost view = { λ a. instances (parts_of a.parts.items) a.items.items a.columns };

    ghost invariant = { λ a. ArePlaced (length a.parts.items) a.items.items a.columns };

    ghost use Rattle.gn_geometry.specs.Geometries.{sizes_in, most_le};

    ghost size = { sizes_in };

    ghost use Rattle.std.proofs.Common.{arith};

    ghost size_decreases = { λ a h. omega (arith, most_le a.parts.items) };
}

impl Model for Geometry {
    ghost use Rattle.gn_geometry.specs.Geometries.{GeometryView, geometry};
    ghost use Rattle.gn_geometry.specs.Codes.{geometry_code};

    ghost Value = { GeometryView };

    ghost coded = { geometry_code };

    ghost view = { λ a. geometry a.mesh a.cloud a.instances };

    ghost use Rattle.gn_geometry.specs.Geometries.{node_count};

    ghost size = { node_count };

    ghost use Rattle.std.proofs.Common.{arith};

    ghost size_decreases = { λ a h. omega arith };
}

impl Geometry {
    /// The geometry that has nothing.
    pub fn empty(alloc: Global) -> Result<Geometry, Memory>
        ensures empty { IfOk result (λ g. plain_geometry g ≡ plain.empty) }
        ensures sole { IfOk result IsSole }
    {
        Ok(Geometry {
            mesh: Mesh::empty(alloc)?,
            cloud: Cloud::from_points(alloc, Vec::new(alloc))?,
            instances: Instances::from_parts(alloc, Vec::new(alloc), Vec::new(alloc)),
        })
    }

    /// How many elements the geometry has on a place.
    pub fn count(&self, place: Place) -> u64
        ensures { result ≡ plain.count (plain_geometry self.now) place }
    {
        match place {
            Place::Cloud => self.cloud.points().len() as u64,
            Place::Instance => self.instances.items().len() as u64,
            _ => self.mesh.count(place),
        }
    }

    /// How deep instances are nested: 0 without parts, and 2^32 - 1 where it is more.
    pub fn depth(&self) -> u32
        ensures { result ≡ min (depth self.now) (2 ^ 32 - 1) }
    {
        let instances = &self.instances;
        let mut most = 0;
        for part in &instances.parts {
            let below = part.depth().saturating_add(1);
            if most < below {
                most = below;
            }
        }
        most
    }

    /// The same geometry once more: each array whose handle has more than one part is shared, and
    /// any other is copied, which is noted.
    pub fn second<L>(&mut self, alloc: Global, meter: &mut Meter<L>) -> Result<Geometry, Memory>
        ensures kept { KeepsGeometry self.old self.new }
        ensures twin { IfOk result (IsTwinGeometry self.old) }
        ensures noted { OnOk result (meter.new ≡ noted_each (geometry_copies self.old) meter.old) }
        ensures refused { OnErr result (NotesFirst (geometry_copies self.old) meter.old meter.new) }
    {
        second_geometry(alloc, self, meter)
    }
}

impl Instances {
    /// Instances of these parts, without columns: for each its transform, and the number of the part
    /// that it places.
    ///
    /// Condition: each number names a part, and both lists have fewer than 2^32 members.
    pub fn from_parts(
        alloc: Global,
        parts: Vec<Geometry>,
        items: Vec<(Transform, u32)>,
    ) -> Instances
        requires named { All (λ i. i.1 < length parts.items) items.items }
        requires few_parts { length parts.items < 2 ^ 32 }
        requires few_items { length items.items < 2 ^ 32 }
        ensures { result ≡ instances (parts_of parts.items) items.items [] }
    {
        Instances {
            parts,
            items,
            columns: Columns::new(alloc),
        }
    }

    /// The transform of each instance, and the number of the part that it places.
    pub fn items(&self) -> &[(Transform, u32)]
        ensures items { result.now ≡ items_in self.now }
        ensures named { All (λ i. i.1 < length (parts_in self.now)) result.now }
        ensures few { length result.now < 2 ^ 32 }
    {
        self.items.as_slice()
    }

    /// The parts.
    #[tactic(auto, using(crate::specs::Geometries::list_of_parts))]
    pub fn parts(&self) -> &[Geometry]
        ensures parts { result.now ≡ parts_in self.now }
        ensures few { length result.now < 2 ^ 32 }
    {
        self.parts.as_slice()
    }

    /// Gives an instance another transform. Condition: there is such an instance.
    pub fn set_transform(&mut self, item: u32, to: Transform)
        requires { item < length (items_in self.old) }
        ensures { self.new ≡ with_transform self.old item to }
    {
        self.items[item as usize].0 = to;
    }

    /// The parts and the items. The columns are dropped.
    pub fn into_parts(self) -> (Vec<Geometry>, Vec<(Transform, u32)>)
        ensures parts { result.0.items ≡ parts_in self }
        ensures items { result.1.items ≡ items_in self }
        ensures named { All (λ i. i.1 < length result.0.items) result.1.items }
    {
        (self.parts, self.items)
    }

    /// The columns. Each has a value for each instance.
    pub fn columns(&self) -> &Columns
        ensures columns { result.now ≡ columns_in self.now }
        ensures fit { AreFitting (instance_count (length (items_in self.now))) result.now }
    {
        &self.columns
    }

    /// Puts columns in place of those that are there. Condition: they fit.
    pub fn set_columns(&mut self, columns: Columns)
        requires { AreFitting (instance_count (length (items_in self.old))) columns }
        ensures { self.new ≡ with_columns self.old columns }
    {
        self.columns = columns;
    }

    /// Puts a column under a name. A new name goes last, and a known one keeps its number. A column
    /// of a known name takes no memory.
    ///
    /// Condition: the column has a value for each instance.
    pub fn set_column(&mut self, name: Name, column: Column) -> Result<(), NoSpace>
        requires { length (items_in self.old) ≡ count_of_values (values_of column) }
        ensures ok { OnOk result (self.new ≡ with_columns self.old (with_entry (record { name = plain_name name; place = place.Instance; column = column }) (columns_in self.old))) }
        ensures is_new { OnErr result (entry_named (plain_name name) (columns_in self.old) ≡ None) }
        ensures refused { OnErr result (self.new ≡ self.old) }
        ensures handed_back { IfErr result (λ e. (e.name ≡ name) × (e.column ≡ column)) }
    {
        self.columns.set(name, Place::Instance, column)
    }

    /// Takes the column under a name away, and returns whether there was one. The columns behind it
    /// close up.
    pub fn remove_column(&mut self, name: &Name) -> bool
        ensures found { result ≡ is_some (entry_named (plain_name name.now) (columns_in self.old)) }
        ensures removed { self.new ≡ with_columns self.old (without_entry (plain_name name.now) (columns_in self.old)) }
    {
        self.columns.remove(name)
    }
}
