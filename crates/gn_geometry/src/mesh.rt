//! A mesh in shared arrays, with columns.
ghost use Rattle.std.specs.Prelude.{◌≡◌, ◌<◌, [], None, length, is_some, IfSome, IfNone, IfOk, IfErr, OnOk, OnErr};
ghost use Rattle.gn_plain.specs.Columns.{count_of_values, entry_named, with_entry, without_entry};
ghost use Rattle.gn_plain.specs.Geometry.{count_in, empty_shape, is_loose};
ghost use Rattle.gn_plain.specs.Topology.{IsNumbered, IsValid};
ghost use Rattle.gn_attr.specs.Names.{plain_name};
ghost use Rattle.gn_attr.specs.Handles as handles;
ghost use Rattle.gn_attr.specs.Handles.{Owns};
ghost use Rattle.gn_attr.specs.Columns.{values_of};
ghost use Rattle.gn_attr.specs.Writing.{CanTake, IsWritten};
ghost use Rattle.gn_geom.specs.Meshes.{HasTopology, plain_of, topology, topology_of};
ghost use Rattle.gn_geometry.specs.Notes.{noted_each, NotesFirst};
ghost use Rattle.gn_geometry.specs.Fits.{mesh_count, AreFitting, Fits};
ghost use Rattle.gn_geometry.specs.Meshes.{mesh_copies, plain_mesh, with_columns, with_points, IsSole, IsTwinMesh, KeepsMesh};

use crate::arrays::Arrays;
use gn_attr::array::own;
use gn_attr::{Column, Columns, Name, NoSpace};
use gn_memory::Memory;
use gn_shared::Meter;
use gn_value::op::Topology;
use gn_value::{Place, V3};
use std::alloc::Global;
use std::marker::Model;

/// A mesh: vertices, edges between them, faces whose corners go along edges, and columns.
#[derive(Drop)]
pub struct Mesh {
    pub(crate) arrays: Arrays,
    columns: Columns,
}

impl Model for Mesh {
    ghost use Rattle.gn_geometry.specs.Meshes.{MeshView, IsColumned, arrays_of};

    ghost Value = { MeshView };

    ghost view = { λ m. record { shape = arrays_of m.arrays; columns = m.columns } };

    ghost invariant = { λ m. IsColumned (record { shape = arrays_of m.arrays; columns = m.columns }) };
}

impl Mesh {
    /// The mesh of these lists, without columns: where the vertices are, the two vertices of each
    /// edge, where the corners of each face begin with the number of corners at last, and the vertex
    /// and the edge of each corner. They are known to be those of a mesh.
    pub fn from_valid_parts(
        alloc: Global,
        points: Vec<V3>,
        edges: Vec<(u32, u32)>,
        faces: Vec<u32>,
        corner_points: Vec<u32>,
        corner_edges: Vec<u32>,
    ) -> Result<Mesh, Memory>
        requires valid { IsValid (topology points.items edges.items faces.items
            corner_points.items corner_edges.items) }
        requires numbered { IsNumbered (topology points.items edges.items faces.items
            corner_points.items corner_edges.items) }
        ensures points { IfOk result (λ m. m.shape.points.items ≡ points.items) }
        ensures topology { IfOk result (λ m. HasTopology (topology points.items edges.items faces.items
            corner_points.items corner_edges.items) m.shape) }
        ensures columns { IfOk result (λ m. m.columns ≡ []) }
        ensures sole { IfOk result IsSole }
    {
        let arrays = Arrays::from_lists(alloc, points, edges, faces, corner_points, corner_edges)?;
        Ok(Mesh {
            arrays,
            columns: Columns::new(alloc),
        })
    }

    /// The mesh that has nothing.
    pub fn empty(alloc: Global) -> Result<Mesh, Memory>
        ensures empty { IfOk result (λ m. plain_mesh m ≡ record { shape = empty_shape; columns = [] }) }
        ensures sole { IfOk result IsSole }
    {
        let mut faces = Vec::new(alloc);
        faces.push(0)?;
        Mesh::from_valid_parts(
            alloc,
            Vec::new(alloc),
            Vec::new(alloc),
            faces,
            Vec::new(alloc),
            Vec::new(alloc),
        )
    }

    /// Where the vertices are.
    pub fn points(&self) -> &[V3]
        ensures { result.now ≡ self.now.shape.points.items }
    {
        self.arrays.points.items()
    }

    /// Makes the handle on the positions the only one of its block, so that `sole_points` lends
    /// them: where the block has other handles, by a copy, which is noted.
    pub fn own_points<L>(&mut self, alloc: Global, meter: &mut Meter<L>) -> Result<(), Memory>
        ensures others { self.new ≡ with_points self.old self.new.shape.points }
        ensures items { self.new.shape.points.items ≡ self.old.shape.points.items }
        ensures sole { OnOk result (handles.IsSole self.new.shape.points) }
        ensures noted { OnOk result (Owns self.old.shape.points self.new.shape.points meter.old meter.new) }
        ensures refused { OnErr result ((self.new ≡ self.old) × (meter.new ≡ meter.old)) }
    {
        own(alloc, &mut self.arrays.points, meter)
    }

    /// Whether no face has the edge.
    pub fn loose(&self, edge: u32) -> bool
        requires { edge < length self.now.shape.edges.items }
        ensures { result ≡ is_loose (plain_of self.now.shape) edge }
    {
        self.arrays.loose.items()[edge as usize]
    }

    /// How the vertices, edges, corners and faces hang together.
    pub fn topology(&self) -> Topology<'_>
        ensures points { result.points ≡ length self.now.shape.points.items }
        ensures edges { result.edges.now ≡ self.now.shape.edges.items }
        ensures corner_points { result.corner_points.now ≡ self.now.shape.corner_points.items }
        ensures corner_edges { result.corner_edges.now ≡ self.now.shape.corner_edges.items }
        ensures faces { result.faces.now ≡ self.now.shape.faces.items }
        ensures valid { IsValid (topology_of self.now.shape) }
        ensures numbered { IsNumbered (topology_of self.now.shape) }
    {
        Topology {
            points: self.arrays.points.items().len() as u32,
            edges: self.arrays.edges.items(),
            corner_points: self.arrays.corner_points.items(),
            corner_edges: self.arrays.corner_edges.items(),
            faces: self.arrays.faces.items(),
        }
    }

    /// How many elements the mesh has on a place; 0 on a place that is none of a mesh.
    pub fn count(&self, place: Place) -> u64
        ensures { result ≡ count_in (plain_of self.now.shape) place }
    {
        match place {
            Place::Point => self.arrays.points.items().len() as u64,
            Place::Edge => self.arrays.edges.items().len() as u64,
            Place::Face => self.arrays.faces.items().len().saturating_sub(1) as u64,
            Place::Corner => self.arrays.corner_points.items().len() as u64,
            Place::Cloud | Place::Instance => 0,
        }
    }

    /// The columns. Each has a value for each element of its place, which is one of a mesh.
    pub fn columns(&self) -> &Columns
        ensures columns { result.now ≡ self.now.columns }
        ensures fit { AreFitting (mesh_count (plain_of self.now.shape)) result.now }
    {
        &self.columns
    }

    /// Puts columns in place of those that are there. Condition: they fit.
    pub fn set_columns(&mut self, columns: Columns)
        requires { AreFitting (mesh_count (plain_of self.old.shape)) columns }
        ensures { self.new ≡ with_columns self.old columns }
    {
        self.columns = columns;
    }

    /// Puts a column under a name. A new name goes last, and a known one keeps its number. A column
    /// of a known name takes no memory.
    ///
    /// Condition: the place is one of a mesh, and the column has a value for each of its elements.
    pub fn set_column(&mut self, name: Name, place: Place, column: Column) -> Result<(), NoSpace>
        requires { Fits (mesh_count (plain_of self.old.shape)) place column }
        ensures ok { OnOk result (self.new ≡ with_columns self.old (with_entry (record { name = plain_name name; place = place; column = column }) self.old.columns)) }
        ensures is_new { OnErr result (entry_named (plain_name name) self.old.columns ≡ None) }
        ensures refused { OnErr result (self.new ≡ self.old) }
        ensures handed_back { IfErr result (λ e. (e.name ≡ name) × (e.column ≡ column)) }
    {
        self.columns.set(name, place, column)
    }

    /// Takes the column under a name away, and returns whether there was one. The columns behind it
    /// close up.
    pub fn remove_column(&mut self, name: &Name) -> bool
        ensures found { result ≡ is_some (entry_named (plain_name name.now) self.old.columns) }
        ensures removed { self.new ≡ with_columns self.old (without_entry (plain_name name.now) self.old.columns) }
    {
        self.columns.remove(name)
    }

    /// Puts values over those of the column under a name, where they are selected. The array is
    /// copied first where its block has other handles, and one copy is then noted.
    ///
    /// `None` comes exactly where there is no such name. Condition: the column of that name has the
    /// kind and the number of these values, and there is one truth of `selected` for each value.
    pub fn write_column<L>(
        &mut self,
        name: &Name,
        values: &Column,
        selected: &[bool],
        meter: &mut Meter<L>,
    ) -> Option<Result<(), Memory>>
        requires alike { CanTake (plain_name name.now) (values_of values.now) self.old.columns }
        requires selected { length selected.now ≡ count_of_values (values_of values.now) }
        ensures found { is_some result ≡ is_some (entry_named (plain_name name.now) self.old.columns) }
        ensures others { self.new ≡ with_columns self.old self.new.columns }
        ensures absent { IfNone result ((self.new ≡ self.old) × (meter.new ≡ meter.old)) }
        ensures written { IfSome result (λ r. OnOk r (IsWritten (plain_name name.now) selected.now (values_of values.now) self.old.columns self.new.columns meter.old meter.new)) }
        ensures refused { IfSome result (λ r. OnErr r ((self.new ≡ self.old) × (meter.new ≡ meter.old))) }
    {
        self.columns.write_column(name, values, selected, meter)
    }

    /// The same mesh once more: each array whose handle has more than one part is shared, and any
    /// other is copied, which is noted.
    pub fn second<L>(&mut self, alloc: Global, meter: &mut Meter<L>) -> Result<Mesh, Memory>
        ensures kept { KeepsMesh self.old self.new }
        ensures twin { IfOk result (IsTwinMesh self.old) }
        ensures noted { OnOk result (meter.new ≡ noted_each (mesh_copies self.old) meter.old) }
        ensures refused { OnErr result (NotesFirst (mesh_copies self.old) meter.old meter.new) }
    {
        let arrays = self.arrays.second(alloc, meter)?;
        let columns = self.columns.second(meter)?;
        Ok(Mesh { arrays, columns })
    }
}
