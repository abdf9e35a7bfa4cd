ghost use Rattle.std.specs.Prelude.{◌≡◌, ◌<◌, length, All, IfOk, IfErr, OnOk, OnErr};
ghost use Rattle.gn_plain.specs.Geometry.{is_loose};
ghost use Rattle.gn_plain.specs.Topology.{IsValid, IsNumbered};
ghost use Rattle.gn_geom.specs.Meshes.{topology, topology_of, plain_of, HasTopology};
ghost use Rattle.gn_geom.specs.Meshes.{AreLoose, IsSole, Moves};
ghost use Rattle.gn_geom.specs.Faults.{IsPartsFault};

use crate::checks::are_parts;
use gn_memory::Memory;
use gn_shared::{SharedArray, USERS};
use gn_value::V3;
use gn_value::op::Topology;
use std::alloc::Global;
use std::marker::Model;
use thiserror::Error;

/// A mesh: vertices, edges between them, and faces whose corners go along edges.
#[derive(Drop)]
pub struct Mesh {
    points: SharedArray<V3, USERS>,
    edges: SharedArray<(u32, u32), USERS>,
    faces: SharedArray<u32, USERS>,
    corner_points: SharedArray<u32, USERS>,
    corner_edges: SharedArray<u32, USERS>,
    loose: SharedArray<bool, USERS>,
}

impl Model for Mesh {
    ghost use Rattle.gn_geom.specs.Meshes.{MeshArrays, IsMesh};

    ghost Value = { MeshArrays };

    ghost view = { λ m. record {
      points = m.points;
      edges = m.edges;
      faces = m.faces;
      corner_points = m.corner_points;
      corner_edges = m.corner_edges;
      loose = m.loose;
    } };

    ghost invariant = { λ m. IsMesh (record {
      points = m.points;
      edges = m.edges;
      faces = m.faces;
      corner_points = m.corner_points;
      corner_edges = m.corner_edges;
      loose = m.loose;
    }) };
}

/// Why no mesh was made of lists.
#[derive(Clone, Copy, Debug, PartialEq, Eq, Error)]
pub enum PartsFault {
    /// They are not those of a mesh.
    #[error("these lists are not those of a mesh")]
    Invalid,
    /// There was no memory for it.
    #[error("out of memory")]
    Memory,
}

impl From<Memory> for PartsFault {
    ghost use Rattle.std.specs.Prelude.{◌≡◌};
    ghost use Rattle.gn_geom.specs.declared.mesh.PartsFault.TheVariants.{Memory};

    ghost from_gives = { λ _ fault. fault ≡ Memory };

    fn from(_: Memory) -> Self {
        PartsFault::Memory
    }
}

/// An array with one handle.
fn array<T: Drop>(items: Vec<T>) -> Result<SharedArray<T, USERS>, Memory>
    ensures { IfOk result (λ a. (a.items ≡ items.items) × (a.parts ≡ USERS)) }
{
    match SharedArray::new(items) {
        Ok(array) => Ok(array),
        Err(_) => Err(Memory),
    }
}

/// For each edge whether no corner has it.
fn loose_edges(alloc: Global, count: usize, corner_edges: &[u32]) -> Result<Vec<bool>, Memory>
    requires { All (λ e. e < count) corner_edges.now }
    ensures { IfOk result (λ loose. AreLoose loose.items count corner_edges.now) }
{
    let mut loose = Vec::new(alloc);
    loose.resize(count, true)?;
    for edge in corner_edges {
        loose[*edge as usize] = false;
    }
    Ok(loose)
}

impl Mesh {
    /// The mesh of these lists: where the vertices are, the two vertices of each edge, where the
    /// corners of each face begin with the number of corners at last, and the vertex and the edge
    /// of each corner.
    ///
    /// `Invalid` comes exactly where a number is out of range, an edge is there twice or does not
    /// have its lesser vertex first, the offsets do not rise from 0 by at least 3 to the number of
    /// corners, there are not as many vertices as edges of corners, a face names a vertex twice, or
    /// the edge of a corner does not join its vertex and that of the next corner. Each list has
    /// fewer than 2^32 members.
    pub fn from_parts(
        alloc: Global,
        points: Vec<V3>,
        edges: Vec<(u32, u32)>,
        faces: Vec<u32>,
        corner_points: Vec<u32>,
        corner_edges: Vec<u32>,
    ) -> Result<Mesh, PartsFault>
        requires numbered { IsNumbered (topology points.items edges.items faces.items
            corner_points.items corner_edges.items) }
        ensures valid { OnOk result (IsValid (topology points.items edges.items faces.items
            corner_points.items corner_edges.items)) }
        ensures invalid { IfErr result (IsPartsFault (topology points.items edges.items faces.items
            corner_points.items corner_edges.items)) }
        ensures points { IfOk result (λ m. m.points.items ≡ points.items) }
        ensures topology { IfOk result (HasTopology (topology points.items edges.items faces.items
            corner_points.items corner_edges.items)) }
        ensures sole { IfOk result IsSole }
    {
        let is_mesh = are_parts(
            alloc,
            points.len(),
            &edges,
            &faces,
            &corner_points,
            &corner_edges,
        )?;
        if !is_mesh {
            return Err(PartsFault::Invalid);
        }
        let mesh = Mesh::from_valid_parts(
            alloc,
            points,
            edges,
            faces,
            corner_points,
            corner_edges,
        )?;
        Ok(mesh)
    }

    /// The mesh of lists as `from_parts` takes them, which are known to be those of a mesh: they
    /// are not checked again.
    pub fn from_valid_parts(
        alloc: Global,
        points: Vec<V3>,
        edges: Vec<(u32, u32)>,
        faces: Vec<u32>,
        corner_points: Vec<u32>,
        corner_edges: Vec<u32>,
    ) -> Result<Mesh, Memory>
        requires valid { IsValid (topology points.items edges.items faces.items
            corner_points.items corner_edges.items) }
        requires numbered { IsNumbered (topology points.items edges.items faces.items
            corner_points.items corner_edges.items) }
        ensures points { IfOk result (λ m. m.points.items ≡ points.items) }
        ensures topology { IfOk result (HasTopology (topology points.items edges.items faces.items
            corner_points.items corner_edges.items)) }
        ensures sole { IfOk result IsSole }
    {
        let loose = loose_edges(alloc, edges.len(), &corner_edges)?;
        Ok(Mesh {
            points: array(points)?,
            edges: array(edges)?,
            faces: array(faces)?,
            corner_points: array(corner_points)?,
            corner_edges: array(corner_edges)?,
            loose: array(loose)?,
        })
    }

    /// Where the vertices are.
    pub fn points(&self) -> &[V3]
        ensures { result.now ≡ self.now.points.items }
    {
        self.points.items()
    }

    /// Puts the vertices at these positions, one for each. Want of memory changes nothing.
    pub fn set_points(&mut self, points: Vec<V3>) -> Result<(), Memory>
        requires { length points.items ≡ length self.old.points.items }
        ensures moved { OnOk result (Moves points.items self.old self.new) }
        ensures refused { OnErr result (self.new ≡ self.old) }
    {
        let points = array(points)?;
        self.points = points;
        Ok(())
    }

    /// Whether no face has the edge.
    pub fn loose(&self, edge: u32) -> bool
        requires { edge < length self.now.edges.items }
        ensures { result ≡ is_loose (plain_of self.now) edge }
    {
        self.loose.items()[edge as usize]
    }

    /// How the vertices, edges, corners and faces hang together.
    pub fn topology(&self) -> Topology<'_>
        ensures points { result.points ≡ length self.now.points.items }
        ensures edges { result.edges.now ≡ self.now.edges.items }
        ensures corner_points { result.corner_points.now ≡ self.now.corner_points.items }
        ensures corner_edges { result.corner_edges.now ≡ self.now.corner_edges.items }
        ensures faces { result.faces.now ≡ self.now.faces.items }
        ensures valid { IsValid (topology_of self.now) }
        ensures numbered { IsNumbered (topology_of self.now) }
    {
        Topology {
            points: self.points.items().len() as u32,
            edges: self.edges.items(),
            corner_points: self.corner_points.items(),
            corner_edges: self.corner_edges.items(),
            faces: self.faces.items(),
        }
    }
}
