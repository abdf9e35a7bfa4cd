//! The arrays of a mesh's shape.
ghost use Rattle.std.specs.Prelude.{◌≡◌, ◌<◌, length, All, IfOk, OnOk, OnErr};
ghost use Rattle.gn_geom.specs.Meshes.{AreLoose, HasTopology, IsSole, topology};
ghost use Rattle.gn_geometry.specs.Notes.{noted_each, NotesFirst};
ghost use Rattle.gn_geometry.specs.Meshes.{arrays_of, shape_copies, IsTwinShape, KeepsShape};

use gn_attr::array::{array_of, second};
use gn_memory::Memory;
use gn_shared::{Meter, SharedArray, USERS};
use gn_value::V3;
use std::alloc::Global;

/// Where the vertices are, the two vertices of each edge, where the corners of each face begin, the
/// vertex and the edge of each corner, and for each edge whether no corner has it.
#[derive(Drop)]
pub(crate) struct Arrays {
    pub(crate) points: SharedArray<V3, USERS>,
    pub(crate) edges: SharedArray<(u32, u32), USERS>,
    pub(crate) faces: SharedArray<u32, USERS>,
    pub(crate) corner_points: SharedArray<u32, USERS>,
    pub(crate) corner_edges: SharedArray<u32, USERS>,
    pub(crate) loose: SharedArray<bool, USERS>,
}

/// For each edge whether no corner has it.
fn loose_edges(alloc: Global, count: usize, corner_edges: &[u32]) -> Result<Vec<bool>, Memory>
    requires { All (λ e. e < count) corner_edges.now }
    ensures { IfOk result (λ loose. AreLoose loose.items count corner_edges.now) }
{
    let mut loose = Vec::new(alloc);
    loose.resize(count, true)?;
    for edge in corner_edges {
        loose[*edge as usize] = false;
    }
    Ok(loose)
}

impl Arrays {
    /// The arrays of these lists. Each edge of a corner is one of the edges.
    pub(crate) fn from_lists(
        alloc: Global,
        points: Vec<V3>,
        edges: Vec<(u32, u32)>,
        faces: Vec<u32>,
        corner_points: Vec<u32>,
        corner_edges: Vec<u32>,
    ) -> Result<Arrays, Memory>
        requires { All (λ e. e < length edges.items) corner_edges.items }
        ensures points { IfOk result (λ a. a.points.items ≡ points.items) }
        ensures topology { IfOk result (λ a. HasTopology (topology points.items edges.items faces.items
            corner_points.items corner_edges.items) (arrays_of a)) }
        ensures loose { IfOk result (λ a. AreLoose a.loose.items (length edges.items) corner_edges.items) }
        ensures sole { IfOk result (λ a. IsSole (arrays_of a)) }
    {
        let loose = loose_edges(alloc, edges.len(), &corner_edges)?;
        Ok(Arrays {
            points: array_of(points)?,
            edges: array_of(edges)?,
            faces: array_of(faces)?,
            corner_points: array_of(corner_points)?,
            corner_edges: array_of(corner_edges)?,
            loose: array_of(loose)?,
        })
    }

    /// The same arrays once more: each whose handle has more than one part is shared, and any other
    /// is copied, which is noted.
    pub(crate) fn second<L>(
        &mut self,
        alloc: Global,
        meter: &mut Meter<L>,
    ) -> Result<Arrays, Memory>
        ensures kept { KeepsShape (arrays_of self.old) (arrays_of self.new) }
        ensures twin { IfOk result (λ twin. IsTwinShape (arrays_of self.old) (arrays_of twin)) }
        ensures noted { OnOk result (meter.new ≡ noted_each (shape_copies (arrays_of self.old)) meter.old) }
        ensures refused { OnErr result (NotesFirst (shape_copies (arrays_of self.old)) meter.old meter.new) }
    {
        let points = second(alloc, &mut self.points, meter)?;
        let edges = second(alloc, &mut self.edges, meter)?;
        let faces = second(alloc, &mut self.faces, meter)?;
        let corner_points = second(alloc, &mut self.corner_points, meter)?;
        let corner_edges = second(alloc, &mut self.corner_edges, meter)?;
        let loose = second(alloc, &mut self.loose, meter)?;
        Ok(Arrays {
            points,
            edges,
            faces,
            corner_points,
            corner_edges,
            loose,
        })
    }
}
