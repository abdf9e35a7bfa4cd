ghost use Rattle.std.specs.Prelude.{◌≡◌, [], IfOk};
ghost use Rattle.gn_shapes.specs.Cuboids.{vertices_between, cuboid as cuboid_shape};
ghost use Rattle.gn_geometry.specs.Meshes.{plain_mesh, IsSole};

use gn_geometry::Mesh;
use gn_memory::Memory;
use gn_value::V3;
use std::alloc::Global;

/// The vertices, edges and corners of a cuboid by their numbers; they are the same for all.
const EDGES: [(u32, u32); 12] = [
    (0, 1),
    (1, 3),
    (2, 3),
    (0, 2),
    (4, 6),
    (6, 7),
    (5, 7),
    (4, 5),
    (0, 4),
    (1, 5),
    (3, 7),
    (2, 6),
];

const FACES: [u32; 7] = [0, 4, 8, 12, 16, 20, 24];

const CORNER_POINTS: [u32; 24] = [
    0, 1, 3, 2, 4, 6, 7, 5, 0, 4, 5, 1, 2, 3, 7, 6, 0, 2, 6, 4, 1, 5, 7, 3,
];

const CORNER_EDGES: [u32; 24] = [
    0, 1, 2, 3, 4, 5, 6, 7, 8, 7, 9, 0, 2, 10, 5, 11, 3, 11, 4, 8, 9, 6, 10, 1,
];

/// The vertices, by x, then by y, then by z.
fn points(low: V3, high: V3) -> [V3; 8]
    ensures { result ≡ vertices_between low high }
{
    let (l, h) = (low, high);
    let at = |x, y, z| V3 { x, y, z };
    [
        at(l.x, l.y, l.z),
        at(l.x, l.y, h.z),
        at(l.x, h.y, l.z),
        at(l.x, h.y, h.z),
        at(h.x, l.y, l.z),
        at(h.x, l.y, h.z),
        at(h.x, h.y, l.z),
        at(h.x, h.y, h.z),
    ]
}

/// The cuboid between two points, whose faces look outwards where `high` is above `low` on each axis.
pub fn cuboid(alloc: Global, low: V3, high: V3) -> Result<Mesh, Memory>
    ensures shape { IfOk result (λ m. plain_mesh m ≡ record { shape = cuboid_shape low high; columns = [] }) }
    ensures sole { IfOk result IsSole }
{
    let points = points(low, high).to_vec(alloc)?;
    Mesh::from_valid_parts(
        alloc,
        points,
        EDGES.to_vec(alloc)?,
        FACES.to_vec(alloc)?,
        CORNER_POINTS.to_vec(alloc)?,
        CORNER_EDGES.to_vec(alloc)?,
    )
}
