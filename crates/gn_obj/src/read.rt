ghost use Rattle.std.specs.Prelude.{◌≡◌, IfOk, IfErr, Ok};
ghost use Rattle.gn_plain.specs.Topology.{IsValid, IsNumbered, shape_of};
ghost use Rattle.gn_geom.specs.Meshes.{plain_of, IsSole};
ghost use Rattle.gn_elements.specs.Read.{mesh};
ghost use Rattle.gn_elements.specs.Faults.{IsFault};
ghost use Rattle.gn_obj.specs.Parts.{topology_read};

use gn_elements::{ObjFault, Parts, read_parts};
use gn_geom::Mesh;
use gn_memory::Memory;
use std::alloc::Global;

/// The mesh of parts that are those of one.
fn mesh_of_parts(alloc: Global, parts: Parts) -> Result<Mesh, Memory>
    requires valid { IsValid (topology_read parts) }
    requires numbered { IsNumbered (topology_read parts) }
    ensures mesh { IfOk result (λ m. plain_of m
        ≡ shape_of parts.points.items (topology_read parts)) }
    ensures sole { IfOk result IsSole }
{
    let edges = parts.edges.into_vec();
    Mesh::from_valid_parts(
        alloc,
        parts.points,
        edges,
        parts.faces,
        parts.corner_points,
        parts.corner_edges,
    )
}

/// Reads the mesh that an OBJ text spells.
///
/// `v x y z` is a vertex, `f` a face with at least three references, `l` a row of at least two, whose
/// neighbours have an edge where they differ, and `p` has at least one and makes nothing; other lines
/// are ignored. A reference is a number other than 0, perhaps with a sign, and what follows a slash
/// behind it is not read: k names the k-th vertex of the text, and -k the k-th one above the line,
/// counted upwards. A face that names a vertex twice makes nothing. The edges of the mesh are those
/// of rows and faces, each once, in the order in which they are first met.
///
/// The bytes are gone over once. The arrays of the mesh have no other handles.
///
/// # Errors
///
/// `Bad` where the text spells no mesh, with the first bad line and the least rule that it breaks:
/// 1, a `v` line has not three numbers; 2, a line has too few references; 3, a reference is not of
/// its form; 4, it names no vertex above its line; 5, there are then more than 2^23 vertices, edges,
/// faces or corners. `Memory` for want of memory.
pub fn read_obj(alloc: Global, bytes: &[u8]) -> Result<Mesh, ObjFault>
    ensures mesh { IfOk result (λ m. mesh bytes.now ≡ Ok (plain_of m)) }
    ensures fault { IfErr result (IsFault (mesh bytes.now)) }
    ensures sole { IfOk result IsSole }
{
    let parts = read_parts(alloc, bytes)?;
    Ok(mesh_of_parts(alloc, parts)?)
}
