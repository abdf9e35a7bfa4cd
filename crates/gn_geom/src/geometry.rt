ghost use Rattle.std.specs.Prelude.{◌≡◌, IfOk};
ghost use Rattle.gn_plain.specs.Geometry.{empty};
ghost use Rattle.gn_geom.specs.Geometries.{plain_geometry, IsSole};

use crate::mesh::Mesh;
use gn_memory::Memory;
use std::alloc::Global;
use std::marker::Model;

/// A geometry: so far its mesh alone.
#[derive(Drop)]
pub struct Geometry {
    pub mesh: Mesh,
}

impl Model for Geometry {
    ghost use Rattle.gn_geom.specs.Geometries.{GeometryArrays};

    ghost Value = { GeometryArrays };

    ghost view = { λ g. record { mesh = g.mesh } };
}

impl Geometry {
    /// The geometry that has nothing.
    pub fn empty(alloc: Global) -> Result<Geometry, Memory>
        ensures empty { IfOk result (λ g. plain_geometry g ≡ empty) }
        ensures sole { IfOk result IsSole }
    {
        let mut faces = Vec::new(alloc);
        faces.push(0)?;
        let mesh = Mesh::from_valid_parts(
            alloc,
            Vec::new(alloc),
            Vec::new(alloc),
            faces,
            Vec::new(alloc),
            Vec::new(alloc),
        )?;
        Ok(Geometry { mesh })
    }
}
