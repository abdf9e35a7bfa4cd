//! Positions that are lent to be written to. The clauses name the rows of `Mesh` and `Cloud`, so
//! they are in a file of their own.
ghost use Rattle.std.specs.Prelude.{◌≡◌};
ghost use Rattle.std.specs.Borrow.{sem};
ghost use Rattle.gn_attr.specs.Handles.{IsSole};
ghost use Rattle.gn_geometry.specs.Lending.{LendsPoints, LendsVertices};

use crate::cloud::Cloud;
use crate::mesh::Mesh;
use gn_value::V3;

impl Mesh {
    /// Where the vertices are, to write to. Condition: the handle on them is the only one of its
    /// block.
    pub fn sole_points(&mut self) -> &mut [V3]
        requires { IsSole self.old.shape.points }
        ensures* writes_back { sem 𝓛 (LendsVertices self.entry result) }
        ensures value { result.now ≡ self.old.shape.points.items }
    {
        self.arrays.points.sole_items()
    }
}

impl Cloud {
    /// Where the points are, to write to. Condition: the handle on them is the only one of its
    /// block.
    pub fn sole_points(&mut self) -> &mut [V3]
        requires { IsSole self.old.points }
        ensures* writes_back { sem 𝓛 (LendsPoints self.entry result) }
        ensures value { result.now ≡ self.old.points.items }
    {
        self.points.sole_items()
    }
}
