ghost use Rattle.std.specs.Prelude.{◌≡◌};
ghost use Rattle.gn_plain.specs.Edges.{edge_between};
ghost use Rattle.gn_plain.specs.Topology.{edge_of};

/// The edge between two vertices: the lesser number, and then the greater.
#[inline(always)]
pub fn edge_between(a: u32, b: u32) -> (u32, u32)
    ensures { edge_of result ≡ edge_between a b }
{
    if b < a { (b, a) } else { (a, b) }
}
