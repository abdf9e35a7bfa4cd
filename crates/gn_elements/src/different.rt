ghost use Rattle.std.specs.Prelude.{◌≡◌, ◌∷◌, [], IfOk};
ghost use Rattle.gn_elements.specs.Read.{all_differ};

use gn_memory::Memory;
use std::alloc::Global;
use std::collections::BTreeSet;

/// Up to this number of vertices are compared with each other.
const FEW: usize = 16;

#[inline(always)]
fn three_differ(a: u32, b: u32, c: u32) -> bool
    ensures { result ≡ all_differ (a ∷ b ∷ c ∷ []) }
{
    b != a && c != a && c != b
}

#[inline(always)]
fn four_differ(a: u32, b: u32, c: u32, d: u32) -> bool
    ensures { result ≡ all_differ (a ∷ b ∷ c ∷ d ∷ []) }
{
    b != a && three_differ(a, c, d) && three_differ(b, c, d)
}

fn few_differ(vertices: &[u32]) -> bool
    ensures { result ≡ all_differ vertices.now }
{
    let mut rest = vertices;
    while let [first, others @ ..] = rest {
        if others.contains(first) {
            return false;
        }
        rest = others;
    }
    true
}

#[cold]
#[inline(never)]
fn many_differ(alloc: Global, vertices: &[u32]) -> Result<bool, Memory>
    ensures { IfOk result (λ differ. differ ≡ all_differ vertices.now) }
{
    let mut seen = BTreeSet::new(alloc);
    for vertex in vertices {
        if !seen.insert(*vertex)? {
            return Ok(false);
        }
    }
    Ok(true)
}

/// Whether no vertex is in a row twice.
#[inline(always)]
pub(crate) fn are_different(alloc: Global, vertices: &[u32]) -> Result<bool, Memory>
    ensures { IfOk result (λ differ. differ ≡ all_differ vertices.now) }
{
    match vertices {
        [a, b, c] => Ok(three_differ(*a, *b, *c)),
        [a, b, c, d] => Ok(four_differ(*a, *b, *c, *d)),
        _ if vertices.len() <= FEW => Ok(few_differ(vertices)),
        _ => many_differ(alloc, vertices),
    }
}
