ghost use Rattle.std.specs.Prelude.{◌≡◌};
ghost use Rattle.std.specs.Ordering.{is_lt};
ghost use Rattle.gn_node_set.specs.Paths.{path_before, PathsAreOrdered};

use gn_lazy::Path;

/// Whether the first path stands before the second, by node numbers and turns from the left, where no
/// turn stands before turn 0, and a path before those that go on from it. `Ord` of `Path` orders them so.
pub fn is_before(first: &Path, second: &Path) -> bool
    ensures before { result ≡ path_before first.now.steps.items second.now.steps.items }
    ensures by_ord { result ≡ is_lt (⟦<Path as Ord>⟧.cmp first.now second.now) }
{
    first.cmp(second).is_lt()
}

/// `path_before` is a strict total order: of two different paths just one stands before the other.
pub fn paths_are_ordered()
    ensures { PathsAreOrdered }
{}
