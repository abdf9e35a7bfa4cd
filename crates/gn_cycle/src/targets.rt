ghost use Rattle.std.specs.Prelude.{◌≡◌};
ghost use Rattle.gn_cycle.specs.Graph as graph;
ghost use Rattle.gn_cycle.specs.Graph.{lists};

/// The targets of a node; none of one that isn't there.
pub(crate) fn targets_of(targets: &[Vec<usize>], node: usize) -> &[usize]
    ensures { result.now ≡ graph.targets (lists targets.now) node }
{
    match targets.get(node) {
        Some(list) => list.as_slice(),
        None => &[],
    }
}
