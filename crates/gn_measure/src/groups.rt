ghost use Rattle.std.specs.Prelude.{◌≡◌, [], IfOk, map};
ghost use Rattle.gn_tree.specs.Seen.{group_of};
ghost use Rattle.gn_rules.specs.Measures.{group_by_group};
ghost use Rattle.gn_rules.specs.Sockets.{group_names};
ghost use Rattle.gn_measure.specs.Capped.{capped_heights, capped_counts};

use crate::measure::{Known, counts, heights};
use gn_memory::Memory;
use gn_names::Names;
use gn_tree::Group;
use std::alloc::Global;

pub(crate) fn names_of<'a>(alloc: Global, list: &'a [Group]) -> Result<Vec<&'a str>, Memory>
    ensures { IfOk result (λ texts. map (λ text. text.now) texts.items ≡ group_names (map group_of list.now)) }
{
    let mut texts = Vec::with_capacity(alloc, list.len())?;
    for group in list {
        texts.push(group.name.as_str())?;
    }
    Ok(texts)
}

/// The nesting height of the highest node of each group, saturating at 2^64 - 1.
pub(crate) fn all_heights(
    alloc: Global,
    names: &Names<'_>,
    list: &[Group],
) -> Result<Vec<u64>, Memory>
    ensures { IfOk result (λ numbers. numbers.items ≡ group_by_group capped_heights names.now [] (map group_of list.now)) }
{
    let mut numbers = Vec::with_capacity(alloc, list.len())?;
    for group in list {
        let above = Known {
            names: &*names,
            numbers: numbers.as_slice(),
            above: numbers.len(),
        };
        let height = heights(&above, &group.nodes);
        numbers.push(height)?;
    }
    Ok(numbers)
}

/// The number of nodes of each group with the groups in it unfolded, saturating at 2^64 - 1.
pub(crate) fn all_counts(
    alloc: Global,
    names: &Names<'_>,
    list: &[Group],
) -> Result<Vec<u64>, Memory>
    ensures { IfOk result (λ numbers. numbers.items ≡ group_by_group capped_counts names.now [] (map group_of list.now)) }
{
    let mut numbers = Vec::with_capacity(alloc, list.len())?;
    for group in list {
        let above = Known {
            names: &*names,
            numbers: numbers.as_slice(),
            above: numbers.len(),
        };
        let count = counts(&above, &group.nodes);
        numbers.push(count)?;
    }
    Ok(numbers)
}
