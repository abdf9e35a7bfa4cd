// The groups of elements.
ghost use Rattle.std.specs.Prelude.{◌<◌, ◌^◌, length, IfOk};
ghost use Rattle.gn_elsewhere.specs.Sums.{AreNumbered};

use gn_memory::Memory;
use indexmap::IndexSet;
use std::alloc::Global;

/// The number of each element's group, and how many groups there are.
#[derive(Drop)]
pub(crate) struct Groups {
    pub(crate) of: Vec<u32>,
    pub(crate) count: usize,
}

/// Numbers the groups of elements, in the order in which they come.
pub(crate) fn numbered(alloc: Global, groups: &[i32]) -> Result<Groups, Memory>
    requires { length groups.now < 2 ^ 32 }
    ensures { IfOk result (λ g. AreNumbered groups.now g.count g.of.items) }
{
    let mut seen = IndexSet::new(alloc);
    let mut of = Vec::with_capacity(alloc, groups.len())?;
    for group in groups {
        let (number, _) = seen.insert_full(*group)?;
        of.push(number as u32)?;
    }
    let count = seen.len();
    Ok(Groups { of, count })
}
