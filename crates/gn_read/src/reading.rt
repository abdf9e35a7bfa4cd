ghost use Rattle.gn_read.specs.Answers.{Answers, Passes};
ghost use Rattle.gn_check.specs.Answers as check;

use crate::fault::TreeFault;
use gn_check::{CheckFault, GoodTree, check};
use gn_json::{JsonFault, read};
use std::alloc::Global;

/// A fault of the check as one of reading.
fn pass(checked: Result<GoodTree, CheckFault>) -> Result<GoodTree, TreeFault>
    ensures { Passes checked result }
{
    match checked {
        Ok(tree) => Ok(tree),
        Err(CheckFault::Form { place, rule }) => Err(TreeFault::Form { place, rule }),
        Err(CheckFault::Memory) => Err(TreeFault::Memory),
    }
}

/// Reads a tree from the bytes of its JSON text and checks it by the rules.
///
/// # Errors
///
/// `Text` where the bytes are no JSON as `serde_json` reads it. `Form` with the least broken rule of
/// F1 to F7, by its number, and the first pointer where it is broken. `Memory` where there was no memory.
pub fn read_tree(alloc: Global, bytes: &[u8]) -> Result<GoodTree, TreeFault>
    ensures { Answers bytes.now result }
{
    match read(alloc, bytes) {
        Ok(tree) => pass(check(alloc, tree)),
        Err(JsonFault::Text) => Err(TreeFault::Text),
        Err(JsonFault::Form { place }) => Err(TreeFault::Form { place, rule: 1 }),
        Err(JsonFault::Memory) => Err(TreeFault::Memory),
    }
}
