ghost use Rattle.std.specs.Prelude.{◌≡◌, IfOk, option_map};
ghost use Rattle.gn_pointers.specs.Seen.{pointer_of};
ghost use Rattle.gn_tree.specs.Form.{IsOfForm};
ghost use Rattle.gn_tree.specs.Seen.{tree_of};
ghost use Rattle.gn_rules.specs.Walk as walk;
ghost use Rattle.gn_rules.specs.Walk.{Tells};
ghost use Rattle.gn_check.specs.Answers.{Answers};

use crate::fault::CheckFault;
use crate::good::GoodTree;
use crate::walk::in_tree;
use gn_memory::Memory;
use gn_pointers::{Step, pointer_string};
use gn_rules::{Rule, Sought};
use gn_scopes::Groups;
use gn_tree::Tree;
use std::alloc::Global;
use std::collections::VecDeque;

/// The rules from the least.
static RULES: [Rule; 6] = [
    Rule::Names,
    Rule::Links,
    Rule::Kinds,
    Rule::Order,
    Rule::Height,
    Rule::Count,
];

/// The first of these rules that the tree breaks, with the first pointer where it does.
fn first_of<'t>(
    alloc: Global,
    tree: &'t Tree,
    groups: &Groups<'t>,
    rules: &[Rule],
) -> Result<Option<(Rule, VecDeque<Step>)>, Memory>
    requires { groups.now.list.now ≡ tree.now.groups.items }
    ensures { IfOk result (λ found. option_map (λ x. (x.0, pointer_of x.1)) found ≡ walk.named_from (tree_of tree.now) rules.now) }
{
    for rule in rules {
        if let Some(pointer) = in_tree(alloc, Sought::Only(*rule), tree, groups)? {
            return Ok(Some((*rule, pointer)));
        }
    }
    Ok(None)
}

/// The least rule that the tree breaks, with the first pointer where it does.
fn first_broken(alloc: Global, tree: &Tree) -> Result<Option<(Rule, VecDeque<Step>)>, Memory>
    ensures { IfOk result (λ found. option_map (λ x. (x.0, pointer_of x.1)) found ≡ walk.named (tree_of tree.now)) }
{
    let groups = Groups::new(alloc, &tree.groups)?;
    let found = in_tree(alloc, Sought::Any, tree, &groups)?;
    if found.is_some() {
        return first_of(alloc, tree, &groups, &RULES);
    }
    Ok(None)
}

/// The tree, or the number and the pointer of the rule that was found.
fn judge(
    alloc: Global,
    tree: Tree,
    found: Result<Option<(Rule, VecDeque<Step>)>, Memory>,
) -> Result<GoodTree, CheckFault>
    requires formed { IsOfForm (tree_of tree) }
    requires named { IfOk found (λ named. Tells (tree_of tree) (option_map (λ x. (x.0, pointer_of x.1)) named)) }
    ensures { Answers (tree_of tree) result }
{
    match found? {
        None => Ok(GoodTree { tree }),
        Some((rule, pointer)) => {
            let place = pointer_string(alloc, &pointer)?;
            Err(CheckFault::Form {
                place,
                rule: rule.number(),
            })
        }
    }
}

/// Checks a tree that is of its form, as each that `gn_json::read` returns, by the rules F2 to F7.
///
/// # Errors
///
/// `Form` with the least rule that the tree breaks, by its number, and the first pointer where it does,
/// a JSON Pointer: an object stands before its members, arrays go by index, keys by bytes. `Memory`
/// where there was no memory.
pub fn check(alloc: Global, tree: Tree) -> Result<GoodTree, CheckFault>
    requires { IsOfForm (tree_of tree) }
    ensures { Answers (tree_of tree) result }
{
    let found = first_broken(alloc, &tree);
    judge(alloc, tree, found)
}
