ghost use Rattle.std.specs.Prelude.{◌≡◌, IfOk, map, option_map};
ghost use Rattle.serde_json.specs.View.{view, items_view};
ghost use Rattle.gn_tree.specs.Form.{IsOfForm};
ghost use Rattle.gn_tree.specs.Seen as seen;
ghost use Rattle.gn_json.specs.Typed as typed;
ghost use Rattle.gn_json.specs.Answers.{Answers, IsTreeWhereFit, Judged};

use crate::fault::JsonFault;
use crate::node::nodes_among;
use crate::part::{input_in, inputs_at, sockets_at, string_at};
use gn_form::first_misfit;
use gn_memory::Memory;
use gn_pointers::{Step, pointer_string};
use gn_tree::{Group, Node, Tree, TreeInput};
use serde_json::Value;
use std::alloc::Global;
use std::collections::VecDeque;

fn nodes_at(alloc: Global, value: &Value) -> Result<Vec<Node>, Memory>
    ensures { IfOk result (λ nodes. nodes.items ≡ typed.nodes_at (view value.now)) }
{
    match value.as_object() {
        Some(members) => nodes_among(alloc, members),
        None => Ok(Vec::new(alloc)),
    }
}

fn group_in(alloc: Global, value: &Value) -> Result<Group, Memory>
    ensures { IfOk result (λ group. seen.group_of group ≡ typed.group_in (view value.now)) }
{
    let name = string_at(alloc, value, "name")?;
    let inputs = sockets_at(alloc, value, "inputs")?;
    let outputs = sockets_at(alloc, value, "outputs")?;
    let nodes = nodes_at(alloc, value)?;
    let output = inputs_at(alloc, value, "output")?;
    Ok(Group {
        name,
        inputs,
        outputs,
        nodes,
        output,
    })
}

fn groups_in(alloc: Global, items: &[Value]) -> Result<Vec<Group>, Memory>
    ensures { IfOk result (λ groups. map seen.group_of groups.items ≡ typed.groups_in (items_view items.now)) }
{
    let mut groups = Vec::with_capacity(alloc, items.len())?;
    for item in items {
        groups.push(group_in(alloc, item)?)?;
    }
    Ok(groups)
}

fn groups_at(alloc: Global, value: &Value) -> Result<Vec<Group>, Memory>
    ensures { IfOk result (λ groups. map seen.group_of groups.items ≡ (typed.tree_in (view value.now)).groups) }
{
    let Some(groups) = value.get("groups") else {
        return Ok(Vec::new(alloc));
    };
    match groups.as_array() {
        Some(items) => groups_in(alloc, items),
        None => Ok(Vec::new(alloc)),
    }
}

fn output_at(alloc: Global, value: &Value) -> Result<Option<TreeInput>, Memory>
    ensures { IfOk result (λ output. option_map seen.input_of output ≡ (typed.tree_in (view value.now)).output) }
{
    match value.get("output") {
        Some(output) => {
            let input = input_in(alloc, output)?;
            Ok(Some(input))
        }
        None => Ok(None),
    }
}

fn in_32_bits(number: u64) -> u32
    ensures { result ≡ typed.in_32_bits number }
{
    if number < 4_294_967_296 {
        return number as u32;
    }
    0
}

fn format_in(value: &Value) -> u32
    ensures { result ≡ typed.format_in (view value.now) }
{
    let Some(format) = value.get("format") else {
        return 0;
    };
    match format.as_u64() {
        Some(number) => in_32_bits(number),
        None => 0,
    }
}

fn tree_in(alloc: Global, value: &Value) -> Result<Tree, Memory>
    ensures { IfOk result (λ tree. seen.tree_of tree ≡ typed.tree_in (view value.now)) }
{
    let groups = groups_at(alloc, value)?;
    let nodes = nodes_at(alloc, value)?;
    let output = output_at(alloc, value)?;
    Ok(Tree {
        format: format_in(value),
        groups,
        nodes,
        output,
    })
}

/// The tree, or the text of the pointer that was found.
fn judge(
    alloc: Global,
    value: &Value,
    found: Result<Option<VecDeque<Step>>, Memory>,
) -> Result<Tree, JsonFault>
    ensures { Judged (view value.now) found result }
{
    match found? {
        None => Ok(tree_in(alloc, value)?),
        Some(pointer) => {
            let place = pointer_string(alloc, &pointer)?;
            Err(JsonFault::Form { place })
        }
    }
}

/// Reads a tree from the bytes of its JSON text. All that is in the tree is in the text: the value
/// of each key that must be there, of its shape. The tree is of its form: the names and the kinds in it
/// are ones that may be there, the settings of a node are those of its kind's row, in their order and
/// with values that the row allows, and the inputs of each node, and what each zone and each group gives
/// out, are in the order of their names' bytes.
///
/// # Errors
///
/// `Text` where the bytes are no JSON as `serde_json` reads it, `Form` with the first pointer where the
/// value is not of a tree's form, `Memory` where there was no memory.
#[tactic(auto, using(crate::proofs::Top::no_json, crate::proofs::Top::is_tree_where_fit))]
pub fn read(alloc: Global, bytes: &[u8]) -> Result<Tree, JsonFault>
    ensures answers { Answers bytes.now result }
    ensures whole { IsTreeWhereFit bytes.now }
    ensures formed { IfOk result (λ tree. IsOfForm (seen.tree_of tree)) }
{
    match Value::from_slice(alloc, bytes) {
        Ok(value) => judge(alloc, &value, first_misfit(alloc, &value)),
        Err(error) => {
            if error.is_memory() {
                return Err(JsonFault::Memory);
            }
            Err(JsonFault::Text)
        }
    }
}
