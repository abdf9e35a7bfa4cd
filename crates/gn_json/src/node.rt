ghost use Rattle.std.specs.Prelude.{◌≡◌, IfOk, map};
ghost use Rattle.serde_json.specs.View.{view, items_view, members_view};
ghost use Rattle.gn_kinds.specs.Seen.{setting_of};
ghost use Rattle.gn_tree.specs.Seen as seen;
ghost use Rattle.gn_json.specs.Typed as typed;

use crate::part::{inputs_at, string_at};
use crate::setting::settings_in;
use gn_kinds::{SettingForm, find_row};
use gn_memory::Memory;
use gn_tree::{Node, Setting};
use serde_json::{Map, Value};
use std::alloc::Global;

/// The forms of the settings of a node's kind.
fn forms_of_kind(value: &Value) -> &'static [SettingForm]
    ensures { map setting_of result.now ≡ typed.settings_of_kind (view value.now) }
{
    let Some(kind) = value.get("kind") else {
        return &[];
    };
    let Some(name) = kind.as_str() else {
        return &[];
    };
    match find_row(name) {
        Some(row) => row.settings,
        None => &[],
    }
}

#[cycle(node)]
fn node_in(alloc: Global, value: &Value) -> Result<Node, Memory>
    ensures { IfOk result (λ node. node ≡ typed.node_in (view value.now)) }
{
    let settings = match value {
        Value::Object(members) => settings_among(alloc, forms_of_kind(value), members)?,
        _ => Vec::new(alloc),
    };
    let id = string_at(alloc, value, "id")?;
    let kind = string_at(alloc, value, "kind")?;
    let inputs = inputs_at(alloc, value, "in")?;
    Ok(Node {
        id,
        kind,
        settings,
        inputs,
    })
}

#[cycle(node)]
fn settings_among(
    alloc: Global,
    forms: &'static [SettingForm],
    members: &Map<String, Value>,
) -> Result<Vec<Setting>, Memory>
    ensures { IfOk result (λ settings.
        seen.settings_of settings.items ≡ typed.settings_among (map setting_of forms.now) (members_view members.now.entries)) }
{
    for (key, member) in members.iter() {
        if "set" == key.as_str() {
            return settings_under(alloc, forms, member);
        }
    }
    Ok(Vec::new(alloc))
}

#[cycle(node)]
fn settings_under(
    alloc: Global,
    forms: &'static [SettingForm],
    value: &Value,
) -> Result<Vec<Setting>, Memory>
    ensures { IfOk result (λ settings.
        seen.settings_of settings.items ≡ typed.settings_under (map setting_of forms.now) (view value.now)) }
{
    match value {
        Value::Object(members) => {
            let nodes = nodes_among(alloc, members)?;
            settings_in(alloc, forms, value, nodes)
        }
        _ => Ok(Vec::new(alloc)),
    }
}

#[cycle(node)]
pub(crate) fn nodes_among(alloc: Global, members: &Map<String, Value>) -> Result<Vec<Node>, Memory>
    ensures { IfOk result (λ nodes. nodes.items ≡ typed.nodes_among (members_view members.now.entries)) }
{
    for (key, member) in members.iter() {
        if "nodes" == key.as_str() {
            return nodes_under(alloc, member);
        }
    }
    Ok(Vec::new(alloc))
}

#[cycle(node)]
fn nodes_under(alloc: Global, value: &Value) -> Result<Vec<Node>, Memory>
    ensures { IfOk result (λ nodes. nodes.items ≡ typed.nodes_under (view value.now)) }
{
    match value {
        Value::Array(items) => nodes_in(alloc, items),
        _ => Ok(Vec::new(alloc)),
    }
}

#[cycle(node)]
fn nodes_in(alloc: Global, items: &Vec<Value>) -> Result<Vec<Node>, Memory>
    ensures { IfOk result (λ nodes. nodes.items ≡ typed.nodes_in (items_view items.now.items)) }
{
    let mut nodes = Vec::with_capacity(alloc, items.len())?;
    for item in items {
        nodes.push(node_in(alloc, item)?)?;
    }
    Ok(nodes)
}
