ghost use Rattle.std.specs.Prelude.{◌≡◌, IfOk, map, string_bytes};
ghost use Rattle.serde_json.specs.View.{view, items_view, members_view};
ghost use Rattle.serde_json.specs.Data.{array};
ghost use Rattle.gn_atom.specs.Constant.{constant_in};
ghost use Rattle.gn_tree.specs.Seen as seen;
ghost use Rattle.gn_json.specs.Typed as typed;

use gn_atom::constant_in;
use gn_form::are_links;
use gn_kinds::{SocketKind, find_kind, socket_kinds};
use gn_memory::Memory;
use gn_tree::{Socket, TreeInput, TreeLink};
use serde_json::{Map, Value};
use std::alloc::Global;

/// The text under a key, which a value of its form has.
pub(crate) fn text_at<'a>(value: &'a Value, key: &str) -> &'a str
    ensures { result.now ≡ typed.text_at key.now (view value.now) }
{
    match value.get(key) {
        Some(member) => member.as_str().unwrap_or(""),
        None => "",
    }
}

pub(crate) fn string_at(alloc: Global, value: &Value, key: &str) -> Result<String, Memory>
    ensures { IfOk result (λ text. string_bytes text ≡ typed.text_at key.now (view value.now)) }
{
    Ok(String::from_str(alloc, text_at(value, key))?)
}

fn link_in(alloc: Global, value: &Value) -> Result<TreeLink, Memory>
    ensures { IfOk result (λ link. seen.link_of link ≡ typed.link_in (view value.now)) }
{
    let from = string_at(alloc, value, "from")?;
    let socket = string_at(alloc, value, "socket")?;
    Ok(TreeLink { from, socket })
}

fn links_in(alloc: Global, items: &[Value]) -> Result<Vec<TreeLink>, Memory>
    ensures { IfOk result (λ links. map seen.link_of links.items ≡ typed.links_in (items_view items.now)) }
{
    let mut links = Vec::with_capacity(alloc, items.len())?;
    for item in items {
        links.push(link_in(alloc, item)?)?;
    }
    Ok(links)
}

/// A constant, which a value of its form is.
fn constant_or_false(value: &Value) -> gn_value::Value
    ensures { result ≡ typed.constant_or_false (constant_in (view value.now)) }
{
    constant_in(value).unwrap_or(gn_value::Value::Truth(false))
}

fn links_or_vector(alloc: Global, value: &Value, items: &[Value]) -> Result<TreeInput, Memory>
    requires { view value.now ≡ array (items_view items.now) }
    ensures { IfOk result (λ input. seen.input_of input ≡ typed.input_in (view value.now)) }
{
    if are_links(items) {
        let links = links_in(alloc, items)?;
        return Ok(TreeInput::Links { links });
    }
    Ok(TreeInput::Constant {
        value: constant_or_false(value),
    })
}

/// What an input has.
pub(crate) fn input_in(alloc: Global, value: &Value) -> Result<TreeInput, Memory>
    ensures { IfOk result (λ input. seen.input_of input ≡ typed.input_in (view value.now)) }
{
    match value {
        Value::Array(items) => links_or_vector(alloc, value, items),
        Value::Object(_) => {
            let link = link_in(alloc, value)?;
            Ok(TreeInput::Link { link })
        }
        Value::Null => Ok(TreeInput::Constant {
            value: constant_or_false(value),
        }),
        Value::Bool(_) => Ok(TreeInput::Constant {
            value: constant_or_false(value),
        }),
        Value::Number(_) => Ok(TreeInput::Constant {
            value: constant_or_false(value),
        }),
        Value::String(_) => Ok(TreeInput::Constant {
            value: constant_or_false(value),
        }),
    }
}

fn inputs_in(
    alloc: Global,
    members: &Map<String, Value>,
) -> Result<Vec<(String, TreeInput)>, Memory>
    ensures { IfOk result (λ inputs. map seen.named_of inputs.items ≡ typed.inputs_in (members_view members.now.entries)) }
{
    let mut inputs = Vec::new(alloc);
    for (key, member) in members.iter() {
        let name = key.clone()?;
        let input = input_in(alloc, member)?;
        inputs.push((name, input))?;
    }
    Ok(inputs)
}

/// The inputs under a key, in the order of their names' bytes; none where the key is missing.
pub(crate) fn inputs_at(
    alloc: Global,
    value: &Value,
    key: &str,
) -> Result<Vec<(String, TreeInput)>, Memory>
    ensures { IfOk result (λ inputs. map seen.named_of inputs.items ≡ typed.inputs_at key.now (view value.now)) }
{
    let Some(inputs) = value.get(key) else {
        return Ok(Vec::new(alloc));
    };
    match inputs.as_object() {
        Some(members) => inputs_in(alloc, members),
        None => Ok(Vec::new(alloc)),
    }
}

/// The kind that is named under a key.
pub(crate) fn kind_at(kinds: &'static [SocketKind], value: &Value, key: &str) -> SocketKind
    ensures { result ≡ typed.kind_at kinds.now key.now (view value.now) }
{
    find_kind(kinds, text_at(value, key)).unwrap_or(SocketKind::Truth)
}

fn socket_in(alloc: Global, value: &Value) -> Result<Socket, Memory>
    ensures { IfOk result (λ socket. seen.socket_of socket ≡ typed.socket_in (view value.now)) }
{
    let name = string_at(alloc, value, "name")?;
    Ok(Socket {
        name,
        kind: kind_at(socket_kinds(), value, "kind"),
    })
}

fn sockets_in(alloc: Global, items: &[Value]) -> Result<Vec<Socket>, Memory>
    ensures { IfOk result (λ sockets. map seen.socket_of sockets.items ≡ typed.sockets_in (items_view items.now)) }
{
    let mut sockets = Vec::with_capacity(alloc, items.len())?;
    for item in items {
        sockets.push(socket_in(alloc, item)?)?;
    }
    Ok(sockets)
}

/// The sockets that are declared under a key.
pub(crate) fn sockets_at(alloc: Global, value: &Value, key: &str) -> Result<Vec<Socket>, Memory>
    ensures { IfOk result (λ sockets. map seen.socket_of sockets.items ≡ typed.sockets_at key.now (view value.now)) }
{
    let Some(sockets) = value.get(key) else {
        return Ok(Vec::new(alloc));
    };
    match sockets.as_array() {
        Some(items) => sockets_in(alloc, items),
        None => Ok(Vec::new(alloc)),
    }
}
