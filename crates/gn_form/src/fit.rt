ghost use Rattle.std.specs.Prelude.{◌≡◌, option_map, map, bytes_eq, string_bytes};
ghost use Rattle.std.specs.List.{list_any, list_all};
ghost use Rattle.gn_kinds.specs.Seen.{row_of, input_of};
ghost use Rattle.gn_kinds.specs.Row.{input_name as row_input_name, has_input as row_has_input};
ghost use Rattle.gn_kinds.specs.Text.{is_id};
ghost use Rattle.gn_form.specs.Form as is;
ghost use Rattle.gn_form.specs.Seen.{form_of};
ghost use Rattle.serde_json.specs.View.{view, items_view, members_view};

use crate::form::Form;
use crate::key::{has_keys, row_in_node};
use gn_atom::{constant_in, is_atom, is_id};
use gn_kinds::{InputRow, Row};
use serde_json::{Map, Value};

fn has_object(items: &[Value]) -> bool
    ensures { result ≡ list_any (λ v. is.is_object (view v)) items.now }
{
    items.iter().any(|value| value.is_object())
}

/// Reports whether an array is one of links: it is empty, or has an object.
#[tactic(auto, using(crate::proofs::Elements::some_links))]
pub fn are_links(items: &[Value]) -> bool
    ensures { result ≡ is.are_links (items_view items.now) }
{
    match items {
        [] => true,
        _ => has_object(items),
    }
}

fn is_input(value: &Value) -> bool
    ensures { result ≡ is.is_input (view value.now) }
{
    match value {
        Value::Array(items) => are_links(items) | constant_in(value).is_some(),
        Value::Object(_) => has_keys(Form::Link, None, value),
        Value::Null => false,
        Value::Bool(_) => constant_in(value).is_some(),
        Value::Number(_) => constant_in(value).is_some(),
        Value::String(_) => constant_in(value).is_some(),
    }
}

fn has_input(inputs: &'static [InputRow], key: &str) -> bool
    ensures { result ≡ list_any (λ x. bytes_eq (row_input_name (input_of x)) key.now) inputs.now }
{
    inputs.iter().any(|input| input.name() == key)
}

fn are_ids(members: &Map<String, Value>) -> bool
    ensures { result ≡ list_all (λ m. is_id (string_bytes m.0)) members.now.entries }
{
    members.iter().all(|(key, _member)| is_id(key))
}

fn are_inputs_of(inputs: &'static [InputRow], members: &Map<String, Value>) -> bool
    ensures { result ≡ list_all
        (λ m. list_any (λ x. bytes_eq (row_input_name (input_of x)) (string_bytes m.0)) inputs.now)
        members.now.entries }
{
    members.iter().all(|(key, _member)| has_input(inputs, key))
}

#[tactic(auto, using(crate::proofs::Elements::each_key))]
fn are_outputs(value: &Value) -> bool
    ensures { result ≡ is.fits is.outputs (view value.now) }
{
    value.as_object().is_some_and(|members| are_ids(members))
}

#[tactic(auto, using(crate::proofs::Elements::each_input))]
fn are_inputs(row: &'static Row, value: &Value) -> bool
    ensures { result ≡ is.fits (is.inputs_of (row_of row.now)) (view value.now) }
{
    value
        .as_object()
        .is_some_and(|members| row.open || are_inputs_of(row.inputs, members))
}

/// Reports whether a value is of its form by itself, whatever its parts are.
pub(crate) fn fits(form: Form, value: &Value) -> bool
    ensures { result ≡ is.fits (form_of form) (view value.now) }
{
    match form {
        Form::Atom(atom) => is_atom(atom, value),
        Form::Groups => value.is_array(),
        Form::Sockets => value.is_array(),
        Form::Nodes => value.is_array(),
        Form::Outputs => are_outputs(value),
        Form::InputsOf(row) => are_inputs(row, value),
        Form::AnyInputs => value.is_object(),
        Form::AnyObject => value.is_object(),
        Form::Input => is_input(value),
        Form::Tree => has_keys(form, row_in_node(value), value),
        Form::Group => has_keys(form, row_in_node(value), value),
        Form::Socket => has_keys(form, row_in_node(value), value),
        Form::Node => has_keys(form, row_in_node(value), value),
        Form::Link => has_keys(form, row_in_node(value), value),
        Form::SettingsOf(_) => has_keys(form, row_in_node(value), value),
    }
}
