ghost use Rattle.std.specs.Prelude.{◌≡◌, option_map, is_some, map};
ghost use Rattle.std.specs.List.{list_any};
ghost use Rattle.gn_kinds.specs.Seen.{row_of, setting_of};
ghost use Rattle.gn_form.specs.Form as is;
ghost use Rattle.gn_form.specs.Seen.{form_of};
ghost use Rattle.serde_json.specs.View.{view, members_view};
ghost use Rattle.serde_json.specs.Find.{get};

use crate::form::{Form, is_required, setting_form, setting_name};
use gn_atom::Atom;
use gn_kinds::{Row, SettingForm, find_row, socket_kinds};
use serde_json::{Map, Value};

/// Returns the row of a node's kind, if it has one.
pub(crate) fn row_in_node(value: &Value) -> Option<&'static Row>
    ensures { option_map (λ row. row_of row.now) result ≡ is.row_in_node (view value.now) }
{
    find_row(value.get("kind")?.as_str()?)
}

fn form_under(settings: &'static [SettingForm], key: &str) -> Option<Form>
    ensures { option_map form_of result
        ≡ option_map (λ key. key.form) (is.named (map is.setting_key (map setting_of settings.now)) key.now) }
{
    for setting in settings {
        if setting_name(*setting) == key {
            return Some(setting_form(*setting));
        }
    }
    None
}

fn any_required(settings: &'static [SettingForm]) -> bool
    ensures { result ≡ list_any (λ s. (is.setting_key s).needed) (map setting_of settings.now) }
{
    for setting in settings {
        if is_required(*setting) {
            return true;
        }
    }
    false
}

fn tree_member(key: &str) -> Option<Form>
    ensures { option_map form_of result ≡ is.member_form is.a_tree None key.now }
{
    if "format" == key {
        return Some(Form::Atom(Atom::Format));
    }
    if "groups" == key {
        return Some(Form::Groups);
    }
    if "nodes" == key {
        return Some(Form::Nodes);
    }
    if "output" == key {
        return Some(Form::Input);
    }
    None
}

fn group_member(key: &str) -> Option<Form>
    ensures { option_map form_of result ≡ is.member_form is.a_group None key.now }
{
    if "inputs" == key {
        return Some(Form::Sockets);
    }
    if "name" == key {
        return Some(Form::Atom(Atom::Id));
    }
    if "nodes" == key {
        return Some(Form::Nodes);
    }
    if "output" == key {
        return Some(Form::Outputs);
    }
    if "outputs" == key {
        return Some(Form::Sockets);
    }
    None
}

fn socket_member(key: &str) -> Option<Form>
    ensures { option_map form_of result ≡ is.member_form is.a_socket None key.now }
{
    if "kind" == key {
        return Some(Form::Atom(Atom::KindIn(socket_kinds())));
    }
    if "name" == key {
        return Some(Form::Atom(Atom::Id));
    }
    None
}

fn link_member(key: &str) -> Option<Form>
    ensures { option_map form_of result ≡ is.member_form is.a_link None key.now }
{
    if "from" == key {
        return Some(Form::Atom(Atom::Id));
    }
    if "socket" == key {
        return Some(Form::Atom(Atom::Id));
    }
    None
}

fn node_member(row: Option<&'static Row>, key: &str) -> Option<Form>
    ensures { option_map form_of result
        ≡ is.member_form is.a_node (option_map (λ row. row_of row.now) row.entry) key.now }
{
    if "id" == key {
        return Some(Form::Atom(Atom::Id));
    }
    if "in" == key {
        return match row {
            Some(row) => Some(Form::InputsOf(row)),
            None => Some(Form::AnyInputs),
        };
    }
    if "kind" == key {
        return Some(Form::Atom(Atom::NodeKind));
    }
    if "set" == key {
        return match row {
            Some(row) => Some(Form::SettingsOf(row)),
            None => Some(Form::AnyObject),
        };
    }
    None
}

/// Returns what must be under a key of an object, and `None` for a key that the object doesn't have.
/// `row` is the row of a node's kind.
pub(crate) fn member_form(form: Form, row: Option<&'static Row>, key: &str) -> Option<Form>
    ensures { option_map form_of result
        ≡ is.member_form (form_of form) (option_map (λ row. row_of row.now) row.entry) key.now }
{
    match form {
        Form::Tree => tree_member(key),
        Form::Group => group_member(key),
        Form::Socket => socket_member(key),
        Form::Node => node_member(row, key),
        Form::Link => link_member(key),
        Form::Input => link_member(key),
        Form::SettingsOf(row) => form_under(row.settings, key),
        Form::Outputs => Some(Form::Input),
        Form::InputsOf(_) => Some(Form::Input),
        Form::AnyInputs => Some(Form::Input),
        Form::Atom(_) => None,
        Form::Groups => None,
        Form::Sockets => None,
        Form::Nodes => None,
        Form::AnyObject => None,
    }
}

fn has(value: &Value, key: &str) -> bool
    ensures { result ≡ is_some (get key.now (view value.now)) }
{
    value.get(key).is_some()
}

fn has_settings(settings: &'static [SettingForm], value: &Value) -> bool
    ensures { result ≡ is.are_there (map is.setting_key (map setting_of settings.now)) (view value.now) }
{
    for setting in settings {
        if is_required(*setting) {
            if !has(value, setting_name(*setting)) {
                return false;
            }
        }
    }
    true
}

fn is_node_complete(row: Option<&'static Row>, value: &Value) -> bool
    ensures { result ≡ is.are_there (is.node_keys (option_map (λ row. row_of row.now) row.entry)) (view value.now) }
{
    if !has(value, "id") {
        return false;
    }
    if !has(value, "kind") {
        return false;
    }
    match row {
        None => true,
        Some(row) => {
            if any_required(row.settings) {
                return has(value, "set");
            }
            true
        }
    }
}

/// Reports whether each key that must be there is.
fn is_complete(form: Form, row: Option<&'static Row>, value: &Value) -> bool
    ensures { result ≡ is.are_there (is.keys_of (form_of form) (option_map (λ row. row_of row.now) row.entry)) (view value.now) }
{
    match form {
        Form::Tree => has(value, "format") & has(value, "nodes"),
        Form::Group => has(value, "inputs")
            & has(value, "name")
            & has(value, "nodes")
            & has(value, "outputs"),
        Form::Socket => has(value, "kind") & has(value, "name"),
        Form::Node => is_node_complete(row, value),
        Form::Link => has(value, "from") & has(value, "socket"),
        Form::Input => has(value, "from") & has(value, "socket"),
        Form::SettingsOf(row) => has_settings(row.settings, value),
        _ => true,
    }
}

/// Reports whether no key is unknown.
fn is_known(form: Form, row: Option<&'static Row>, members: &Map<String, Value>) -> bool
    ensures { result ≡ is.all_keys
        (λ k. is_some (is.member_form (form_of form) (option_map (λ row. row_of row.now) row.entry) k))
        (members_view members.now.entries) }
{
    for (key, _member) in members.iter() {
        if member_form(form, row, key).is_none() {
            return false;
        }
    }
    true
}

/// Reports whether the value is an object with just the keys of the form.
pub(crate) fn has_keys(form: Form, row: Option<&'static Row>, value: &Value) -> bool
    ensures { result ≡ is.has_keys (form_of form) (option_map (λ row. row_of row.now) row.entry) (view value.now) }
{
    match value.as_object() {
        None => false,
        Some(members) => {
            if is_known(form, row, members) {
                return is_complete(form, row, value);
            }
            false
        }
    }
}
