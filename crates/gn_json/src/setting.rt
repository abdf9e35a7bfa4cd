ghost use Rattle.std.specs.Prelude.{◌≡◌, IfOk, option_map, map};
ghost use Rattle.std.specs.List.{list_any};
ghost use Rattle.serde_json.specs.View.{view};
ghost use Rattle.gn_kinds.specs.Seen.{setting_of};
ghost use Rattle.gn_tree.specs.Seen as seen;
ghost use Rattle.gn_tree.specs.Trees.{Settings};
ghost use Rattle.gn_json.specs.Exact.{is_zone};
ghost use Rattle.gn_json.specs.Typed as typed;
ghost use Rattle.gn_json.specs.Settings.{found_then};

use crate::part::{inputs_at, kind_at, sockets_at, string_at, text_at};
use gn_atom::constant_as;
use gn_kinds::{SettingForm, find_place};
use gn_memory::Memory;
use gn_tree::{Node, Setting, Zone};
use gn_value::{Place, ValueKind};
use serde_json::Value;
use std::alloc::Global;

fn place_at(places: &'static [Place], value: &Value, key: &str) -> Place
    ensures { result ≡ typed.place_at places.now key.now (view value.now) }
{
    find_place(places, text_at(value, key)).unwrap_or(Place::Point)
}

fn truth_at(value: &Value, key: &str) -> bool
    ensures { result ≡ typed.truth_at key.now (view value.now) }
{
    match value.get(key) {
        Some(member) => member.as_bool().unwrap_or(false),
        None => false,
    }
}

fn value_at(kind: ValueKind, value: &Value, key: &str) -> gn_value::Value
    ensures { result ≡ typed.value_at kind key.now (view value.now) }
{
    match value.get(key) {
        Some(member) => constant_as(kind, member).unwrap_or(gn_value::Value::Truth(false)),
        None => gn_value::Value::Truth(false),
    }
}

/// A setting that holds no nodes.
fn setting_in(alloc: Global, form: SettingForm, set: &Value) -> Result<Option<Setting>, Memory>
    ensures { IfOk result (λ found. (rest : Settings) →
        found_then found rest ≡ typed.then_setting (typed.setting_in (setting_of form) (view set.now)) rest) }
{
    match form {
        SettingForm::Type(kinds) => Ok(Some(Setting::Of {
            kind: kind_at(kinds, set, "type"),
        })),
        SettingForm::Op(_) => {
            let name = string_at(alloc, set, "op")?;
            Ok(Some(Setting::Op { name }))
        }
        SettingForm::Place(places) => Ok(Some(Setting::Place {
            place: place_at(places, set, "place"),
        })),
        SettingForm::Clamp => Ok(Some(Setting::Clamp {
            on: truth_at(set, "clamp"),
        })),
        SettingForm::Name => {
            let text = string_at(alloc, set, "name")?;
            Ok(Some(Setting::Name { text }))
        }
        SettingForm::File => {
            let name = string_at(alloc, set, "file")?;
            Ok(Some(Setting::File { name }))
        }
        SettingForm::Value(kind) => Ok(Some(Setting::Value {
            value: value_at(kind, set, "value"),
        })),
        SettingForm::Group => {
            let name = string_at(alloc, set, "group")?;
            Ok(Some(Setting::Group { name }))
        }
        SettingForm::Items => Ok(None),
        SettingForm::Nodes => Ok(None),
        SettingForm::Output => Ok(None),
    }
}

/// The settings with one more, if there is one.
#[tactic(auto, using(crate::proofs::Lists::settings_push))]
fn with_setting(settings: Vec<Setting>, found: Option<Setting>) -> Result<Vec<Setting>, Memory>
    ensures { IfOk result (λ more. (rest : Settings) →
        seen.settings_then more.items rest ≡ seen.settings_then settings.items (found_then found rest)) }
{
    let mut settings = settings;
    let Some(setting) = found else {
        return Ok(settings);
    };
    settings.push(setting)?;
    Ok(settings)
}

/// The settings that hold no nodes, in the order of the kind's row.
fn settings_before(
    alloc: Global,
    forms: &'static [SettingForm],
    set: &Value,
) -> Result<Vec<Setting>, Memory>
    ensures { IfOk result (λ settings. (rest : Settings) →
        seen.settings_then settings.items rest ≡ typed.settings_before rest (map setting_of forms.now) (view set.now)) }
{
    let mut settings = Vec::with_capacity(alloc, forms.len())?;
    for form in forms {
        let found = setting_in(alloc, *form, set)?;
        settings = with_setting(settings, found)?;
    }
    Ok(settings)
}

fn has_zone(forms: &'static [SettingForm]) -> bool
    ensures { result ≡ list_any is_zone (map setting_of forms.now) }
{
    for form in forms {
        if matches!(form, SettingForm::Items) {
            return true;
        }
    }
    false
}

/// The settings of a kind from the value of `set` and the nodes that are there.
#[tactic(auto, using(crate::proofs::Lists::settings_push))]
pub(crate) fn settings_in(
    alloc: Global,
    forms: &'static [SettingForm],
    set: &Value,
    nodes: Vec<Node>,
) -> Result<Vec<Setting>, Memory>
    ensures { IfOk result (λ settings.
        seen.settings_of settings.items ≡ typed.settings_in (map setting_of forms.now) (view set.now) nodes.items) }
{
    let mut settings = settings_before(alloc, forms, set)?;
    if has_zone(forms) {
        let items = sockets_at(alloc, set, "items")?;
        let output = inputs_at(alloc, set, "output")?;
        settings.push(Setting::Zone {
            zone: Zone {
                items,
                nodes,
                output,
            },
        })?;
    }
    Ok(settings)
}
