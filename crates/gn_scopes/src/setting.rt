ghost use Rattle.std.specs.Prelude.{◌≡◌, map, option_map, string_bytes};
ghost use Rattle.gn_tree.specs.Seen as seen;
ghost use Rattle.gn_rules.specs.Sockets as sockets;
ghost use Rattle.gn_scopes.specs.Settings as set;

use gn_kinds::SocketKind;
use gn_tree::{Setting, Socket, Zone};

fn kind_set(setting: &Setting) -> Option<SocketKind>
    ensures { result ≡ set.kind_set setting.now }
{
    match setting {
        Setting::Of { kind } => Some(*kind),
        _ => None,
    }
}

/// The name of the group, if the setting names one.
pub fn group_set(setting: &Setting) -> Option<&str>
    ensures { option_map (λ name. name.now) result ≡ set.group_set setting.now }
{
    match setting {
        Setting::Group { name } => Some(name.as_str()),
        _ => None,
    }
}

/// The zone, if the setting is one.
pub fn zone_set(setting: &Setting) -> Option<&Zone>
    ensures { option_map (λ zone. zone.now) result ≡ set.zone_set setting.now }
{
    match setting {
        Setting::Zone { zone } => Some(zone),
        _ => None,
    }
}

/// The kind that the setting `type` names; geometry without that setting.
#[tactic(auto, using(crate::proofs::Looking::chosen_then))]
pub fn chosen(settings: &[Setting]) -> SocketKind
    ensures { result ≡ sockets.chosen (seen.settings_of settings.now) }
{
    for setting in settings {
        if let Some(kind) = kind_set(setting) {
            return kind;
        }
    }
    SocketKind::Geometry
}

/// The name of the group that is named.
#[tactic(auto, using(crate::proofs::Looking::group_then))]
pub fn group_in(settings: &[Setting]) -> Option<&str>
    ensures { option_map (λ name. name.now) result ≡ sockets.group_in (seen.settings_of settings.now) }
{
    for setting in settings {
        if let Some(name) = group_set(setting) {
            return Some(name);
        }
    }
    None
}

/// The items of the zone; none where there is no zone.
#[tactic(auto, using(crate::proofs::Looking::items_then))]
pub(crate) fn items_in(settings: &[Setting]) -> &[Socket]
    ensures { map seen.socket_of result.now ≡ sockets.items_in (seen.settings_of settings.now) }
{
    for setting in settings {
        if let Some(zone) = zone_set(setting) {
            return zone.items.as_slice();
        }
    }
    &[]
}

/// Whether there is a zone.
#[tactic(auto, using(crate::proofs::Looking::zone_then))]
pub fn is_zone(settings: &[Setting]) -> bool
    ensures { result ≡ sockets.is_zone (seen.settings_of settings.now) }
{
    for setting in settings {
        if zone_set(setting).is_some() {
            return true;
        }
    }
    false
}
