ghost use Rattle.std.specs.Prelude.{◌≡◌, ◌<◌, ◌^◌, IfSome, map, option_map};
ghost use Rattle.gn_kinds.specs.Seen as seen;
ghost use Rattle.gn_rules.specs.Sockets as rule;
ghost use Rattle.gn_scopes.specs.Groups.{sockets_in};
ghost use Rattle.gn_rules.specs.Scopes.{zone_entries};
ghost use Rattle.gn_table.specs.Finding.{behind, find_in};

use gn_kinds::{OutputRow, SocketKind};
use gn_scopes::{Sockets, output_shape};
use gn_tree::Socket;

/// The number and the kind of the first of these outputs with that name.
#[tactic(auto, using(crate::proofs::Finding::found_first, crate::proofs::Finding::found_later, crate::proofs::Finding::behind_more, gn_scopes::proofs::Naming::output_named))]
pub(crate) fn find_output(
    rows: &'static [OutputRow],
    chosen: SocketKind,
    name: &str,
) -> Option<(usize, SocketKind)>
    ensures { result ≡ find_in (map (rule.output_of_row chosen) (map seen.output_of rows.now)) name.now }
{
    for (number, row) in rows.iter().enumerate() {
        if name == row.name() {
            return Some((number, output_shape(*row, chosen).kind));
        }
    }
    None
}

/// The sockets themselves, of which there are less than 2^63, as of all that memory holds.
pub(crate) fn list_of<'t>(sockets: &Sockets<'t>) -> &'t [Socket]
    ensures { result.now ≡ sockets.now.list.now }
{
    sockets.list
}

/// The number and the kind of the first of these sockets with that name.
pub(crate) fn find_socket(sockets: &Sockets<'_>, name: &str) -> Option<(usize, SocketKind)>
    ensures found { result ≡ find_in (map rule.one_of (sockets_in sockets.now)) name.now }
    ensures small { IfSome result (λ found. found.0 < 2 ^ 63) }
{
    let list = list_of(sockets);
    match sockets.names.first(name) {
        Some(number) => match list.get(number) {
            Some(socket) => Some((number, socket.kind)),
            None => None,
        },
        None => None,
    }
}

/// The same among these sockets and others that stand before them.
pub(crate) fn find_behind(
    before: usize,
    sockets: &Sockets<'_>,
    name: &str,
) -> Option<(usize, SocketKind)>
    requires { before < 2 ^ 63 }
    ensures { result ≡ option_map (behind before) (find_in (map rule.one_of (sockets_in sockets.now)) name.now) }
{
    match find_socket(sockets, name) {
        Some((number, kind)) => Some((number + before, kind)),
        None => None,
    }
}

/// The number and the kind of the input of that name in the body of a zone with these items. In front of
/// the items is the number of the turn.
#[tactic(auto, using(crate::proofs::Finding::found_first, crate::proofs::Finding::found_later))]
pub(crate) fn find_item(items: &Sockets<'_>, name: &str) -> Option<(usize, SocketKind)>
    ensures { result ≡ find_in (zone_entries (sockets_in items.now)) name.now }
{
    if name == "iteration" {
        return Some((0, SocketKind::Int));
    }
    find_behind(1, items, name)
}
