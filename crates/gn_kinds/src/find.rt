ghost use Rattle.std.specs.Prelude.{◌≡◌, map, option_map};
ghost use Rattle.gn_kinds.specs.Seen.{row_of};
ghost use Rattle.gn_kinds.specs.Table as spec;
ghost use Rattle.gn_kinds.specs.Table.{row_in, row_of_kind};

use crate::common::ANY_KIND;
use crate::row::{Row, SocketKind};
use crate::table::sections;

/// All kinds of sockets.
pub fn socket_kinds() -> &'static [SocketKind]
    ensures { result.now ≡ spec.any_kind }
{
    ANY_KIND
}

/// The one of these rows that is the row of the kind with that name.
fn find_among(rows: &'static [Row], kind: &str) -> Option<&'static Row>
    ensures { option_map (λ row. row_of row.now) result ≡ row_in (map row_of rows.now) kind.now }
{
    for row in rows {
        if row.kind == kind {
            return Some(row);
        }
    }
    None
}

/// The row of the kind with that name.
#[tactic(auto, unfolding(crate::specs::Table::row_of_kind))]
pub fn find_row(kind: &str) -> Option<&'static Row>
    ensures { option_map (λ row. row_of row.now) result ≡ row_of_kind kind.now }
{
    for rows in sections() {
        if let Some(row) = find_among(rows, kind) {
            return Some(row);
        }
    }
    None
}
