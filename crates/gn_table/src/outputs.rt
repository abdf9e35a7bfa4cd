ghost use Rattle.std.specs.Prelude.{◌<◌, ◌^◌, length};

use crate::sockets::{find_behind, find_output, list_of};
use gn_kinds::{OutputRow, SocketKind};
use gn_scopes::Sockets;

/// The outputs of a node: those of a row of the table, and then others.
#[derive(Clone, Copy)]
pub(crate) struct Outputs<'s, 't> {
    pub(crate) rows: &'static [OutputRow],
    pub(crate) chosen: SocketKind,
    pub(crate) others: &'s Sockets<'t>,
    ghost small: { length rows.now < 2 ^ 63 },
}

impl<'s, 't> Outputs<'s, 't> {
    ghost use Rattle.std.specs.Prelude.{◌≡◌, length};
    ghost use Rattle.gn_table.specs.Finding.{find_in, outputs_by};

    /// How many there are.
    pub(crate) fn len(self) -> usize
        ensures { result ≡ length (outputs_by self.entry) }
    {
        self.rows.len() + list_of(self.others).len()
    }

    /// The number and the kind of the first output with that name.
    #[tactic(auto, using(crate::proofs::Finding::found_in_first, crate::proofs::Finding::found_behind_none))]
    pub(crate) fn find(self, name: &str) -> Option<(usize, SocketKind)>
        ensures { result ≡ find_in (outputs_by self.entry) name.now }
    {
        match find_output(self.rows, self.chosen, name) {
            Some(found) => Some(found),
            None => find_behind(self.rows.len(), self.others, name),
        }
    }
}
