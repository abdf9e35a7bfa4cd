ghost use Rattle.std.specs.Prelude.{◌≡◌, map};
ghost use Rattle.gn_kinds.specs.Text as text;
ghost use Rattle.gn_atom.specs.Atom as is;
ghost use Rattle.gn_atom.specs.Seen.{atom_of};
ghost use Rattle.serde_json.specs.View.{view};

use crate::constant::constant_as;
use crate::text::{is_column_name, is_file_name, is_id, is_word};
use gn_kinds::{SocketKind, find_kind, find_place, find_row};
use gn_value::{Place, ValueKind};
use serde_json::Value;

/// What a value that is looked at as a whole must be.
#[derive(Clone, Copy)]
pub enum Atom {
    /// The whole number 1.
    Format,
    /// 1 to 32 of `a` to `z`, `0` to `9` and `_`.
    Id,
    /// The name of a kind of nodes, or `group`.
    NodeKind,
    /// `true` or `false`.
    Truth,
    /// 1 to 64 bytes from `!` to `~`, and not `position`.
    ColumnName,
    /// 1 to 255 bytes without control characters.
    FileName,
    /// The name of one of these kinds.
    KindIn(&'static [SocketKind]),
    /// One of these words.
    WordOf(&'static [&'static str]),
    /// The name of one of these places.
    PlaceIn(&'static [Place]),
    /// A constant of that kind.
    ConstantAs(ValueKind),
}

fn is_word_text(words: &'static [&'static str], value: &Value) -> bool
    ensures { result ≡ is.is_text (text.is_word (map (λ w. w.now) words.now)) (view value.now) }
{
    match value.as_str() {
        Some(text) => is_word(words, text),
        None => false,
    }
}

/// Reports whether a value is such an atom.
pub fn is_atom(atom: Atom, value: &Value) -> bool
    ensures { result ≡ is.is_atom (atom_of atom) (view value.now) }
{
    match atom {
        Atom::Format => value.as_u64().is_some_and(|number| number == 1),
        Atom::Id => value.as_str().is_some_and(|text| is_id(text)),
        Atom::NodeKind => value.as_str().is_some_and(|text| find_row(text).is_some()),
        Atom::Truth => value.as_bool().is_some(),
        Atom::ColumnName => value.as_str().is_some_and(|text| is_column_name(text)),
        Atom::FileName => value.as_str().is_some_and(|text| is_file_name(text)),
        Atom::KindIn(kinds) => value
            .as_str()
            .is_some_and(|text| find_kind(kinds, text).is_some()),
        Atom::WordOf(words) => is_word_text(words, value),
        Atom::PlaceIn(places) => value
            .as_str()
            .is_some_and(|text| find_place(places, text).is_some()),
        Atom::ConstantAs(kind) => constant_as(kind, value).is_some(),
    }
}
