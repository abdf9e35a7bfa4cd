ghost use Rattle.std.specs.Prelude.{◌≡◌};
ghost use Rattle.gn_kinds.specs.Seen.{setting_of};
ghost use Rattle.gn_form.specs.Form as is;
ghost use Rattle.gn_form.specs.Seen.{form_of};

use gn_atom::Atom;
use gn_kinds::{Row, SettingForm};

/// What a value must be.
#[derive(Clone, Copy)]
pub(crate) enum Form {
    Tree,
    Group,
    Socket,
    Node,
    Link,
    Input,
    /// A value that is looked at as a whole.
    Atom(Atom),
    Groups,
    Sockets,
    Nodes,
    /// An object from ids to inputs.
    Outputs,
    InputsOf(&'static Row),
    SettingsOf(&'static Row),
    /// The inputs of a node whose kind has no row.
    AnyInputs,
    /// The settings of a node whose kind has no row.
    AnyObject,
}

/// Returns the key of a setting.
pub(crate) fn setting_name(setting: SettingForm) -> &'static str
    ensures { result.now ≡ (is.setting_key (setting_of setting)).name }
{
    match setting {
        SettingForm::Type(_) => "type",
        SettingForm::Op(_) => "op",
        SettingForm::Place(_) => "place",
        SettingForm::Clamp => "clamp",
        SettingForm::Name => "name",
        SettingForm::File => "file",
        SettingForm::Value(_) => "value",
        SettingForm::Group => "group",
        SettingForm::Items => "items",
        SettingForm::Nodes => "nodes",
        SettingForm::Output => "output",
    }
}

/// Reports whether a setting is required.
pub(crate) fn is_required(setting: SettingForm) -> bool
    ensures { result ≡ (is.setting_key (setting_of setting)).needed }
{
    !matches!(setting, SettingForm::Output)
}

/// Returns what the value of a setting must be.
pub(crate) fn setting_form(setting: SettingForm) -> Form
    ensures { form_of result ≡ (is.setting_key (setting_of setting)).form }
{
    match setting {
        SettingForm::Type(kinds) => Form::Atom(Atom::KindIn(kinds)),
        SettingForm::Op(names) => Form::Atom(Atom::WordOf(names)),
        SettingForm::Place(places) => Form::Atom(Atom::PlaceIn(places)),
        SettingForm::Clamp => Form::Atom(Atom::Truth),
        SettingForm::Name => Form::Atom(Atom::ColumnName),
        SettingForm::File => Form::Atom(Atom::FileName),
        SettingForm::Value(kind) => Form::Atom(Atom::ConstantAs(kind)),
        SettingForm::Group => Form::Atom(Atom::Id),
        SettingForm::Items => Form::Sockets,
        SettingForm::Nodes => Form::Nodes,
        SettingForm::Output => Form::Outputs,
    }
}
