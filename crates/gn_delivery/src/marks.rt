ghost use Rattle.std.specs.Prelude.{◌≡◌, ℕ, [], ◌∷◌, length};
ghost use Rattle.gn_node_set.specs.Meanings.{Has};
ghost use Rattle.gn_uses.specs.Uses.{HasInput};
ghost use Rattle.gn_readers.specs.declared.place.Place.TheVariants.{Input};
ghost use Rattle.gn_readers.specs.declared.place.Reader.{Reader as ReaderMeant};
ghost use Rattle.gn_delivery.specs.Marks.{Chooses, Fills};

use crate::plan::Chosen;
use gn_readers::{Place, Reader};
use gn_uses::{Choice, Uses};

/// A switch chooses, if it has not chosen. The choices stay those of the nodes.
fn choose_one(uses: &mut Uses, choices: &mut Vec<Option<Choice>>, chosen: &Chosen)
    requires same { choices.old.items ≡ uses.old.nodes.choices }
    requires whole { length uses.old.nodes.choices ≡ length uses.old.nodes.sizes }
    ensures nodes { Chooses uses.old.nodes (chosen.now ∷ []) uses.new.nodes }
    ensures taken { uses.new.taken ≡ uses.old.taken }
    ensures choices { choices.new.items ≡ uses.new.nodes.choices }
{
    if !uses.is_unchosen(chosen.node) {
        return;
    }
    choices[chosen.node] = Some(chosen.choice);
    uses.choose(chosen.node, chosen.choice);
}

/// The switches choose.
///
/// Condition: the choices are those of the nodes, one for each. They stay so.
pub fn choose_all(uses: &mut Uses, choices: &mut Vec<Option<Choice>>, chosen: &[Chosen])
    requires same { choices.old.items ≡ uses.old.nodes.choices }
    requires whole { length uses.old.nodes.choices ≡ length uses.old.nodes.sizes }
    ensures nodes { Chooses uses.old.nodes chosen.now uses.new.nodes }
    ensures taken { uses.new.taken ≡ uses.old.taken }
    ensures choices { choices.new.items ≡ uses.new.nodes.choices }
{
    for one in chosen {
        choose_one(uses, choices, one);
    }
}

/// The reader's place has its value, if it is an input.
fn fill_one(uses: &mut Uses, reader: &Reader)
    requires { (n i : ℕ) → reader.now.place ≡ Input n i → HasInput uses.old.nodes n i }
    ensures nodes { Fills uses.old.nodes (reader.now ∷ []) uses.new.nodes }
    ensures taken { uses.new.taken ≡ uses.old.taken }
{
    if let Place::Input { node, input } = reader.place {
        uses.fill(node, input);
    }
}

/// The inputs among the readers have their values.
///
/// Condition: they are inputs of the nodes.
pub fn fill_all(uses: &mut Uses, readers: &[Reader])
    requires { (r : ReaderMeant) (n i : ℕ) → Has readers.now r → r.place ≡ Input n i → HasInput uses.old.nodes n i }
    ensures nodes { Fills uses.old.nodes readers.now uses.new.nodes }
    ensures taken { uses.new.taken ≡ uses.old.taken }
{
    for reader in readers {
        fill_one(uses, reader);
    }
}
