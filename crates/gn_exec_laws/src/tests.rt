use crate::laws::*;
use crate::node_set::{MeaningsOf, NodeSet, shared_values_are_plain};
use std::test::Fail;

// A set with one kind of node, over values that are all alike and can be shared.
struct OneKind;

impl NodeSet for OneKind {
    type Kind = u8;

    type Value = u8;

    ghost use Rattle.std.specs.Prelude.{refl, [], ◌∷◌, Some, None, true};
    ghost use Rattle.gn_node_set.specs.Meanings.{Plain, no_case, plain_link, an_item};

    ghost Kinds = { Unit {0} };

    ghost Values = { Unit {0} };

    ghost Sorts = { Unit {0} };

    ghost Sources = { ⊥ };

    ghost meanings = { record {
      rows = record {
        role = λ kind. Plain;
        file = λ kind. [];
        choice = λ kind v. no_case;
        row = λ p kind inputs answer. record { outputs = tt ∷ []; warnings = [] };
        turns = λ kind v. 0;
        convert = λ v kind. v;
      };
      opens = λ p kind v. record { nodes = []; outputs = plain_link (an_item 0) ∷ [] };
      sort = λ v. tt;
      shift = λ s kind. None;
      fits = λ kind sorts. true;
      gives = λ kind. tt ∷ [];
      height = λ kind. 0;
      tag = λ v p. None;
      nothing = tt;
    } };

    ghost lawful = { record {
      rows = λ p kind inputs answer can. record {
        sorts = λ plain. refl;
        count = λ zone. (tt, refl);
        tags = λ v h q t. absurd t;
        agree = λ u v h k q s. absurd s;
        warns = λ x h. absurd h;
      };
      opens = λ p kind count sorts ends zone fits. record {
        lower = λ node h. absurd h;
        in_turns = λ node h. absurd h;
        differ = tt;
        fit = tt;
        outputs = ((tt, refl, refl), tt);
      };
      conversion_sorts = λ v kind s e. refl;
      conversion_tags = λ v kind s e p. refl;
    } };

    ghost kind_of = { λ kind. tt };

    ghost content = { λ value. tt };

    ghost shareable = { λ s. true };

    ghost shared_stay = { λ s kind can. refl };
}

#[test]
fn the_laws_can_be_called_at_a_set_of_nodes(_rt: HostRuntime) -> Result<(), Fail> {
    nodes_are_taken_once::<MeaningsOf<OneKind>>();
    worlds_only_grow::<MeaningsOf<OneKind>>();
    tags_of_set_outputs_agree::<MeaningsOf<OneKind>>();
    worlds_fit::<MeaningsOf<OneKind>>();
    ready_nodes_can_run::<MeaningsOf<OneKind>>();
    uses_only_narrow::<MeaningsOf<OneKind>>();
    set_outputs_are_right::<MeaningsOf<OneKind>>();
    used_nodes_are_demanded::<MeaningsOf<OneKind>>();
    unfinished_nodes_wait::<MeaningsOf<OneKind>>();
    runs_end_well::<MeaningsOf<OneKind>>();
    runs_can_end::<MeaningsOf<OneKind>>();
    graphs_have_one_solution::<MeaningsOf<OneKind>>();
    demands_can_be_listed::<MeaningsOf<OneKind>>();
    paths_name_one_node::<MeaningsOf<OneKind>>();
    imports_are_served_once::<MeaningsOf<OneKind>>();
    events_are_bounded::<MeaningsOf<OneKind>>();
    worlds_come_of_events::<MeaningsOf<OneKind>>();
    zone_outputs_lead_on::<MeaningsOf<OneKind>>();
    takes_are_counted::<MeaningsOf<OneKind>>();
    demanded_imports_are_served::<MeaningsOf<OneKind>>();
    shared_values_are_plain::<OneKind>();
    Ok(())
}
