use gn_found::laws::{
    found_graphs_are_filled_in, found_graphs_exist, found_graphs_lead_back, found_paths_differ,
    repeats_have_bodies,
};
use gn_lower::laws::lowered_graphs_stand;
use gn_stands::TreeMeanings;
use gn_zone::laws::{each_output_is_opened, found_zones_are_filled_in, opened_zones_are_found};
use std::test::Fail;

// Nodes that give nothing, over values that are all alike: the laws are called at one type.
struct NoValues;

impl TreeMeanings for NoValues {
    ghost use Rattle.std.specs.Prelude.{[], None, true};
    ghost use Rattle.gn_node_set.specs.Meanings.{Plain, no_case};

    ghost Values = { Unit {0} };

    ghost Sorts = { Unit {0} };

    ghost Sources = { ⊥ };

    ghost meanings = { record {
      rows = record {
        role = λ kind. Plain;
        file = λ kind. [];
        choice = λ kind v. no_case;
        row = λ p kind inputs answer. record { outputs = []; warnings = [] };
        turns = λ kind v. 0;
        convert = λ v kind. v;
      };
      opens = λ p kind v. record { nodes = []; outputs = [] };
      sort = λ v. tt;
      shift = λ s kind. None;
      fits = λ kind sorts. true;
      gives = λ kind. [];
      height = λ kind. 0;
      tag = λ v p. None;
      nothing = tt;
    } };
}

#[test]
fn the_laws_can_be_called_at_meanings(_rt: HostRuntime) -> Result<(), Fail> {
    found_graphs_lead_back::<NoValues>();
    found_paths_differ::<NoValues>();
    found_graphs_are_filled_in::<NoValues>();
    found_graphs_exist();
    repeats_have_bodies();
    lowered_graphs_stand::<NoValues>();
    found_zones_are_filled_in::<NoValues>();
    opened_zones_are_found::<NoValues>();
    each_output_is_opened();
    Ok(())
}
