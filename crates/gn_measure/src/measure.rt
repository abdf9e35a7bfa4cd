ghost use Rattle.std.specs.Prelude.{◌≡◌};
ghost use Rattle.gn_tree.specs.Seen.{nodes_of, settings_of};
ghost use Rattle.gn_rules.specs.Measures as measures;
ghost use Rattle.gn_measure.specs.Capped.{capped};
ghost use Rattle.gn_measure.specs.Measures.{known, height_of, count_of};

use gn_names::Names;
use gn_tree::{Node, Setting};

/// What each group has, by its name; only the first `above` of them are there to be used.
#[derive(Clone, Copy)]
pub(crate) struct Known<'a, 't> {
    pub(crate) names: &'a Names<'t>,
    pub(crate) numbers: &'a [u64],
    pub(crate) above: usize,
}

fn number_of(groups: &Known<'_, '_>, name: &str) -> u64
    ensures { result ≡ known groups.now name.now }
{
    match groups.names.first(name) {
        Some(position) => {
            if position < groups.above && position < groups.numbers.len() {
                return groups.numbers[position];
            }
            0
        }
        None => 0,
    }
}

/// The node's nesting height, saturating at 2^64 - 1.
#[cycle(height)]
pub(crate) fn height(groups: &Known<'_, '_>, node: &Node) -> u64
    ensures { result ≡ capped (measures.height (known groups.now) node.now) }
{
    height_in(groups, &node.settings)
}

#[cycle(height)]
fn height_of(groups: &Known<'_, '_>, setting: &Setting) -> u64
    ensures { result ≡ capped (height_of (known groups.now) setting.now) }
{
    match setting {
        Setting::Group { name } => number_of(groups, name),
        Setting::Zone { zone } => heights(groups, &zone.nodes).saturating_add(1),
        _ => 0,
    }
}

#[cycle(height)]
fn height_in(groups: &Known<'_, '_>, settings: &Vec<Setting>) -> u64
    ensures { result ≡ capped (measures.height_in (known groups.now) (settings_of settings.now.items)) }
{
    let mut highest: u64 = 0;
    for setting in settings {
        highest = highest.max(height_of(groups, setting));
    }
    highest
}

/// The nesting height of the highest node, saturating at 2^64 - 1.
#[cycle(height)]
pub(crate) fn heights(groups: &Known<'_, '_>, nodes: &Vec<Node>) -> u64
    ensures { result ≡ capped (measures.heights (known groups.now) (nodes_of nodes.now.items)) }
{
    let mut highest: u64 = 0;
    for node in nodes {
        highest = highest.max(height(groups, node));
    }
    highest
}

#[cycle(count)]
fn count(groups: &Known<'_, '_>, node: &Node) -> u64
    ensures { result ≡ capped (measures.count (known groups.now) node.now) }
{
    count_in(groups, &node.settings).saturating_add(1)
}

#[cycle(count)]
fn count_of(groups: &Known<'_, '_>, setting: &Setting) -> u64
    ensures { result ≡ capped (count_of (known groups.now) setting.now) }
{
    match setting {
        Setting::Group { name } => number_of(groups, name),
        Setting::Zone { zone } => counts(groups, &zone.nodes),
        _ => 0,
    }
}

#[cycle(count)]
fn count_in(groups: &Known<'_, '_>, settings: &Vec<Setting>) -> u64
    ensures { result ≡ capped (measures.count_in (known groups.now) (settings_of settings.now.items)) }
{
    let mut all: u64 = 0;
    for setting in settings {
        all = all.saturating_add(count_of(groups, setting));
    }
    all
}

/// The number of nodes with groups unfolded, saturating at 2^64 - 1.
#[cycle(count)]
pub(crate) fn counts(groups: &Known<'_, '_>, nodes: &Vec<Node>) -> u64
    ensures { result ≡ capped (measures.counts (known groups.now) (nodes_of nodes.now.items)) }
{
    let mut all: u64 = 0;
    for node in nodes {
        all = all.saturating_add(count(groups, node));
    }
    all
}
