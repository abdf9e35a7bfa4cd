ghost use Rattle.gn_tree.specs.Form.{IsOfForm, IsOfForm-prop};
ghost use Rattle.gn_tree.specs.Seen.{tree_of};
ghost use Rattle.gn_rules.specs.Rules.{KeepsRules};

use gn_tree::Tree;

/// A tree that is of its form and keeps the rules.
#[derive(Drop)]
pub struct GoodTree {
    pub(crate) tree: Tree,
    ghost formed: { IsOfForm (tree_of tree) } by { IsOfForm-prop (tree_of tree) },
    ghost keeps: { KeepsRules (tree_of tree) },
}

impl GoodTree {
    ghost use Rattle.std.specs.Prelude.{◌≡◌};
    ghost use Rattle.gn_tree.specs.Form.{IsOfForm};
    ghost use Rattle.gn_tree.specs.Seen.{tree_of};
    ghost use Rattle.gn_rules.specs.Rules.{KeepsRules};
    ghost use Rattle.gn_check.specs.Answers.{tree_in};

    /// The tree.
    pub fn tree(&self) -> &Tree
        ensures same { tree_of result.now ≡ tree_in self.now }
        ensures formed { IsOfForm (tree_of result.now) }
        ensures kept { KeepsRules (tree_of result.now) }
    {
        &self.tree
    }
}
