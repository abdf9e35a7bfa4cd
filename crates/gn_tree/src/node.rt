ghost use Rattle.std.specs.Prelude.{◌≡◌, map};
ghost use Rattle.gn_tree.specs.Nodes.{id_in, kind_in, settings_in, inputs_in};
ghost use Rattle.gn_tree.specs.Seen.{named_of, settings_of};

use crate::tree::{Node, Setting, TreeInput};

impl Node {
    /// The node's id, which names it in its list.
    pub fn id(&self) -> &str
        ensures { result.now ≡ id_in self.now }
    {
        self.id.as_str()
    }

    /// The name of the node's kind.
    pub fn kind(&self) -> &str
        ensures { result.now ≡ kind_in self.now }
    {
        self.kind.as_str()
    }

    /// The node's settings, in the order of its kind's row.
    pub fn settings(&self) -> &[Setting]
        ensures { settings_of result.now ≡ settings_in self.now }
    {
        self.settings.as_slice()
    }

    /// What is written to the node's inputs, by their names.
    pub fn inputs(&self) -> &[(String, TreeInput)]
        ensures { map named_of result.now ≡ inputs_in self.now }
    {
        self.inputs.as_slice()
    }
}
