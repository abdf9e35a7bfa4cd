/// Sees each node that runs: its number as it begins and as it ends.
pub trait Gate {
    /// The node of this number begins.
    fn enter(&self, node: u64);

    /// The node of this number has ended.
    fn leave(&self, node: u64);
}

/// A gate that does nothing.
#[derive(Clone, Copy, Debug)]
pub struct OpenGate;

impl Gate for OpenGate {
    fn enter(&self, _node: u64) {}

    fn leave(&self, _node: u64) {}
}
