use gn_lazy::{GraphNode, Link, Path};
use gn_shared::{SharedArray, USERS};

/// What an import gets for its file.
#[derive(Drop)]
pub enum Answer {
    /// The bytes of the file.
    Whole(SharedArray<u8, USERS>),
    /// There is no such file.
    Absent,
    /// The file is longer than an import may read.
    TooLong,
}

/// What a node warns of.
#[derive(Clone, Copy, Debug, PartialEq, Eq)]
pub enum WarningText {
    /// The fields at its inputs and outputs have too many subtrees.
    FieldLimit,
    /// A geometry has instances in instances too deep.
    Depth,
    /// A geometry has too many elements.
    Limit,
    /// A zone turns too often.
    Iterations,
    /// There is no file.
    Absent,
    /// The file is too long.
    TooLong,
    /// A line of the file breaks a rule of OBJ.
    ObjLine {
        /// The line, from 1.
        line: u64,
        /// The rule, from 1 to 5.
        rule: u8,
    },
    /// There is no attribute of the name.
    NoAttribute,
    /// There is no column of the name.
    NoColumn,
}

/// A warning of a node.
#[derive(Drop)]
pub struct Warning {
    /// The node's path.
    pub path: Path,
    /// What it warns of.
    pub text: WarningText,
}

/// What a node hands in when it was run.
#[derive(Drop)]
pub struct Done<V> {
    /// Its outputs, in order.
    pub outputs: Vec<V>,
    /// Its warnings.
    pub warnings: Vec<Warning>,
}

/// What a zone adds to the graph when it is opened.
///
/// The nodes are numbered from a base on. A constant with a number below that of the zone's items is
/// such an item; behind them come the zone's own constants.
#[derive(Drop)]
pub struct Opened<K, V> {
    /// The nodes of its turns, each behind those that its links lead to.
    pub nodes: Vec<GraphNode<K>>,
    /// Values that the nodes share.
    pub constants: Vec<V>,
    /// Where each output of the zone comes from.
    pub outputs: Vec<Link>,
}
