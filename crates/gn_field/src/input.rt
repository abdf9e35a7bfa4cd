// What fields read of an element, and the steps that read their arguments elsewhere.
ghost use Rattle.std.specs.Prelude.{◌≡◌, IfOk};
ghost use Rattle.std.specs.Bool.{Decides};
ghost use Rattle.gn_plain.specs.Contexts.{kind_of_input};
ghost use Rattle.gn_plain.specs.Fields.{kind_of_step};
ghost use Rattle.gn_field.specs.Steps.{plain_input, step_of};

use gn_lazy::Path;
use gn_memory::Memory;
use gn_value::{Place, ValueKind};

/// What a field reads of an element.
#[derive(Debug, PartialEq, Eq, Drop)]
pub enum Input {
    /// Where the element is.
    Position,
    /// Its number on its place.
    Index,
    /// Its identifier.
    Id,
    /// The normal.
    Normal,
    /// The column of that name, as values of a kind.
    Named {
        name: String,
        of: ValueKind,
    },
    /// Whether there is a column of that name.
    Exists {
        name: String,
    },
    /// The column that an output of the node at a path made, as values of a kind.
    Anonymous {
        path: Path,
        socket: u32,
        of: ValueKind,
    },
    /// The lesser vertex of an edge.
    EdgeIndex1,
    /// The greater vertex of an edge.
    EdgeIndex2,
    /// Where the lesser vertex is.
    EdgePosition1,
    /// Where the greater vertex is.
    EdgePosition2,
    /// How many edges a vertex has.
    VertexEdges,
    /// How many faces a vertex has.
    VertexFaces,
}

/// Which elements of its group an element's sum is over.
#[derive(Clone, Copy, Debug, PartialEq, Eq)]
pub enum Part {
    /// Those up to it.
    Leading,
    /// Those before it.
    Trailing,
    /// All.
    Total,
}

/// What reads its arguments elsewhere.
#[derive(Clone, Copy, Debug, PartialEq, Eq)]
pub enum Step {
    /// Sums of a value over the elements of a place that are of one group.
    Accumulate {
        kind: ValueKind,
        place: Place,
        part: Part,
    },
    /// The value on a place at an index.
    AtIndex {
        kind: ValueKind,
        place: Place,
    },
    /// The values on a place, interpolated.
    OnDomain {
        kind: ValueKind,
        place: Place,
    },
}

/// A path of the same steps.
pub(crate) fn copied_path(path: &Path) -> Result<Path, Memory>
    ensures { IfOk result (λ p. p.steps.items ≡ path.now.steps.items) }
{
    let steps = path.steps.clone()?;
    Ok(Path { steps })
}

impl Input {
    /// The kind of the values that are read.
    pub fn kind(&self) -> ValueKind
        ensures { result ≡ kind_of_input (plain_input self.now) }
    {
        match self {
            Input::Named { of, .. } | Input::Anonymous { of, .. } => *of,
            Input::Exists { .. } => ValueKind::Truth,
            Input::Position | Input::Normal | Input::EdgePosition1 | Input::EdgePosition2 => {
                ValueKind::Vector
            }
            _ => ValueKind::Int,
        }
    }

    /// The same input once more.
    pub fn second(&self) -> Result<Input, Memory>
        ensures { IfOk result (λ x. plain_input x ≡ plain_input self.now) }
    {
        Ok(match self {
            Input::Position => Input::Position,
            Input::Index => Input::Index,
            Input::Id => Input::Id,
            Input::Normal => Input::Normal,
            Input::Named { name, of } => Input::Named {
                name: name.clone()?,
                of: *of,
            },
            Input::Exists { name } => Input::Exists {
                name: name.clone()?,
            },
            Input::Anonymous { path, socket, of } => Input::Anonymous {
                path: copied_path(path)?,
                socket: *socket,
                of: *of,
            },
            Input::EdgeIndex1 => Input::EdgeIndex1,
            Input::EdgeIndex2 => Input::EdgeIndex2,
            Input::EdgePosition1 => Input::EdgePosition1,
            Input::EdgePosition2 => Input::EdgePosition2,
            Input::VertexEdges => Input::VertexEdges,
            Input::VertexFaces => Input::VertexFaces,
        })
    }

    /// Whether both read the same.
    pub(crate) fn is_same(&self, other: &Input) -> bool
        ensures { Decides result (plain_input self.now ≡ plain_input other.now) }
    {
        self == other
    }
}

impl Step {
    /// The kind of the values that the step gives.
    pub fn kind(self) -> ValueKind
        ensures { result ≡ kind_of_step (step_of self) }
    {
        match self {
            Step::Accumulate { kind, .. }
            | Step::AtIndex { kind, .. }
            | Step::OnDomain { kind, .. } => kind,
        }
    }

    /// Whether both are the same.
    pub(crate) fn is_same(self, other: Step) -> bool
        ensures { Decides result (step_of self ≡ step_of other) }
    {
        self == other
    }
}
