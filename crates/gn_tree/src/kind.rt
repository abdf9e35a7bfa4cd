use crate::tree::{Group, Node, Socket, TreeInput};
use gn_kinds::SocketKind;
use gn_value::op::{
    BooleanMathOp, CompareKind, CompareOp, IntegerMathOp, MathOp, MixKind, RoundMode, VectorMathOp,
};
use gn_value::{Fx, Place, V3, ValueKind};
use std::sync::Arc;

/// A kind of node with its settings, named as in a tree; `of` is the setting `type`. Groups have no
/// kind here, since a group node stands for the nodes of its group.
#[derive(Drop)]
pub enum Kind {
    Float {
        value: Fx,
    },
    Integer {
        value: i32,
    },
    Boolean {
        value: bool,
    },
    Vector {
        value: V3,
    },
    Position,
    Index,
    Id,
    Normal,
    NamedAttribute {
        name: String,
        of: ValueKind,
    },
    EdgeVertices,
    VertexNeighbors,
    Math {
        op: MathOp,
    },
    IntegerMath {
        op: IntegerMathOp,
    },
    VectorMath {
        op: VectorMathOp,
    },
    BooleanMath {
        op: BooleanMathOp,
    },
    Compare {
        of: CompareKind,
        op: CompareOp,
    },
    Clamp,
    MapRange {
        clamp: bool,
    },
    Mix {
        of: MixKind,
    },
    FloatToInteger {
        op: RoundMode,
    },
    CombineXyz,
    SeparateXyz,
    RandomValue {
        of: ValueKind,
    },
    Switch {
        of: SocketKind,
    },
    AccumulateField {
        of: ValueKind,
        place: Place,
    },
    EvaluateAtIndex {
        of: ValueKind,
        place: Place,
    },
    EvaluateOnDomain {
        of: ValueKind,
        place: Place,
    },
    SampleIndex {
        of: ValueKind,
        place: Place,
        clamp: bool,
    },
    SampleNearest {
        place: Place,
    },
    CaptureAttribute {
        of: ValueKind,
        place: Place,
    },
    StoreNamedAttribute {
        name: String,
        of: ValueKind,
        place: Place,
    },
    RemoveNamedAttribute {
        name: String,
    },
    AttributeStatistic {
        place: Place,
    },
    DomainSize,
    SetPosition,
    SetId,
    JoinGeometry,
    TransformGeometry,
    DeleteGeometry {
        place: Place,
    },
    SeparateGeometry {
        place: Place,
    },
    SeparateComponents,
    BoundingBox,
    FlipFaces,
    MeshToPoints {
        place: Place,
    },
    PointsToVertices,
    DuplicateElements,
    MeshLine,
    Grid,
    Cube,
    Points,
    ImportObj {
        file: String,
    },
    /// The items, the nodes of the body and what it gives out, with the groups of the tree, by which
    /// group nodes in the body are unfolded.
    Repeat {
        items: Vec<Socket>,
        nodes: Vec<Node>,
        output: Vec<(String, TreeInput)>,
        groups: Arc<Vec<Group>>,
    },
    GeometryToInstance,
    InstanceOnPoints,
    RealizeInstances,
    TranslateInstances,
    ScaleInstances,
    InstancesToPoints,
}
