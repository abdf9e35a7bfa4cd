use gn_check::GoodTree;
use gn_geom::Mesh;
use gn_plans::Plan;

/// A well-formed tree, and the bytes of its text.
#[derive(Drop)]
pub(crate) struct LoadedTree {
    pub(crate) bytes: Vec<u8>,
    pub(crate) tree: GoodTree,
}

/// What a tree asks for, and the bytes of its text.
#[derive(Drop)]
pub(crate) struct PlannedTree {
    pub(crate) bytes: Vec<u8>,
    pub(crate) plan: Plan,
}

/// What a tree asks for, and the mesh of its input.
#[derive(Drop)]
pub(crate) struct Prepared {
    pub(crate) mesh: Mesh,
    pub(crate) plan: Plan,
}
