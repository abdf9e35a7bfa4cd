use gn_kinds::SocketKind;

/// What a socket carries, and whether it takes a list of it.
#[derive(Clone, Copy, Debug)]
pub struct Shape {
    pub kind: SocketKind,
    pub many: bool,
}
