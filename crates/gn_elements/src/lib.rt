//! What each line of an OBJ text adds to a mesh.
//!
//! It is the reading half of OBJ: `gn_lines` below it knows lines and words alone, and `gn_obj`
//! above it makes a mesh of what is read here. That this is the mesh that the text spells is proved
//! in `gn_spelled`, between the two.
//!
//! `read_parts` returns the vertices, edges, faces and corners that a text spells, or its first bad
//! line with the least rule that it breaks. It goes over the bytes once, with no memory for a line
//! or a word. What mesh a text spells is defined in `specs/Read.antt`. The crate stands on
//! `gn_lines`, on `gn_decimal`, which reads numbers, and on `gn_edges`, which keeps the edges in the
//! order in which they came. No text can choose what its edges or the vertices of a face cost, since
//! nothing here goes by a hash.
#![tactic(auto)]

mod different;
mod fault;
mod parts;
mod read;
mod reference;
mod row;
mod rule;

pub use fault::ObjFault;
pub use parts::Parts;
pub use read::read_parts;
