//! Reading a mesh from an OBJ text, and writing a geometry as one.
//!
//! It is the top of the crates for OBJ: `gn_lines` splits a text into lines and words, `gn_elements`
//! reads the parts of a mesh from them, `gn_spelled` proves that these are the parts of the mesh
//! that the text spells, and this crate makes the mesh, and writes one.
//!
//! `read_obj` returns the mesh that a text spells, or its first bad line with the least rule that it
//! breaks; what a text spells is defined in `gn_elements`.
//!
//! `write_obj` hands a geometry on to a sink as a line for each vertex, then one for each edge that
//! no face has, and then one for each face. It takes no memory: its lines wait on a page on the
//! stack. Where the sink fails, it returns how many bytes went in, and these are a front part of the
//! text. The crate stands on `gn_geom`, on `gn_decimal`, which prints numbers, on `gn_io`, whose
//! sinks take the text, and on the crates that are named above.
#![tactic(auto)]

mod page;
mod read;
mod write;

pub use gn_elements::ObjFault;
pub use read::read_obj;
pub use write::write_obj;
