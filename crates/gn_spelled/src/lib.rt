//! What the lines of an OBJ text grow to is the mesh that the text spells.
//!
//! The crate has no code: `proofs/Spelled.antt` shows that the parts that `gn_elements` reads line by
//! line are the parts of a mesh, that this mesh is the one that the text spells by the definition
//! over all lines at once, and that the first bad line and its rule are the same. It stands on the
//! definitions of `gn_elements` and on `gn_plain`.
#![tactic(auto)]
