//! Fields that have one value everywhere, or read it of each element.
ghost use Rattle.std.specs.Prelude.{◌≡◌, [], ◌∷◌, ◌++◌, IfOk, OnOk, string_bytes};
ghost use Rattle.gn_plain.specs.Columns.{named};
ghost use Rattle.gn_plain.specs.Contexts as read;
ghost use Rattle.gn_plain.specs.Fields.{constant, input};
ghost use Rattle.gn_field.specs.Steps.{plain_input};

use gn_field::{Field, Input, Source};
use gn_memory::Memory;
use gn_value::{Value, ValueKind};
use std::alloc::Global;

/// A list of one field.
pub(crate) fn only<S: Source>(alloc: Global, field: Field<S>) -> Result<Vec<Field<S>>, Memory>
    ensures { IfOk result (λ fields. fields.items ≡ field ∷ []) }
{
    let mut fields = Vec::new(alloc);
    fields.push(field)?;
    Ok(fields)
}

/// Adds a field.
pub(crate) fn push<S: Source>(fields: &mut Vec<Field<S>>, field: Field<S>) -> Result<(), Memory>
    ensures { OnOk result (fields.new.items ≡ fields.old.items ++ field ∷ []) }
{
    fields.push(field)?;
    Ok(())
}

/// The value everywhere.
pub(crate) fn constant<S: Source>(alloc: Global, value: Value) -> Result<Vec<Field<S>>, Memory>
    ensures { IfOk result (λ fields. fields.items ≡ constant value ∷ []) }
{
    only(alloc, Field::constant(alloc, value)?)
}

/// What is read of each element.
pub(crate) fn read<S: Source>(alloc: Global, from: Input) -> Result<Vec<Field<S>>, Memory>
    ensures { IfOk result (λ fields. fields.items ≡ input (plain_input from) ∷ []) }
{
    only(alloc, Field::input(alloc, from)?)
}

fn push_read<S: Source>(
    alloc: Global,
    from: Input,
    fields: &mut Vec<Field<S>>,
) -> Result<(), Memory>
    ensures { OnOk result (fields.new.items ≡ fields.old.items ++ input (plain_input from) ∷ []) }
{
    push(fields, Field::input(alloc, from)?)
}

/// The column of a name, and whether there is one.
pub(crate) fn named_attribute<S: Source>(
    alloc: Global,
    name: &String,
    of: ValueKind,
) -> Result<Vec<Field<S>>, Memory>
    ensures { IfOk result (λ fields. fields.items ≡ input (read.column (named (string_bytes name.now)) of) ∷ input (read.exists (string_bytes name.now)) ∷ []) }
{
    let column = name.clone()?;
    let exists = name.clone()?;
    let mut fields = Vec::new(alloc);
    push_read(alloc, Input::Named { name: column, of }, &mut fields)?;
    push_read(alloc, Input::Exists { name: exists }, &mut fields)?;
    Ok(fields)
}

/// The vertices of an edge, and where they are.
pub(crate) fn edge_vertices<S: Source>(alloc: Global) -> Result<Vec<Field<S>>, Memory>
    ensures { IfOk result (λ fields. fields.items ≡ input read.edge_index_1 ∷ input read.edge_index_2 ∷ input read.edge_position_1 ∷ input read.edge_position_2 ∷ []) }
{
    let mut fields = Vec::new(alloc);
    push_read(alloc, Input::EdgeIndex1, &mut fields)?;
    push_read(alloc, Input::EdgeIndex2, &mut fields)?;
    push_read(alloc, Input::EdgePosition1, &mut fields)?;
    push_read(alloc, Input::EdgePosition2, &mut fields)?;
    Ok(fields)
}

/// How many edges and faces a vertex has.
pub(crate) fn vertex_neighbors<S: Source>(alloc: Global) -> Result<Vec<Field<S>>, Memory>
    ensures { IfOk result (λ fields. fields.items ≡ input read.vertex_edges ∷ input read.vertex_faces ∷ []) }
{
    let mut fields = Vec::new(alloc);
    push_read(alloc, Input::VertexEdges, &mut fields)?;
    push_read(alloc, Input::VertexFaces, &mut fields)?;
    Ok(fields)
}
