ghost use Rattle.std.specs.Prelude.{◌≡◌, true, length};
ghost use Rattle.gn_lines.specs.Lines.{first_words, other_lines, lines};
ghost use Rattle.gn_elements.specs.Read.{vertex_of, with_vertices, face_of, row, nothing};
ghost use Rattle.gn_elements.specs.Read.{element_of};
ghost use Rattle.gn_elements.specs.Growing.{fits};
ghost use Rattle.gn_elements.specs.Steps.{Grows};
ghost use Rattle.gn_elements.specs.Seen.{growing, named_in, IsGrown};

use crate::different::are_different;
use crate::fault::{LineFault, ObjFault};
use crate::parts::Parts;
use crate::row::{read_position, read_row};
use gn_lines::Lines;
use std::alloc::Global;

/// Reads the words behind `v`.
#[inline(always)]
fn read_vertex(lines: &mut Lines<'_>, parts: &mut Parts) -> Result<(), LineFault>
    requires { fits (growing parts.old) ≡ true }
    ensures grows { Grows (growing parts.old)
        (vertex_of (first_words lines.old)) (growing parts.new) result }
    ensures others { other_lines lines.new ≡ other_lines lines.old }
{
    let point = read_position(lines)?;
    parts.add_vertex(point)
}

/// Reads the words behind `f`.
#[inline(always)]
fn read_face(
    alloc: Global,
    lines: &mut Lines<'_>,
    vertices: &mut Vec<u32>,
    parts: &mut Parts,
) -> Result<(), LineFault>
    requires { fits (growing parts.old) ≡ true }
    ensures grows { Grows (growing parts.old)
        (with_vertices face_of (named_in parts.old 3 (first_words lines.old)))
        (growing parts.new) result }
    ensures others { other_lines lines.new ≡ other_lines lines.old }
{
    let count = parts.points.len() as u32;
    read_row(lines, 3, count, vertices)?;
    if !are_different(alloc, vertices)? {
        return Ok(());
    }
    parts.add_face(vertices)
}

/// Reads the words behind `l`.
fn read_edges(
    lines: &mut Lines<'_>,
    vertices: &mut Vec<u32>,
    parts: &mut Parts,
) -> Result<(), LineFault>
    requires { fits (growing parts.old) ≡ true }
    ensures grows { Grows (growing parts.old)
        (with_vertices row (named_in parts.old 2 (first_words lines.old)))
        (growing parts.new) result }
    ensures others { other_lines lines.new ≡ other_lines lines.old }
{
    let count = parts.points.len() as u32;
    read_row(lines, 2, count, vertices)?;
    parts.add_row(vertices)
}

/// Reads the words behind `p`.
fn read_points(
    lines: &mut Lines<'_>,
    vertices: &mut Vec<u32>,
    parts: &mut Parts,
) -> Result<(), LineFault>
    requires { fits (growing parts.old) ≡ true }
    ensures grows { Grows (growing parts.old)
        (with_vertices (λ vs. nothing) (named_in parts.old 1 (first_words lines.old)))
        (growing parts.new) result }
    ensures others { other_lines lines.new ≡ other_lines lines.old }
{
    let count = parts.points.len() as u32;
    read_row(lines, 1, count, vertices)
}

/// Reads the words left of a line.
#[inline(always)]
fn read_words(
    alloc: Global,
    lines: &mut Lines<'_>,
    vertices: &mut Vec<u32>,
    parts: &mut Parts,
) -> Result<(), LineFault>
    requires { fits (growing parts.old) ≡ true }
    ensures grows { Grows (growing parts.old)
        (element_of (length (growing parts.old).points) (first_words lines.old))
        (growing parts.new) result }
    ensures others { other_lines lines.new ≡ other_lines lines.old }
{
    let Some(keyword) = lines.next_word() else {
        return Ok(());
    };
    match keyword {
        b"v" => read_vertex(lines, parts),
        b"f" => read_face(alloc, lines, vertices, parts),
        b"l" => read_edges(lines, vertices, parts),
        b"p" => read_points(lines, vertices, parts),
        _ => Ok(()),
    }
}

/// Reads the parts of the mesh that an OBJ text spells.
///
/// # Errors
///
/// `Bad` where the text spells no mesh, with its first bad line and the least rule that the line
/// breaks. `Memory` for want of memory.
pub fn read_parts(alloc: Global, bytes: &[u8]) -> Result<Parts, ObjFault>
    ensures { IsGrown (lines bytes.now) result }
{
    let mut lines = Lines::new(bytes);
    let mut parts = Parts::new(alloc)?;
    let mut vertices = Vec::new(alloc);
    loop {
        let number = lines.number();
        match read_words(alloc, &mut lines, &mut vertices, &mut parts) {
            Ok(()) => {}
            Err(LineFault::Broken(rule)) => {
                return Err(ObjFault::Bad {
                    line: number,
                    rule: rule.number(),
                });
            }
            Err(LineFault::Memory) => return Err(ObjFault::Memory),
        }
        if !lines.next_line() {
            return Ok(parts);
        }
    }
}
