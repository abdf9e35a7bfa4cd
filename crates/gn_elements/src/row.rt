ghost use Rattle.std.specs.Prelude.{◌≡◌, ◌<◌, ◌-◌, ◌^◌};
ghost use Rattle.gn_lines.specs.Lines.{first_words, other_lines};
ghost use Rattle.gn_elements.specs.Steps.{IsOutcome, IsRow, IsNumber, IsPosition};

use crate::fault::LineFault;
use crate::reference::{Reference, read_reference};
use crate::rule::Rule;
use gn_lines::Lines;
use gn_value::{Fx, V3};

/// Which rule a row of references breaks, by how many there are.
fn rule_of(words: usize, least: usize, are_references: bool, are_there: bool) -> Result<(), Rule>
    ensures { IsOutcome words least are_references are_there result }
{
    if words < least {
        return Err(Rule::TooFewReferences);
    }
    if !are_references {
        return Err(Rule::NoReference);
    }
    if !are_there {
        return Err(Rule::NoVertex);
    }
    Ok(())
}

/// Reads the vertices that the words left of a line name into `row`; `count` vertices were read so
/// far. There are at least `least` references.
pub(crate) fn read_row(
    lines: &mut Lines<'_>,
    least: usize,
    count: u32,
    row: &mut Vec<u32>,
) -> Result<(), LineFault>
    requires { count < 2 ^ 32 - 1 }
    ensures row { IsRow least count (first_words lines.old) row.new.items result }
    ensures others { other_lines lines.new ≡ other_lines lines.old }
{
    row.clear();
    let mut are_references = true;
    let mut are_there = true;
    while let Some(word) = lines.next_word() {
        match read_reference(word, count) {
            Reference::Vertex(vertex) => row.push(vertex)?,
            Reference::Missing => {
                are_there = false;
                row.push(0)?;
            }
            Reference::Malformed => {
                are_references = false;
                row.push(0)?;
            }
        }
    }
    Ok(rule_of(row.len(), least, are_references, are_there)?)
}

/// Takes a number from the words left of a line.
fn read_number(lines: &mut Lines<'_>) -> Result<Fx, Rule>
    ensures number { IsNumber (first_words lines.old) (first_words lines.new) result }
    ensures others { other_lines lines.new ≡ other_lines lines.old }
{
    let Some(word) = lines.next_word() else {
        return Err(Rule::NoPosition);
    };
    match gn_decimal::read(word) {
        Ok(number) => Ok(number),
        Err(_) => Err(Rule::NoPosition),
    }
}

/// The position that the words left of a line begin with.
#[inline(always)]
pub(crate) fn read_position(lines: &mut Lines<'_>) -> Result<V3, Rule>
    ensures position { IsPosition (first_words lines.old) result }
    ensures others { other_lines lines.new ≡ other_lines lines.old }
{
    let x = read_number(lines)?;
    let y = read_number(lines)?;
    let z = read_number(lines)?;
    Ok(V3 { x, y, z })
}
