ghost use Rattle.std.specs.Prelude.{◌≡◌, ◌+◌, ◌<◌, ◌^◌, ◌++◌, true, length, filter, IfOk, OnOk, Ok};
ghost use Rattle.gn_plain.specs.Edges.{edges_along, edges_around};
ghost use Rattle.gn_edges.specs.Added.{edges_in, Adds};
ghost use Rattle.gn_elements.specs.Read.{vertex, row, face, is_proper};
ghost use Rattle.gn_elements.specs.Growing.{fits, numbers_among, none_yet};
ghost use Rattle.gn_elements.specs.Steps.{Grows};
ghost use Rattle.gn_elements.specs.Seen.{growing};

use crate::fault::LineFault;
use crate::rule::Rule;
use gn_edges::Edges;
use gn_memory::Memory;
use gn_value::V3;
use std::alloc::Global;

/// How many vertices, edges, faces or corners a mesh has at most.
pub(crate) const MOST: usize = 1 << 23;

/// The parts of a mesh while it is read.
#[derive(Drop)]
pub struct Parts {
    /// Where the vertices are.
    pub points: Vec<V3>,
    /// The different edges in the order in which they came, the lesser vertex first.
    pub edges: Edges,
    /// The vertex of each corner.
    pub corner_points: Vec<u32>,
    /// The edge of each corner.
    pub corner_edges: Vec<u32>,
    /// Where each face's corners begin, and at last the number of corners.
    pub faces: Vec<u32>,
}

/// Puts the edges between neighbours that differ behind the others, each unless it is one of them.
fn add_edges_along(edges: &mut Edges, row: &[u32]) -> Result<(), Memory>
    ensures { OnOk result (Adds (filter is_proper (edges_along row.now)) edges.old edges.new) }
{
    let [first, others @ ..] = row else {
        return Ok(());
    };
    let mut from = *first;
    for to in others {
        if from != *to {
            edges.add(from, *to)?;
        }
        from = *to;
    }
    Ok(())
}

/// Puts the edges around a face behind the others, each unless it is one of them, and the number of
/// each behind other numbers.
#[inline(always)]
fn add_edges_around(edges: &mut Edges, numbers: &mut Vec<u32>, face: &[u32]) -> Result<(), Memory>
    requires { length (edges_in edges.old) + length face.now < 2 ^ 32 }
    ensures edges { OnOk result (Adds (edges_around face.now) edges.old edges.new) }
    ensures numbers { OnOk result (numbers.new.items
        ≡ numbers.old.items ++ numbers_among (edges_in edges.old) (edges_around face.now)) }
{
    let [first, others @ ..] = face else {
        return Ok(());
    };
    let mut from = *first;
    for to in others {
        numbers.push(edges.add(from, *to)? as u32)?;
        from = *to;
    }
    numbers.push(edges.add(from, *first)? as u32)?;
    Ok(())
}

impl Parts {
    /// The parts of a mesh of which nothing is read yet.
    pub(crate) fn new(alloc: Global) -> Result<Parts, Memory>
        ensures { IfOk result (λ parts. growing parts ≡ none_yet) }
    {
        let mut faces = Vec::new(alloc);
        faces.push(0)?;
        Ok(Parts {
            points: Vec::new(alloc),
            edges: Edges::new(alloc),
            corner_points: Vec::new(alloc),
            corner_edges: Vec::new(alloc),
            faces,
        })
    }

    /// Adds a vertex.
    #[inline(always)]
    pub(crate) fn add_vertex(&mut self, point: V3) -> Result<(), LineFault>
        requires { fits (growing self.old) ≡ true }
        ensures { Grows (growing self.old) (Ok (vertex point)) (growing self.new) result }
    {
        self.points.push(point)?;
        if self.points.len() > MOST {
            return Err(LineFault::Broken(Rule::TooManyElements));
        }
        Ok(())
    }

    /// Adds the edges between neighbours that differ in a row of vertices.
    pub(crate) fn add_row(&mut self, vertices: &[u32]) -> Result<(), LineFault>
        requires { fits (growing self.old) ≡ true }
        ensures { Grows (growing self.old) (Ok (row vertices.now)) (growing self.new) result }
    {
        add_edges_along(&mut self.edges, vertices)?;
        if self.edges.len() > MOST {
            return Err(LineFault::Broken(Rule::TooManyElements));
        }
        Ok(())
    }

    /// Adds a face with corners at these vertices.
    #[inline(always)]
    pub(crate) fn add_face(&mut self, vertices: &[u32]) -> Result<(), LineFault>
        requires { fits (growing self.old) ≡ true }
        ensures { Grows (growing self.old) (Ok (face vertices.now)) (growing self.new) result }
    {
        self.corner_points.extend_from_slice(vertices)?;
        let corners = self.corner_points.len();
        if corners > MOST {
            return Err(LineFault::Broken(Rule::TooManyElements));
        }
        add_edges_around(&mut self.edges, &mut self.corner_edges, vertices)?;
        self.faces.push(corners as u32)?;
        if self.edges.len() > MOST || self.faces.len() - 1 > MOST {
            return Err(LineFault::Broken(Rule::TooManyElements));
        }
        Ok(())
    }
}
