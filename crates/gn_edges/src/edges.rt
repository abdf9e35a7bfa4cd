ghost use Rattle.std.specs.Prelude.{◌≡◌, ◌+◌, ◌-◌, ◌<◌, ◌≤◌, ◌^◌, ◌++◌, ℕ, List, [], ◌∷◌};
ghost use Rattle.std.specs.Prelude.{length, not, IfOk, OnOk, OnErr};
ghost use Rattle.std.specs.List.{list_any, position_or_len};
ghost use Rattle.gn_plain.specs.Edges.{edge_between, with_edge};
ghost use Rattle.gn_edges.specs.Kept.{IsKept, IsUnlisted, is_pair, with_pair, first_link, place_of};
ghost use Rattle.gn_edges.specs.Added.{edges_in, number_among};
ghost use Rattle.gn_edges.specs.declared.place.Place.TheVariants.{Nowhere};

use crate::pair::edge_between;
use crate::place::{Place, find_listed};
use gn_memory::Memory;
use std::alloc::Global;
use std::collections::BTreeMap;
use std::marker::Model;

/// How many edges can be in lists, so that a link fits 32 bits.
const LINKED: usize = 0xffff_ffff;

/// How many more links than are needed are made at once.
const SPARE: usize = 1024;

/// Different edges in the order in which they came, the lesser vertex of each first.
#[derive(Drop)]
pub struct Edges {
    pairs: Vec<(u32, u32)>,
    /// For each vertex the link to the first edge of its list.
    first: Vec<u32>,
    /// For each edge the link to the next one of its list.
    next: Vec<u32>,
    /// The numbers of the edges that are in no list.
    crowd: BTreeMap<(u32, u32), usize>,
}

impl Model for Edges {
    ghost use Rattle.std.specs.Prelude.{ℕ, List};
    ghost use Rattle.gn_edges.specs.Kept.{IsKept};

    ghost Value = { List (ℕ × ℕ) };

    ghost view = { λ s. s.pairs.items };

    ghost invariant = { λ s. IsKept s.pairs.items s.first.items s.next.items s.crowd };
}

/// The link to the first edge of a vertex.
#[inline(always)]
fn first_link(first: &[u32], vertex: u32) -> u32
    ensures { result ≡ first_link first.now vertex }
{
    let vertex = vertex as usize;
    if vertex < first.len() {
        first[vertex]
    } else {
        0
    }
}

/// Makes room for the link of a vertex.
#[inline(always)]
fn make_room(first: &mut Vec<u32>, vertex: u32) -> Result<(), Memory>
    ensures same { (v : ℕ) → first_link first.new.items v ≡ first_link first.old.items v }
    ensures room { OnOk result (vertex < length first.new.items) }
{
    let count = vertex as usize + 1;
    if first.len() < count {
        first.resize(count + SPARE, 0)?;
    }
    Ok(())
}

/// Puts an edge behind the others, with the link to the next one of its list.
#[inline(always)]
fn push_pair(
    pairs: &mut Vec<(u32, u32)>,
    next: &mut Vec<u32>,
    edge: (u32, u32),
    link: u32,
) -> Result<(), Memory>
    ensures pairs { OnOk result (pairs.new.items ≡ pairs.old.items ++ edge ∷ []) }
    ensures next { OnOk result (next.new.items ≡ next.old.items ++ link ∷ []) }
    ensures pairs_refused { OnErr result (pairs.new.items ≡ pairs.old.items) }
    ensures next_refused { OnErr result (next.new.items ≡ next.old.items) }
{
    pairs.reserve(1)?;
    next.push(link)?;
    pairs.push(edge)?;
    Ok(())
}

/// Puts an edge that is new at the front of the list of its lesser vertex.
#[inline(always)]
fn add_listed(
    pairs: &mut Vec<(u32, u32)>,
    first: &mut Vec<u32>,
    next: &mut Vec<u32>,
    crowd: &BTreeMap<(u32, u32), usize>,
    edge: (u32, u32),
) -> Result<usize, Memory>
    requires kept { IsKept pairs.old.items first.old.items next.old.items crowd.now }
    requires ends { place_of pairs.old.items first.old.items next.old.items edge ≡ Nowhere }
    requires few { length pairs.old.items < 2 ^ 32 - 1 }
    ensures kept { IsKept pairs.new.items first.new.items next.new.items crowd.now }
    ensures pairs { OnOk result (pairs.new.items ≡ with_pair pairs.old.items edge) }
    ensures number { IfOk result (λ n. n ≡ position_or_len (is_pair edge) pairs.old.items) }
    ensures refused { OnErr result (pairs.new.items ≡ pairs.old.items) }
{
    make_room(first, edge.0)?;
    let number = pairs.len();
    let link = first_link(first, edge.0);
    push_pair(pairs, next, edge, link)?;
    first[edge.0 as usize] = number as u32 + 1;
    Ok(number)
}

/// Puts an edge that is in no list into the map, unless it is there.
#[cold]
#[inline(never)]
fn add_crowded(
    pairs: &mut Vec<(u32, u32)>,
    first: &[u32],
    next: &mut Vec<u32>,
    crowd: &mut BTreeMap<(u32, u32), usize>,
    edge: (u32, u32),
) -> Result<usize, Memory>
    requires kept { IsKept pairs.old.items first.now next.old.items crowd.old }
    requires unlisted { IsUnlisted pairs.old.items first.now next.old.items edge }
    ensures kept { IsKept pairs.new.items first.now next.new.items crowd.new }
    ensures pairs { OnOk result (pairs.new.items ≡ with_pair pairs.old.items edge) }
    ensures number { IfOk result (λ n. n ≡ position_or_len (is_pair edge) pairs.old.items) }
    ensures refused { OnErr result (pairs.new.items ≡ pairs.old.items) }
{
    match crowd.get(&edge) {
        Some(number) => return Ok(*number),
        None => {}
    }
    pairs.reserve(1)?;
    next.reserve(1)?;
    let number = pairs.len();
    crowd.insert(edge, number)?;
    next.push(0)?;
    pairs.push(edge)?;
    Ok(number)
}

/// Puts an edge behind the others, unless it is one of them, and returns its number.
#[inline(always)]
fn add_pair(
    pairs: &mut Vec<(u32, u32)>,
    first: &mut Vec<u32>,
    next: &mut Vec<u32>,
    crowd: &mut BTreeMap<(u32, u32), usize>,
    edge: (u32, u32),
) -> Result<usize, Memory>
    requires kept { IsKept pairs.old.items first.old.items next.old.items crowd.old }
    ensures kept { IsKept pairs.new.items first.new.items next.new.items crowd.new }
    ensures pairs { OnOk result (pairs.new.items ≡ with_pair pairs.old.items edge) }
    ensures number { IfOk result (λ n. n ≡ position_or_len (is_pair edge) pairs.old.items) }
    ensures refused { OnErr result (pairs.new.items ≡ pairs.old.items) }
{
    let link = first_link(first, edge.0);
    match find_listed(pairs, next, link, edge) {
        Place::At(number) => Ok(number as usize),
        Place::Nowhere if pairs.len() < LINKED => add_listed(pairs, first, next, crowd, edge),
        _ => add_crowded(pairs, first, next, crowd, edge),
    }
}

impl Edges {
    /// No edges.
    pub fn new(alloc: Global) -> Edges
        ensures { result ≡ [] }
    {
        Edges {
            pairs: Vec::new(alloc),
            first: Vec::new(alloc),
            next: Vec::new(alloc),
            crowd: BTreeMap::new(alloc),
        }
    }

    /// How many edges there are.
    pub fn len(&self) -> usize
        ensures { result ≡ length self.now }
    {
        self.pairs.len()
    }

    /// Puts the edge between two vertices behind the others, unless it is one of them, and returns its
    /// number. Want of memory changes nothing.
    #[inline(always)]
    pub fn add(&mut self, a: u32, b: u32) -> Result<usize, Memory>
        ensures edges { OnOk result (edges_in self.new
            ≡ with_edge (edges_in self.old) (edge_between a b)) }
        ensures number { IfOk result (λ n. n ≡ number_among (edges_in self.old) (edge_between a b)) }
        ensures within { IfOk result (λ n. n ≤ length self.old) }
        ensures few { OnOk result (length self.new ≤ length self.old + 1) }
        ensures refused { OnErr result (self.new ≡ self.old) }
    {
        let edge = edge_between(a, b);
        let number = add_pair(
            &mut self.pairs,
            &mut self.first,
            &mut self.next,
            &mut self.crowd,
            edge,
        )?;
        Ok(number)
    }

    /// Puts an edge, given with its lesser vertex first, behind the others, unless it is one of them,
    /// and returns whether it is new. Want of memory changes nothing.
    pub fn insert(&mut self, edge: (u32, u32)) -> Result<bool, Memory>
        ensures edges { OnOk result (self.new ≡ with_pair self.old edge) }
        ensures new { IfOk result (λ new. new ≡ not (list_any (is_pair edge) self.old)) }
        ensures refused { OnErr result (self.new ≡ self.old) }
    {
        let count = self.pairs.len();
        let number = add_pair(
            &mut self.pairs,
            &mut self.first,
            &mut self.next,
            &mut self.crowd,
            edge,
        )?;
        Ok(number == count)
    }

    /// The edges as a list.
    pub fn into_vec(self) -> Vec<(u32, u32)>
        ensures { result.items ≡ self }
    {
        self.pairs
    }
}
