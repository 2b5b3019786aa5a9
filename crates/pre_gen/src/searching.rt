//! Where a search stands: how pairs and candidates are listed, and how paths are dropped.
ghost use Rattle.std.specs.Prelude.{◌≡◌, ◌<◌, length, leb, ltb, OnOk};
ghost use Rattle.std.specs.List.{list_any};
ghost use Rattle.solve_laws.specs.Certificates.Sameness.{same_heap};
ghost use Rattle.solve_laws.specs.Candidates.Coming.{has_many_parts as has_many_parts_of, parts_of, same_pair};
ghost use Rattle.solve_laws.specs.Candidates.Searching.{
  candidate_comes as candidate_comes_of,
  drops as drops_of,
  listed_at,
  pair_comes as pair_comes_of,
  with_candidate as with_candidate_of,
  with_pair as with_pair_of,
};
ghost use Rattle.pre_gen.specs.InSearch.{search_in};

use shape_data::answer::Fault;
use shape_data::symbolic::SymHeap;
use shape_data::{Row, copy_of, is_same};
use solve_laws::candidates::Dropped;
use std::alloc::{AllocError, Global};
use std::collections::VecDeque;
use sym_canon::Pair;
use sym_samples::has_plain_sources;

/// The most facts and atoms of a heap.
const MOST_PARTS: usize = 96;

/// The most pairs that are listed at a node.
const MOST_PAIRS: usize = 16;

/// The most candidates.
const MOST_CANDIDATES: usize = 8;

/// Where a search stands.
#[derive(Drop)]
pub struct Search {
    /// The listed pairs of each node.
    pub nodes: Vec<Row<Pair>>,
    /// The listed pairs whose turn is still to come, each with its node.
    pub queue: VecDeque<(u32, Pair)>,
    pub pres: Row<SymHeap>,
    pub first_drop: Option<Dropped>,
}

/// A path is dropped at a line; the first drop stays.
pub fn drops(search: &mut Search, fault: Fault, line: u32)
    ensures { search_in search.new ≡ drops_of fault line (search_in search.old) }
{
    search.first_drop = search.first_drop.or(Some(Dropped { fault, line }));
}

/// Whether a heap has over 96 parts.
fn has_many(heap: &SymHeap) -> bool
    ensures { result ≡ ltb 96 (parts_of heap.now) }
{
    heap.pure.len().saturating_add(heap.spatial.len()) > MOST_PARTS
}

/// Whether a heap of the pair has over 96 parts.
fn has_many_parts(pair: &Pair) -> bool
    ensures { result ≡ has_many_parts_of pair.now }
{
    has_many(&pair.missing) || has_many(&pair.state.heap)
}

/// Whether the two pairs are the same.
fn is_same_pair(a: &Pair, b: &Pair) -> bool
    ensures { result ≡ same_pair a.now b.now }
{
    is_same(a, b)
}

/// Whether the pair is one of those.
fn is_among(pair: &Pair, pairs: &[Pair]) -> bool
    ensures { result ≡ list_any (same_pair pair.now) pairs.now }
{
    pairs.iter().any(|other| is_same_pair(pair, other))
}

/// Whether the pair is a listed one of the node.
fn is_listed(search: &Search, node: u32, pair: &Pair) -> bool
    ensures { result ≡ list_any (same_pair pair.now) (listed_at node (search_in search.now)) }
{
    match search.nodes.as_slice().get(node as usize) {
        None => false,
        Some(pairs) => is_among(pair, pairs.as_slice()),
    }
}

/// Whether no more pairs may be listed at the node.
fn is_full(search: &Search, node: u32) -> bool
    ensures { result ≡ leb 16 (length (listed_at node (search_in search.now))) }
{
    match search.nodes.as_slice().get(node as usize) {
        None => false,
        Some(pairs) => MOST_PAIRS <= pairs.len(),
    }
}

/// The pair is listed at the node, and queued.
fn with_pair(search: &mut Search, node: u32, pair: Pair) -> Result<(), AllocError>
    requires { node < length search.old.nodes.items }
    ensures { OnOk result (search_in search.new ≡ with_pair_of node pair (search_in search.old)) }
{
    let copy = copy_of(&pair)?;
    let listed = &mut search.nodes[node as usize];
    listed.push(copy)?;
    search.queue.push_back((node, pair))?;
    Ok(())
}

/// A pair comes to a node from the execution of a node on a line. With over 96 parts in a heap it is dropped with `Parts`; equal to a
/// listed one of the node it is left out; the seventeenth is dropped with `States`.
pub fn pair_comes(search: &mut Search, line: u32, node: u32, pair: Pair) -> Result<(), AllocError>
    requires { node < length search.old.nodes.items }
    ensures { OnOk result (search_in search.new ≡ pair_comes_of line node pair (search_in search.old)) }
{
    if has_many_parts(&pair) {
        drops(search, Fault::Parts, line);
        return Ok(());
    }
    if is_listed(search, node, &pair) {
        return Ok(());
    }
    if is_full(search, node) {
        drops(search, Fault::States, line);
        return Ok(());
    }
    with_pair(search, node, pair)
}

/// Whether the two heaps are the same.
fn is_same_heap(a: &SymHeap, b: &SymHeap) -> bool
    ensures { result ≡ same_heap a.now b.now }
{
    is_same(a, b)
}

/// Whether the candidate is one of those.
fn is_found(pre: &SymHeap, pres: &[SymHeap]) -> bool
    ensures { result ≡ list_any (same_heap pre.now) pres.now }
{
    pres.iter().any(|other| is_same_heap(pre, other))
}

/// One more candidate; after eight the rest is left out.
fn with_candidate(search: &mut Search, pre: SymHeap) -> Result<(), AllocError>
    ensures { OnOk result (search_in search.new ≡ with_candidate_of pre (search_in search.old)) }
{
    if MOST_CANDIDATES <= search.pres.len() {
        return Ok(());
    }
    search.pres.push(pre)
}

/// A candidate comes from the execution of a node on a line. Equal to an earlier one it is left out; if its sources are not pairwise
/// distinct variables it is dropped with `Alias`.
pub fn candidate_comes(
    alloc: Global,
    search: &mut Search,
    line: u32,
    pre: SymHeap,
) -> Result<(), AllocError>
    ensures { OnOk result (search_in search.new ≡ candidate_comes_of line pre (search_in search.old)) }
{
    if is_found(&pre, search.pres.as_slice()) {
        return Ok(());
    }
    if has_plain_sources(alloc, &pre)? {
        return with_candidate(search, pre);
    }
    drops(search, Fault::Alias, line);
    Ok(())
}
