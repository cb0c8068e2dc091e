//! Tables.

ghost use Rattle.std.specs.Prelude.{◌≡◌, ◌+◌, ◌≤◌, IfOk, IfSome, Some, List, length, slice_get};
ghost use Rattle.std.specs.Prelude.{MatchOption};
ghost use Rattle.std.specs.List.{flat_map};
ghost use Rattle.esc_term.specs.declared.formula.Formula.{Formula};
ghost use Rattle.esc_egraph.specs.Graph.{Graph};
ghost use Rattle.esc_clause.specs.Expansion.{from_place};
ghost use Rattle.esc_book.specs.Book.{IsPage, heads_of};
ghost use Rattle.esc_book.specs.GroupInside.{node_pairs};
ghost use Rattle.esc_book.specs.ReadingInside.{AreThere, IsLocated, begin_at, pair_place};

use crate::entry::{Entry, Kind};
use crate::group::Group;
use esc_clause::{Occurrence, Occurrences};
use esc_egraph::Node;
use std::alloc::{AllocError, Global};

/// What stands at a place of a formula.
#[derive(Clone, Copy)]
pub(crate) enum Place {
    /// The occurrence of the entry at this place of the table.
    Entry(usize),
    /// A pair of a distinction.
    Pair(Node, Node),
    Nowhere,
}

/// What stands at a place of the formula of a table. Where no distinction stands before it, that is
/// the occurrence of the entry with this number.
pub(crate) fn locate(page: &[Entry], place: u64) -> Place
    ensures { (g : Graph) (f : Formula) → IsPage g f page.now
        → IsLocated g f page.now place result }
{
    if let Some(entry) = page.get(place as usize) {
        if entry.begin == place {
            return Place::Entry(place as usize);
        }
    }
    search_for(page, place)
}

/// The same, by halving.
fn search_for(page: &[Entry], place: u64) -> Place
    ensures { (g : Graph) (f : Formula) → IsPage g f page.now
        → IsLocated g f page.now place result }
{
    let behind = page.partition_point(|entry| entry.begin <= place);
    if behind == 0 {
        return Place::Nowhere;
    }
    let entry = &page[behind - 1];
    if place < entry.begin {
        return Place::Nowhere;
    }
    if entry.begin == place {
        return Place::Entry(behind - 1);
    }
    match &entry.kind {
        Kind::Distinction(group) => pair_in(group.get(), place - entry.begin - 1),
        _ => Place::Nowhere,
    }
}

/// The pair of a group with a number.
fn pair_in(group: &Group, number: u64) -> Place
    ensures { result ≡ pair_place (slice_get (node_pairs group.now) number) }
{
    match group.pair(number) {
        Some((a, b)) => Place::Pair(a, b),
        None => Place::Nowhere,
    }
}

/// The place of the occurrence of an entry.
pub(crate) fn begin_of(page: &[Entry], index: usize) -> u64
    ensures { (g : Graph) (f s : Formula) → IsPage g f page.now
        → slice_get (heads_of f) index ≡ Some s → result ≡ begin_at (heads_of f) index }
{
    match page.get(index) {
        Some(entry) => entry.begin,
        None => 0,
    }
}

/// The place in the table behind the entries of a formula.
pub(crate) fn next_of(page: &[Entry], index: usize) -> usize
    ensures { (g : Graph) (f s : Formula) → IsPage g f page.now
        → slice_get (heads_of f) index ≡ Some s → result ≡ index + length (heads_of s) }
{
    match page.get(index) {
        Some(entry) => entry.next,
        None => index,
    }
}

/// The occurrences of formulas whose entries stand side by side, with one sign.
pub(crate) fn parts_of(
    alloc: Global,
    page: &[Entry],
    from: usize,
    to: usize,
    fact: u64,
    positive: bool,
) -> Result<Occurrences, AllocError>
    ensures { IfOk result (λ parts. (g : Graph) (f : Formula) (ps : List Formula)
        → IsPage g f page.now → AreThere (heads_of f) from ps
        → to ≡ from + length (flat_map heads_of ps)
        → parts ≡ from_place fact (begin_at (heads_of f) from) positive ps) }
{
    let mut parts = Occurrences::new(alloc);
    let mut index = from;
    'parts: while index < to {
        parts.push(Occurrence {
            fact,
            place: begin_of(page, index),
            positive,
        })?;
        let next = next_of(page, index);
        index = if next > index { next } else { to };
    }
    Ok(parts)
}
