//! Two arithmetic classes that have one value in all that is admitted.

ghost use Rattle.std.specs.Prelude.{◌≡◌, ◌<◌, length, IfErr, IfOk, OnOk};
ghost use Rattle.std.specs.List.{All, Contains};
ghost use Rattle.esc_egraph.specs.Graph.{Graph};
ghost use Rattle.esc_simplex.specs.Barred.{IsBarred};
ghost use Rattle.esc_simplex.specs.View.{IsSimplex, numbers_in};
ghost use Rattle.esc_sharing.specs.ArithmeticInside.{AreKeys, MixesKeys, OnlyRows, PairEnds};
ghost use Rattle.esc_sharing.specs.ArithmeticInside.{PairsEnd, RestEnds, pair_at};
ghost use Rattle.esc_sharing.specs.Numbers.{AreNumbersOf, IsGapOf, number_terms};

use esc_egraph::{EGraph, Node};
use esc_simplex::{Parted, Simplex, Stop};
use esc_tableau::Unknown;
use std::alloc::AllocError;

/// Two of these that stand in two classes and have one value in all that is admitted. Only those
/// are set against each other that no sample and no column that can move parts.
pub fn missed_pair(
    simplex: &mut Simplex,
    graph: &EGraph,
    numbers: &[(Node, Unknown)],
) -> Result<Option<(Node, Node)>, Stop>
    requires sound { IsSimplex simplex.old }
    requires numbers { AreNumbersOf graph.now (numbers_in simplex.old) }
    requires bound { All (Contains simplex.old.bound) numbers.now }
    ensures ends { PairsEnd graph.now simplex.old numbers.now result }
    ensures rows { OnlyRows simplex.old simplex.new }
    ensures stop { IfErr result (IsBarred simplex.new (λ t. ⊥)
        (IsGapOf (number_terms (numbers_in simplex.old)))) }
{
    let Ok(mut keys) = first_keys(simplex, numbers) else {
        return Err(Stop::Memory);
    };
    'numbers: for place in 0..numbers.len() {
        let found = missed_with(simplex, graph, numbers, place, &mut keys)?;
        match found {
            Some(other) => return Ok(Some((numbers[place].0, other))),
            None => (),
        }
    }
    Ok(None)
}

/// A number for each, by which some are parted.
fn first_keys(simplex: &Simplex, numbers: &[(Node, Unknown)]) -> Result<Vec<u64>, AllocError>
    requires sound { IsSimplex simplex.now }
    requires bound { All (Contains simplex.now.bound) numbers.now }
    ensures { IfOk result (λ v. (g : Graph) → AreNumbersOf g (numbers_in simplex.now)
        → AreKeys g simplex.now numbers.now v.items) }
{
    let mut keys = Vec::from_elem(simplex.allocator(), 0, numbers.len())?;
    mix_keys(simplex, numbers, &mut keys)?;
    Ok(keys)
}

/// Mixes what the rows show of each into its key.
fn mix_keys(
    simplex: &Simplex,
    numbers: &[(Node, Unknown)],
    keys: &mut [u64],
) -> Result<(), AllocError>
    requires sound { IsSimplex simplex.now }
    requires bound { All (Contains simplex.now.bound) numbers.now }
    requires as_many { length keys.old ≡ length numbers.now }
    ensures as_many { length keys.new ≡ length numbers.now }
    ensures ok { OnOk result (MixesKeys simplex.now numbers.now keys.old keys.new) }
{
    let columns = simplex.moving()?;
    'keys: for place in 0..keys.len() {
        let number = numbers[place];
        let seed = keys[place];
        keys[place] = simplex.key(number.1, &columns, seed);
    }
    Ok(())
}

/// One of those behind the place that stands in another class than the node there, and has its
/// value in all that is admitted.
fn missed_with(
    simplex: &mut Simplex,
    graph: &EGraph,
    numbers: &[(Node, Unknown)],
    place: usize,
    keys: &mut [u64],
) -> Result<Option<Node>, Stop>
    requires sound { IsSimplex simplex.old }
    requires numbers { AreNumbersOf graph.now (numbers_in simplex.old) }
    requires bound { All (Contains simplex.old.bound) numbers.now }
    requires place { place < length numbers.now }
    requires keys { AreKeys graph.now simplex.old numbers.now keys.old }
    ensures ends { RestEnds graph.now simplex.old numbers.now place result }
    ensures keys { OnOk result (AreKeys graph.now simplex.old numbers.now keys.new) }
    ensures rows { OnlyRows simplex.old simplex.new }
    ensures stop { IfErr result (IsBarred simplex.new (λ t. ⊥)
        (IsGapOf (number_terms (numbers_in simplex.old)))) }
{
    'others: for other in place + 1..numbers.len() {
        let missed = is_missed_yet(simplex, graph, numbers, place, other, keys)?;
        if missed {
            return Ok(Some(numbers[other].0));
        }
    }
    Ok(None)
}

/// Whether two nodes that their keys do not part are missed. Where they are not, what the rows show
/// now goes into the keys.
fn is_missed_yet(
    simplex: &mut Simplex,
    graph: &EGraph,
    numbers: &[(Node, Unknown)],
    place: usize,
    other: usize,
    keys: &mut [u64],
) -> Result<bool, Stop>
    requires sound { IsSimplex simplex.old }
    requires numbers { AreNumbersOf graph.now (numbers_in simplex.old) }
    requires bound { All (Contains simplex.old.bound) numbers.now }
    requires place { place < length numbers.now }
    requires other { other < length numbers.now }
    requires keys { AreKeys graph.now simplex.old numbers.now keys.old }
    ensures ends { PairEnds graph.now simplex.old (pair_at numbers.now place).0
        (pair_at numbers.now other).0 result }
    ensures keys { OnOk result (AreKeys graph.now simplex.old numbers.now keys.new) }
    ensures rows { OnlyRows simplex.old simplex.new }
    ensures stop { IfErr result (IsBarred simplex.new (λ t. ⊥)
        (IsGapOf (number_terms (numbers_in simplex.old)))) }
{
    let key = keys[place];
    let other_key = keys[other];
    if key != other_key {
        return Ok(false);
    }
    let first = &numbers[place];
    let second = &numbers[other];
    let missed = is_missed(simplex, graph, first, second)?;
    if missed {
        return Ok(true);
    }
    match mix_keys(simplex, numbers, keys) {
        Ok(()) => Ok(false),
        Err(AllocError) => Err(Stop::Memory),
    }
}

/// Whether two nodes stand in two classes and have one value in all that is admitted.
fn is_missed(
    simplex: &mut Simplex,
    graph: &EGraph,
    first: &(Node, Unknown),
    second: &(Node, Unknown),
) -> Result<bool, Stop>
    requires sound { IsSimplex simplex.old }
    requires numbers { AreNumbersOf graph.now (numbers_in simplex.old) }
    requires first { Contains simplex.old.bound first.now }
    requires second { Contains simplex.old.bound second.now }
    ensures ends { PairEnds graph.now simplex.old first.now.0 second.now.0 result }
    ensures rows { OnlyRows simplex.old simplex.new }
    ensures stop { IfErr result (IsBarred simplex.new (λ t. ⊥)
        (IsGapOf (number_terms (numbers_in simplex.old)))) }
{
    let together = graph.same(first.0, second.0);
    if together {
        return Ok(false);
    }
    let parted = simplex.part(first.1, second.1)?;
    match parted {
        Parted::Equal => Ok(true),
        Parted::Different => Ok(false),
    }
}
