//! One arithmetic node for each class that has one.

ghost use Rattle.std.specs.Prelude.{◌≡◌, ◌<◌, ◌-◌, false, length, map, IfOk};
ghost use Rattle.std.specs.List.{All};
ghost use Rattle.esc_simplex.specs.View.{numbers_in};
ghost use Rattle.esc_sharing.specs.ArithmeticInside.{pair_at};
ghost use Rattle.esc_sharing.specs.ClassesInside.{AreChosen, AreClassPlaces};
ghost use Rattle.esc_sharing.specs.KnownInside.{class_at};
ghost use Rattle.esc_sharing.specs.Numbers.{AreNumbersOf};
ghost use Rattle.esc_sharing.specs.SettlingInside.{AreSeated};

use esc_egraph::{EGraph, Node};
use esc_simplex::Simplex;
use esc_tableau::Unknown;
use std::alloc::AllocError;

/// The first bound node of each class that has one, with its unknown, in the order of binding.
pub fn class_numbers(simplex: &Simplex, graph: &EGraph) -> Result<Vec<(Node, Unknown)>, AllocError>
    requires numbers { AreNumbersOf graph.now (numbers_in simplex.now) }
    ensures { IfOk result (λ v. AreChosen graph.now simplex.now.bound v.items) }
{
    let places = class_places(simplex, graph)?;
    let numbers = numbers_at(simplex, places.as_slice())?;
    Ok(numbers)
}

/// The bound nodes at these places, with their unknowns.
fn numbers_at(simplex: &Simplex, places: &[usize]) -> Result<Vec<(Node, Unknown)>, AllocError>
    requires places { All (λ p. p < length simplex.now.bound) places.now }
    ensures { IfOk result (λ v. v.items ≡ map (pair_at simplex.now.bound) places.now) }
{
    let bound = simplex.bound_nodes();
    let mut numbers = Vec::new(simplex.allocator());
    'places: for index in 0..places.len() {
        let place = places[index];
        let number = bound[place];
        numbers.push(number)?;
    }
    Ok(numbers)
}

/// The place of the first bound node of each class that has one, in order.
fn class_places(simplex: &Simplex, graph: &EGraph) -> Result<Vec<usize>, AllocError>
    requires numbers { AreNumbersOf graph.now (numbers_in simplex.now) }
    ensures { IfOk result (λ v. AreClassPlaces graph.now simplex.now.bound v.items) }
{
    let seats = class_seats(simplex, graph)?;
    let mut places = Vec::new(simplex.allocator());
    'seats: for seat in 0..seats.len() {
        let held = seats[seat];
        if starts_class(seats.as_slice(), seat) {
            places.push(held.1)?;
        }
    }
    places.sort_unstable();
    Ok(places)
}

/// The places of the bound nodes, each with the number of its class, side by side for each class
/// and in order within it.
fn class_seats(simplex: &Simplex, graph: &EGraph) -> Result<Vec<(Node, usize)>, AllocError>
    requires numbers { AreNumbersOf graph.now (numbers_in simplex.now) }
    ensures { IfOk result (λ v. AreSeated graph.now simplex.now.bound v.items) }
{
    let bound = simplex.bound_nodes();
    let mut seats = Vec::new(simplex.allocator());
    'bound: for place in 0..bound.len() {
        let number = bound[place];
        seats.push((graph.class_number(number.0), place))?;
    }
    seats.sort_by_key(|seat| seat.0.index())?;
    Ok(seats)
}

/// Whether the class of a seat starts there.
fn starts_class(seats: &[(Node, usize)], seat: usize) -> bool
    requires { seat < length seats.now }
    ensures { result ≡ false
        → (0 < seat) × (class_at seats.now (seat - 1) ≡ class_at seats.now seat) }
{
    if seat == 0 {
        return true;
    }
    let before = seats[seat - 1];
    let here = seats[seat];
    before.0 != here.0
}
