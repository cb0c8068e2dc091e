//! Where the unknowns stand, by their numbers.
ghost use Rattle.std.specs.Prelude.{◌≡◌, ℕ, [], length, map, set, get_or, slice_set, OnErr};
ghost use Rattle.esc_tableau.specs.IndexInside.{shifted};

use crate::Unknown;
use std::alloc::{AllocError, Global};
use std::marker::Model;

/// Where an unknown was noted to stand.
#[derive(Clone, Copy)]
pub enum Place {
    Row(usize),
    Column(usize),
    /// It may stand anywhere.
    Unnoted,
}

/// The place of each unknown, by its number. Unknowns past the end are not noted.
#[derive(Drop)]
pub struct Index {
    places: Vec<Place>,
}

impl Model for Index {
    ghost use Rattle.std.specs.Prelude.{List};
    ghost use Rattle.esc_tableau.specs.declared.index.Place.{Place};

    ghost Value = { List Place };

    ghost view = { λ i. i.places.items };
}

impl Index {
    /// Of no unknown.
    pub fn new(alloc: Global) -> Index
        ensures { result ≡ [] }
    {
        Index {
            places: Vec::new(alloc),
        }
    }

    /// How many unknowns it has room for.
    pub fn len(&self) -> usize
        ensures { result ≡ length self.now }
    {
        self.places.len()
    }

    /// The place of the unknown.
    pub fn place(&self, unknown: Unknown) -> Place
        ensures { result ≡ get_or self.now unknown Place.Unnoted }
    {
        match self.places.get(unknown.number()) {
            Some(place) => *place,
            None => Place::Unnoted,
        }
    }

    /// Notes the place of the unknown, where there is room.
    pub fn note(&mut self, unknown: Unknown, place: Place)
        ensures { self.new ≡ set self.old unknown place }
    {
        let number = unknown.number();
        if number < self.places.len() {
            self.places[number] = place;
        }
    }

    /// Makes room for so many unknowns.
    pub fn reserve(&mut self, count: usize) -> Result<(), AllocError>
        ensures { (u : ℕ) → get_or self.new u Place.Unnoted ≡ get_or self.old u Place.Unnoted }
    {
        if self.places.len() < count {
            self.places.resize(count, Place::Unnoted)?;
        }
        Ok(())
    }

    /// Forgets all places. Takes no memory: there is room for so many unknowns where there was.
    pub fn clear(&mut self, count: usize)
        ensures { (u : ℕ) → get_or self.new u Place.Unnoted ≡ Place.Unnoted }
    {
        self.places.clear();
        if count <= self.places.capacity() {
            let _ = self.places.resize(count, Place::Unnoted);
        }
    }

    /// Follows the rows where one is removed: those behind it stand one earlier.
    pub fn remove_row(&mut self, row: usize)
        ensures { self.new ≡ map (shifted row) self.old }
    {
        remove_row_in(&mut self.places, row);
    }
}

fn remove_row_in(places: &mut [Place], row: usize)
    ensures { places.new ≡ map (shifted row) places.old }
{
    for place in places.iter_mut() {
        *place = shifted(*place, row);
    }
}

// The place once the row is removed.
fn shifted(place: Place, row: usize) -> Place
    ensures { result ≡ shifted row place }
{
    match place {
        Place::Row(at) => {
            if at < row {
                Place::Row(at)
            } else if row < at {
                Place::Row(at - 1)
            } else {
                Place::Unnoted
            }
        }
        Place::Column(at) => Place::Column(at),
        Place::Unnoted => Place::Unnoted,
    }
}
