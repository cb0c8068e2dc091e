//! Lists that contracts see as their elements.
ghost use Rattle.std.specs.Prelude.{◌≡◌, [], ◌∷◌, ◌++◌, ◌<◌, length, map, get_or, slice_get, IfOk, OnOk, OnErr};
ghost use Rattle.esc_tableau.specs.Listed.{is_listed, owner_with, restricted_in};

use crate::Unknown;
use crate::owner::{Owner, place_of};
use esc_frac::Frac;
use std::alloc::{AllocError, Global};
use std::marker::Model;

/// Unknowns in order. Beside each there is room for a mark, so that a tableau takes them over
/// without memory.
#[derive(Drop)]
pub struct Unknowns {
    owners: Vec<Owner>,
}

impl Model for Unknowns {
    ghost use Rattle.std.specs.Prelude.{List, ℕ, map};

    ghost Value = { List ℕ };

    ghost view = { λ us. map (λ o. o.unknown) us.owners.items };
}

impl Unknowns {
    /// None.
    pub fn new(alloc: Global) -> Unknowns
        ensures { result ≡ [] }
    {
        Unknowns {
            owners: Vec::new(alloc),
        }
    }

    /// Adds an unknown at the end.
    pub fn push(&mut self, unknown: Unknown) -> Result<(), AllocError>
        ensures ok { OnOk result (self.new ≡ self.old ++ unknown ∷ []) }
        ensures err { OnErr result (self.new ≡ self.old) }
    {
        self.owners.push(Owner {
            unknown,
            restricted: false,
        })?;
        Ok(())
    }

    /// How many there are.
    pub fn len(&self) -> usize
        ensures { result ≡ length self.now }
    {
        self.owners.len()
    }

    /// A copy, where there is memory for it.
    pub fn copy(&self, alloc: Global) -> Result<Unknowns, AllocError>
        ensures { IfOk result (λ us. us ≡ self.now) }
    {
        Unknowns::of_owners(alloc, &self.owners)
    }

    /// The unknown at a place.
    pub fn get(&self, place: usize) -> Option<Unknown>
        ensures { result ≡ slice_get self.now place }
    {
        match self.owners.get(place) {
            None => None,
            Some(owner) => Some(owner.unknown),
        }
    }

    // Whether the unknown is among them.
    fn contains(&self, unknown: Unknown) -> bool
        ensures { result ≡ is_listed self.now unknown }
    {
        place_of(&self.owners, unknown) < self.owners.len()
    }

    // The unknowns as owners, restricted where they are among the others.
    pub fn into_owners(self, restricted: &Unknowns) -> Vec<Owner>
        ensures { result.items ≡ map (owner_with restricted.now) self }
    {
        let Unknowns { mut owners } = self;
        mark_listed(&mut owners, restricted);
        owners
    }

    // The owners' unknowns.
    pub fn of_owners(alloc: Global, owners: &[Owner]) -> Result<Unknowns, AllocError>
        ensures { IfOk result (λ us. us ≡ map (λ o. o.unknown) owners.now) }
    {
        let owners = Vec::from_slice(alloc, owners)?;
        Ok(Unknowns { owners })
    }

    // Adds those of the owners that are restricted.
    pub fn push_restricted(&mut self, owners: &[Owner]) -> Result<(), AllocError>
        ensures { OnOk result (self.new ≡ self.old ++ restricted_in owners.now) }
    {
        for owner in owners {
            if owner.restricted {
                self.push(owner.unknown)?;
            }
        }
        Ok(())
    }
}

// Restricts the owners that are among the unknowns, and no others.
fn mark_listed(owners: &mut [Owner], restricted: &Unknowns)
    ensures { owners.new ≡ map (λ o. owner_with restricted.now o.unknown) owners.old }
{
    for owner in owners.iter_mut() {
        owner.restricted = restricted.contains(owner.unknown);
    }
}

/// Fractions in order.
#[derive(Drop)]
pub struct Fracs {
    items: Vec<Frac>,
}

impl Model for Fracs {
    ghost use Rattle.std.specs.Prelude.{List};
    ghost use Rattle.std.specs.Coded.{coded_list};
    ghost use Rattle.esc_frac.specs.Rational.{ℚ};
    ghost use Rattle.esc_frac.specs.RationalLaws.{coded_ℚ};

    ghost Value = { List ℚ };

    ghost coded = { coded_list coded_ℚ };

    ghost view = { λ fs. fs.items.items };
}

impl Fracs {
    /// None.
    pub fn new(alloc: Global) -> Fracs
        ensures { result ≡ [] }
    {
        Fracs {
            items: Vec::new(alloc),
        }
    }

    /// Adds a fraction at the end.
    pub fn push(&mut self, fraction: Frac) -> Result<(), AllocError>
        ensures ok { OnOk result (self.new ≡ self.old ++ fraction ∷ []) }
        ensures err { OnErr result (self.new ≡ self.old) }
    {
        self.items.push(fraction)?;
        Ok(())
    }

    /// The fractions.
    pub fn as_slice(&self) -> &[Frac]
        ensures { result.now ≡ self.now }
    {
        self.items.as_slice()
    }

    /// A copy, where there is memory for it.
    pub fn copy(&self, alloc: Global) -> Result<Fracs, AllocError>
        ensures { IfOk result (λ fs. fs ≡ self.now) }
    {
        Fracs::of_slice(alloc, &self.items)
    }

    pub fn of_slice(alloc: Global, items: &[Frac]) -> Result<Fracs, AllocError>
        ensures { IfOk result (λ fs. fs ≡ items.now) }
    {
        let items = Vec::from_slice(alloc, items)?;
        Ok(Fracs { items })
    }

    pub fn into_items(self) -> Vec<Frac>
        ensures { result.items ≡ self }
    {
        let Fracs { items } = self;
        items
    }
}

/// Lists of fractions in order.
#[derive(Drop)]
pub struct FracLists {
    lists: Vec<Vec<Frac>>,
}

impl Model for FracLists {
    ghost use Rattle.std.specs.Prelude.{List, map};
    ghost use Rattle.std.specs.Coded.{coded_list};
    ghost use Rattle.esc_frac.specs.Rational.{ℚ};
    ghost use Rattle.esc_frac.specs.RationalLaws.{coded_ℚ};

    ghost Value = { List (List ℚ) };

    ghost coded = { coded_list (coded_list coded_ℚ) };

    ghost view = { λ fs. map (λ es. es.items) fs.lists.items };
}

impl FracLists {
    /// None.
    pub fn new(alloc: Global) -> FracLists
        ensures { result ≡ [] }
    {
        FracLists {
            lists: Vec::new(alloc),
        }
    }

    /// Adds a list at the end. For want of memory the lists stay as they were.
    pub fn push(&mut self, list: Fracs) -> Result<(), AllocError>
        ensures ok { OnOk result (self.new ≡ self.old ++ list ∷ []) }
        ensures err { OnErr result (self.new ≡ self.old) }
    {
        self.lists.reserve(1)?;
        self.lists.push_reserved(list.into_items());
        Ok(())
    }

    /// How many there are.
    pub fn len(&self) -> usize
        ensures { result ≡ length self.now }
    {
        self.lists.len()
    }

    /// The list at a place.
    pub fn row(&self, place: usize) -> &[Frac]
        requires { place < length self.now }
        ensures { result.now ≡ get_or self.now place [] }
    {
        &self.lists[place]
    }

    /// A copy, where there is memory for it.
    pub fn copy(&self, alloc: Global) -> Result<FracLists, AllocError>
        ensures { IfOk result (λ fs. fs ≡ self.now) }
    {
        FracLists::of_slice(alloc, &self.lists)
    }

    pub fn of_slice(alloc: Global, lists: &[Vec<Frac>]) -> Result<FracLists, AllocError>
        ensures { IfOk result (λ fs. fs ≡ map (λ es. es.items) lists.now) }
    {
        let mut copy = FracLists::new(alloc);
        for list in lists {
            copy.push(Fracs::of_slice(alloc, list)?)?;
        }
        Ok(copy)
    }

    pub fn into_lists(self) -> Vec<Vec<Frac>>
        ensures { map (λ es. es.items) result.items ≡ self }
    {
        let FracLists { lists } = self;
        lists
    }
}
