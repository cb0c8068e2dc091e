ghost use Rattle.std.specs.Prelude.{◌≡◌};
ghost use Rattle.esc_tableau.specs.Table.{place_of};

use crate::Unknown;

/// An unknown that owns a row or a column, and whether it is to be at least 0.
#[derive(Clone, Copy)]
pub struct Owner {
    pub unknown: Unknown,
    pub restricted: bool,
}

/// The first place of the unknown, and the number of the owners where it has none.
pub fn place_of(owners: &[Owner], unknown: Unknown) -> usize
    ensures { result ≡ place_of owners.now unknown }
{
    for (place, owner) in owners.iter().enumerate() {
        if owner.unknown.same_as(unknown) {
            return place;
        }
    }
    owners.len()
}
