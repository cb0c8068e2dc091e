ghost use Rattle.std.specs.Prelude.{◌≡◌, ◌==◌};

use std::marker::Model;

/// An unknown, by its number in the order of making.
#[derive(Clone, Copy, Debug, PartialEq, Eq)]
pub struct Unknown {
    number: usize,
}

impl Model for Unknown {
    ghost use Rattle.std.specs.Prelude.{ℕ};

    ghost Value = { ℕ };

    ghost view = { λ u. u.number };

    ghost inverse = { λ n. record { number = n } };
}

impl Unknown {
    /// The unknown of this number.
    pub fn numbered(number: usize) -> Unknown
        ensures { result ≡ number }
    {
        Unknown { number }
    }

    /// Its number.
    pub fn number(self) -> usize
        ensures { result ≡ self }
    {
        self.number
    }

    /// Whether the two are one.
    pub fn same_as(self, other: Unknown) -> bool
        ensures { result ≡ (self == other) }
    {
        self.number == other.number
    }
}
