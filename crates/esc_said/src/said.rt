ghost use Rattle.std.specs.Prelude.{◌≡◌, ◌&&◌, ◌||◌, not};

/// What literals and classes say of a formula.
#[derive(Clone, Copy)]
pub struct Said {
    pub holds: bool,
    pub fails: bool,
}

impl Said {
    /// That it holds.
    pub const HOLDS: Said = Said {
        holds: true,
        fails: false,
    };

    /// That it fails.
    pub const FAILS: Said = Said {
        holds: false,
        fails: true,
    };

    /// Neither.
    pub const NOTHING: Said = Said {
        holds: false,
        fails: false,
    };

    /// What is said of the formula's negation.
    pub fn turned(self) -> Said
        ensures holds { result.holds ≡ self.fails }
        ensures fails { result.fails ≡ self.holds }
    {
        Said {
            holds: self.fails,
            fails: self.holds,
        }
    }

    /// What is said of both formulas together.
    pub fn and(self, other: Said) -> Said
        ensures holds { result.holds ≡ (self.holds && other.holds) }
        ensures fails { result.fails ≡ (self.fails || other.fails) }
    {
        Said {
            holds: self.holds && other.holds,
            fails: self.fails || other.fails,
        }
    }

    /// What is said of one formula or the other.
    pub fn or(self, other: Said) -> Said
        ensures holds { result.holds ≡ (self.holds || other.holds) }
        ensures fails { result.fails ≡ (self.fails && other.fails) }
    {
        Said {
            holds: self.holds || other.holds,
            fails: self.fails && other.fails,
        }
    }

    /// What is said of one formula exactly where the other holds.
    pub fn iff(self, other: Said) -> Said
        ensures holds { result.holds
            ≡ ((self.holds && other.holds) || (self.fails && other.fails)) }
        ensures fails { result.fails
            ≡ ((self.holds && other.fails) || (self.fails && other.holds)) }
    {
        Said {
            holds: (self.holds && other.holds) || (self.fails && other.fails),
            fails: (self.holds && other.fails) || (self.fails && other.holds),
        }
    }

    /// What is said where this is said and the other, of one formula.
    pub fn beside(self, other: Said) -> Said
        ensures holds { result.holds ≡ (self.holds || other.holds) }
        ensures fails { result.fails ≡ (self.fails || other.fails) }
    {
        Said {
            holds: self.holds || other.holds,
            fails: self.fails || other.fails,
        }
    }

    /// The same with what a literal of this sign says.
    pub fn with_sign(self, positive: bool) -> Said
        ensures holds { result.holds ≡ (self.holds || positive) }
        ensures fails { result.fails ≡ (self.fails || not positive) }
    {
        Said {
            holds: self.holds || positive,
            fails: self.fails || !positive,
        }
    }
}
