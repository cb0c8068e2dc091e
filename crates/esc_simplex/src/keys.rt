//! Keys of unknowns: two with different keys differ somewhere within the restrictions.

ghost use Rattle.std.specs.Prelude.{◌≡◌, ◌<◌, length, IfOk};
ghost use Rattle.std.specs.List.{All};
ghost use Rattle.esc_simplex.specs.Keys.{MayMove, fraction_mixed, key, slope_mixed};
ghost use Rattle.esc_simplex.specs.View.{IsSimplex};

use crate::simplex::Simplex;
use esc_frac::Frac;
use esc_tableau::Unknown;
use esc_term::mix;
use std::alloc::AllocError;

impl Simplex {
    /// The columns of the rows whose owners can move a little from the sample within the
    /// restrictions.
    pub fn moving(&self) -> Result<Vec<usize>, AllocError>
        requires { IsSimplex self.now }
        ensures { IfOk result (λ v. MayMove self.now.tableau v.items) }
    {
        self.tableau.moving()
    }

    /// The seed with the unknown's value at the sample, and with how fast it rises with the owners
    /// of these columns.
    pub fn key(&self, u: Unknown, columns: &[usize], seed: u64) -> u64
        requires { All (λ c. c < length self.now.tableau.columns) columns.now }
        ensures { result ≡ key self.now.tableau columns.now seed u }
    {
        let mut key = mix_fraction(seed, self.tableau.value(u));
        'columns: for column in columns {
            key = self.mix_slope(key, u, *column);
        }
        key
    }

    // How fast the unknown rises with the column's owner, where it does, mixed into a number.
    fn mix_slope(&self, seed: u64, u: Unknown, column: usize) -> u64
        requires { column < length self.now.tableau.columns }
        ensures { result ≡ slope_mixed self.now.tableau u seed column }
    {
        let slope = self.tableau.slope(u, column);
        if slope.is_zero() {
            seed
        } else {
            mix_fraction(mix(seed, column as u64), slope)
        }
    }
}

// The lower halves of the fraction's two numbers, mixed into a number.
#[tactic(auto, unfolding(crate::specs::Keys::fraction_mixed))]
fn mix_fraction(seed: u64, fraction: Frac) -> u64
    ensures { result ≡ fraction_mixed seed fraction }
{
    let num = fraction.num().cast_unsigned() % 0x1_0000_0000_0000_0000;
    let den = fraction.den().cast_unsigned() % 0x1_0000_0000_0000_0000;
    mix(mix(seed, num as u64), den as u64)
}
