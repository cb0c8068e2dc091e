//! A further column, in which each row has 0.
ghost use Rattle.std.specs.Prelude.{◌≡◌, ◌<◌, [], ◌∷◌, ◌++◌, map, All, IsOk, vec_len, vec_capacity};
ghost use Rattle.esc_frac.specs.Rational.{zero_ℚ};

use esc_frac::Frac;
use std::alloc::AllocError;

/// Makes room for one more entry in each row.
pub fn reserve_entries(rows: &mut [Vec<Frac>]) -> Result<(), AllocError>
    ensures same { map (λ es. es.items) rows.new ≡ map (λ es. es.items) rows.old }
    ensures room { IsOk result → All (λ es. vec_len es < vec_capacity es) rows.new }
{
    for row in rows.iter_mut() {
        row.reserve(1)?;
    }
    Ok(())
}

/// Adds an entry 0 to each row, where there is room for it.
pub fn widen(rows: &mut [Vec<Frac>])
    requires { All (λ es. vec_len es < vec_capacity es) rows.old }
    ensures { map (λ es. es.items) rows.new ≡ map (λ es. es ++ zero_ℚ
        ∷ []) (map (λ es. es.items) rows.old) }
{
    for row in rows.iter_mut() {
        row.push_reserved(Frac::whole(0));
    }
}
