//! The number that a value writes.

ghost use Rattle.std.specs.Prelude.{◌≡◌, MatchOption};
ghost use Rattle.std.specs.Str.Parse.{digits_value};
ghost use Rattle.esc_words.specs.Uses.{IsNumberUpTo};

const MOST_DIGITS: usize = 10;

/// The number, where the text has one to ten digits and nothing else, and it is not above `most`.
pub(crate) fn number(text: &str, most: u64) -> Option<u64>
    ensures { MatchOption result (IsNumberUpTo most text.now → ⊥)
        (λ n. IsNumberUpTo most text.now × (n ≡ digits_value 10 text.now)) }
{
    // A plus sign would be read as part of the number.
    if text.len() > MOST_DIGITS || text.starts_with('+') {
        return None;
    }
    match text.parse::<u64>() {
        Ok(value) if value <= most => Some(value),
        _ => None,
    }
}
