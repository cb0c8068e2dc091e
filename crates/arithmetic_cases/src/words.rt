//! Numbers in words.

use esc_frac::Frac;
use esc_tableau::Unknown;
use std::alloc::{AllocError, Global};

/// The words of a line.
pub fn words_of(alloc: Global, line: &str) -> Result<Vec<&str>, AllocError> {
    let mut words = Vec::new(alloc);
    'words: for word in line.split_whitespace() {
        words.push(word)?;
    }
    Ok(words)
}

/// The number at a place.
pub fn number_at(words: &[&str], place: usize) -> Option<usize> {
    words.get(place)?.parse::<usize>().ok()
}

/// The unknown at a place.
pub fn unknown_at(words: &[&str], place: usize) -> Option<Unknown> {
    Some(Unknown::numbered(number_at(words, place)?))
}

/// The fraction at a place.
pub fn fraction_at(words: &[&str], place: usize) -> Option<Frac> {
    fraction(words.get(place)?)
}

/// The number that a word is: whole, or divided by the numbers behind slashes.
fn fraction(word: &str) -> Option<Frac> {
    let mut value = None;
    'parts: for part in word.split('/') {
        let number = Frac::whole(part.parse::<i64>().ok()?);
        value = match value {
            None => Some(number),
            Some(dividend) => Some(quotient(dividend, number)?),
        };
    }
    value
}

fn quotient(dividend: Frac, divisor: Frac) -> Option<Frac> {
    if divisor.is_zero() {
        return None;
    }
    Frac::div(dividend, divisor).ok()
}

/// The text of a fraction, as it is read.
pub fn text_of(alloc: Global, value: Frac) -> Result<String, AllocError> {
    let (num, den) = (value.num(), value.den());
    if den == 1 {
        return format!(in alloc; "{num}");
    }
    format!(in alloc; "{num}/{den}")
}
