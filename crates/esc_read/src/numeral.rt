//! Numerals.

ghost use Rattle.std.specs.Prelude.{◌≡◌, ◌^◌, ◌-◌, min};
ghost use Rattle.esc_read.specs.Tokens.{decimal_value, is_negative};
ghost use Rattle.esc_read.specs.Terms.{numeral_term};
ghost use Rattle.esc_read.specs.Reading.{Plain};

use crate::fault::{FormFault, FormKind, FormStop};
use esc_names::digits_of;
use esc_term::Term;

const LARGEST: u64 = 0x7fff_ffff_ffff_ffff;

fn is_negative(text: &[u8]) -> bool
    ensures { result ≡ is_negative text.now }
{
    match text {
        [first, ..] => *first == b'-',
        [] => false,
    }
}

/// The number that the digits write, which stands still at 2^64 - 1.
fn value_of(digits: &[u8]) -> u64
    ensures { result ≡ min (decimal_value digits.now) (2 ^ 64 - 1) }
{
    let mut value: u64 = 0;
    'bytes: for byte in digits {
        value = value
            .saturating_mul(10)
            .saturating_add(u64::from(byte.saturating_sub(b'0')));
    }
    value
}

/// The numeral as a term.
#[tactic(auto, unfolding(crate::specs::Terms::numeral_term), using(crate::proofs::Readings::plain_readings))]
pub(crate) fn read_numeral(place: u64, text: &[u8]) -> Result<Term, FormStop>
    ensures { Plain result (numeral_term place text.now) }
{
    let value = value_of(digits_of(text));
    if value > LARGEST {
        return Err(FormStop::Fault(FormFault {
            kind: FormKind::NumberTooLarge,
            place,
        }));
    }
    let size = value as i64;
    if is_negative(text) {
        return Ok(Term::Num(-size));
    }
    Ok(Term::Num(size))
}
