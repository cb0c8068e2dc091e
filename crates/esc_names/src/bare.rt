//! What a spelling says where it stands without bars.

ghost use Rattle.std.specs.Prelude.{◌≡◌, is_some};
ghost use Rattle.esc_names.specs.BareNames.{begins_with_at, digits_of, is_bare_byte, is_bare_name};
ghost use Rattle.esc_names.specs.BareNames.{is_digit, is_numeral, is_reserved, is_run_of};

use crate::words::reserved;

fn is_digit(byte: u8) -> bool
    ensures { result ≡ is_digit byte }
{
    b'0' <= byte && byte <= b'9'
}

/// The text without a minus sign before it.
pub fn digits_of(text: &[u8]) -> &[u8]
    ensures { result.now ≡ digits_of text.now }
{
    match text {
        [first, ..] if *first == b'-' => &text[1..],
        _ => text,
    }
}

fn are_digits(text: &[u8]) -> bool
    ensures { result ≡ is_run_of is_digit text.now }
{
    'bytes: for byte in text {
        if !is_digit(*byte) {
            return false;
        }
    }
    text.len() != 0
}

/// Whether the text is a numeral: one digit or more, perhaps behind a minus sign.
#[tactic(auto, unfolding(crate::specs::BareNames::is_numeral))]
pub fn is_numeral(text: &[u8]) -> bool
    ensures { result ≡ is_numeral text.now }
{
    are_digits(digits_of(text))
}

#[tactic(auto, unfolding(crate::specs::BareNames::is_bare_byte))]
fn is_bare_byte(byte: u8) -> bool
    ensures { result ≡ is_bare_byte byte }
{
    b'!' <= byte && byte <= b'~' && byte != b'(' && byte != b')' && byte != b';' && byte != b'|'
}

fn are_bare_bytes(text: &[u8]) -> bool
    ensures { result ≡ is_run_of is_bare_byte text.now }
{
    'bytes: for byte in text {
        if !is_bare_byte(*byte) {
            return false;
        }
    }
    text.len() != 0
}

#[tactic(auto, unfolding(crate::specs::BareNames::is_reserved, crate::specs::Reserved::key_of))]
fn is_reserved(text: &[u8]) -> bool
    ensures { result ≡ is_reserved text.now }
{
    reserved().key(text).is_some()
}

/// Whether a bare token with this spelling is a name.
///
/// It is one where it has a byte at least, each of its bytes may stand in a bare token, and it is
/// neither a numeral nor a reserved word.
#[tactic(auto, unfolding(crate::specs::BareNames::is_bare_name))]
pub fn is_bare_name(text: &[u8]) -> bool
    ensures { result ≡ is_bare_name text.now }
{
    are_bare_bytes(text) && !is_numeral(text) && !is_reserved(text)
}

/// Whether the text begins as the names do that the prover makes.
pub fn begins_with_at(text: &[u8]) -> bool
    ensures { result ≡ begins_with_at text.now }
{
    match text {
        [first, ..] => *first == b'@',
        [] => false,
    }
}
