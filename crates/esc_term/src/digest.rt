//! Digests: numbers by which terms are looked up.

ghost use Rattle.std.specs.Prelude.{◌≡◌};
ghost use Rattle.esc_term.specs.Digest.{digest, hashed, hashed-alike, head_digest, mixed};
ghost use Rattle.esc_term.specs.Digest.{term_mixed, terms_mixed};

use crate::term::{Head, Term};
use std::hash::{Hash, Hasher};

/// A number after one more word is mixed into it. The order of the words tells.
#[tactic(auto, unfolding(crate::specs::Digest::mixed))]
pub fn mix(start: u64, word: u64) -> u64
    ensures { result ≡ mixed start word }
{
    let product = (start.rotate_left(23) ^ word).wrapping_mul(11_400_714_819_323_198_485);
    product ^ (product >> 32)
}

/// The digest of a head, before the arguments are mixed into it.
pub fn digest_head(head: Head) -> u64
    ensures { result ≡ head_digest head }
{
    match head {
        Head::Name(name) => mix(2, name.0),
        Head::Skolem(number, place) => mix(mix(3, number), place),
        Head::Add => 4,
        Head::Sub => 5,
        Head::Mul => 6,
    }
}

/// The digest of a term.
#[cycle(digest_term)]
#[tactic(auto, using(crate::proofs::DigestLevels::levels))]
pub fn digest_term(term: &Term) -> u64
    ensures { result ≡ digest term.now }
{
    match term {
        Term::Num(n) => mix(0, n.cast_unsigned()),
        Term::Var(k) => mix(1, *k),
        Term::App(head, args) => mix_terms(digest_head(*head), args.as_slice()),
    }
}

/// A number after the digest of a term is mixed into it.
#[cycle(digest_term)]
pub fn mix_term(start: u64, term: &Term) -> u64
    ensures { result ≡ term_mixed start term.now }
{
    mix(start, digest_term(term))
}

/// A number after the digests of some terms are mixed into it.
#[cycle(digest_term)]
pub fn mix_terms(start: u64, terms: &[Term]) -> u64
    ensures { result ≡ terms_mixed start terms.now }
{
    let mut done = start;
    for term in terms {
        done = mix_term(done, term);
    }
    done
}

impl Hash for Term {
    ghost hash_input = { hashed };

    ghost respects_eq = { hashed-alike.fed };

    fn hash<H: Hasher>(&self, state: &mut H) {
        state.write_u64(digest_term(self));
    }
}
