//! The number by which a fact is looked up.

ghost use Rattle.std.specs.Prelude.{◌≡◌};
ghost use Rattle.esc_fact.specs.DigestInside.{digest, hashed, hashed-alike};

use crate::fact::Fact;
use esc_term::{mix, mix_term, mix_terms};
use std::hash::{Hash, Hasher};

#[tactic(auto, unfolding(crate::specs::DigestInside::digest))]
fn digest_of(fact: &Fact) -> u64
    ensures { result ≡ digest fact.now }
{
    match fact {
        Fact::Given(k) => mix(1, *k),
        Fact::NegGoal => 2,
        Fact::Inst {
            number,
            outer,
            terms,
        } => mix_terms(
            mix_terms(mix(3, *number), outer.as_slice()),
            terms.as_slice(),
        ),
        Fact::Skolem { number, outer } => mix_terms(mix(4, *number), outer.as_slice()),
        Fact::Map1(m, i, x) => mix_term(mix_term(mix_term(5, m), i), x),
        Fact::Map2(m, i, x, j) => mix_term(mix_term(mix_term(mix_term(6, m), i), x), j),
    }
}

impl Hash for Fact {
    ghost hash_input = { hashed };

    ghost respects_eq = { hashed-alike.fed };

    fn hash<H: Hasher>(&self, state: &mut H) {
        state.write_u64(digest_of(self));
    }
}
