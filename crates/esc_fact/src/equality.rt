//! Equality of facts.

ghost use Rattle.std.specs.Prelude.{◌≡◌, ◌↔◌, IsTrue};
ghost use Rattle.std.specs.Cmp.{partial_equiv_from_equiv};
ghost use Rattle.esc_fact.specs.Equal.{same_fact, same_fact-equivalence};

use crate::fact::Fact;
use esc_term::{Term, are_same};

fn is_same_term(left: &Term, right: &Term) -> bool
    ensures { IsTrue result ↔ (left.now ≡ right.now) }
{
    *left == *right
}

fn is_same(left: &Fact, right: &Fact) -> bool
    ensures { IsTrue result ↔ (left.now ≡ right.now) }
{
    match (left, right) {
        (Fact::Given(k), Fact::Given(l)) => k == l,
        (Fact::NegGoal, Fact::NegGoal) => true,
        (
            Fact::Inst {
                number,
                outer,
                terms,
            },
            Fact::Inst {
                number: other,
                outer: others,
                terms: more,
            },
        ) => {
            number == other
                && are_same(outer.as_slice(), others.as_slice())
                && are_same(terms.as_slice(), more.as_slice())
        }
        (
            Fact::Skolem { number, outer },
            Fact::Skolem {
                number: other,
                outer: others,
            },
        ) => number == other && are_same(outer.as_slice(), others.as_slice()),
        (Fact::Map1(m, i, x), Fact::Map1(n, j, y)) => {
            is_same_term(m, n) && is_same_term(i, j) && is_same_term(x, y)
        }
        (Fact::Map2(m, i, x, j), Fact::Map2(n, k, y, l)) => {
            is_same_term(m, n) && is_same_term(i, k) && is_same_term(x, y) && is_same_term(j, l)
        }
        _ => false,
    }
}

impl PartialEq for Fact {
    ghost eq = { same_fact };

    ghost laws = { partial_equiv_from_equiv same_fact-equivalence };

    fn eq(&self, other: &Fact) -> bool
        ensures test { result ≡ same_fact self.now other.now }
        ensures same { IsTrue result ↔ (self.now ≡ other.now) }
    {
        is_same(self, other)
    }
}

impl Eq for Fact {
    ghost laws = { same_fact-equivalence };
}
