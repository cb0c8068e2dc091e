//! What literals and classes say of atoms.

use esc_outcome::Literals;
use esc_said::{Said, Saying};
use esc_term::{Formula, Term};

/// Literals, and who speaks for them.
#[derive(Clone, Copy)]
pub(crate) struct Judge<'a> {
    pub(crate) saying: Saying<'a>,
    pub(crate) literals: &'a Literals,
}

impl<'a> Judge<'a> {
    ghost use Rattle.std.specs.Prelude.{◌≡◌};
    ghost use Rattle.std.specs.List.{list_all, list_any};
    ghost use Rattle.esc_term.specs.declared.formula.Formula.TheVariants as formula;
    ghost use Rattle.esc_cover.specs.Classes.{together};
    ghost use Rattle.esc_cover.specs.Cover.{by_literal, every_two, is_forced_apart, some_two};
    ghost use Rattle.esc_context.specs.JudgingInside.{IsJudge, classes_for, cover_by, literals_for};

    /// What is said of an equation.
    pub(crate) fn said_equal(&self, left: &Term, right: &Term) -> Said
        requires judge { IsJudge self.now }
        ensures holds { result.holds ≡ (cover_by self.now (formula.Eq left.now right.now)).holds }
        ensures fails { result.fails ≡ (cover_by self.now (formula.Eq left.now right.now)).fails }
    {
        let Some(a) = self.saying.graph.node_of(left) else {
            return Said::NOTHING;
        };
        let Some(b) = self.saying.graph.node_of(right) else {
            return Said::NOTHING;
        };
        self.saying.equal(a, b)
    }

    /// What is said of a distinction.
    pub(crate) fn said_distinct(&self, terms: &[Term]) -> Said
        requires judge { IsJudge self.now }
        ensures holds { result.holds
            ≡ every_two (is_forced_apart (literals_for self.now) (classes_for self.now)) terms.now }
        ensures fails { result.fails ≡ some_two (together (classes_for self.now)) terms.now }
    {
        let mut said = Said::HOLDS;
        'places: for (place, term) in terms.iter().enumerate() {
            said = said.and(self.said_unlike(term, &terms[place + 1..]));
        }
        said
    }

    /// What is said of a term's being unlike each of others.
    fn said_unlike(&self, term: &Term, others: &[Term]) -> Said
        requires judge { IsJudge self.now }
        ensures holds { result.holds
            ≡ list_all (is_forced_apart (literals_for self.now) (classes_for self.now) term.now)
            others.now }
        ensures fails { result.fails
            ≡ list_any (together (classes_for self.now) term.now) others.now }
    {
        let mut said = Said::HOLDS;
        'others: for other in others {
            said = said.and(self.said_equal(term, other).turned());
        }
        said
    }

    /// What is said of a formula of which only a literal can say something.
    pub(crate) fn said_literal(&self, formula: &Formula) -> Said
        ensures { record { holds = result.holds; fails = result.fails }
            ≡ by_literal (literals_for self.now) formula.now }
    {
        let mut said = Said::NOTHING;
        'literals: for literal in self.literals.as_slice() {
            if literal.formula == *formula {
                said = said.with_sign(literal.positive);
            }
        }
        said
    }
}
