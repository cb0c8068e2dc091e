//! Labels of formulas.

use crate::judge::Judge;
use esc_said::Said;
use esc_term::{Formula, Sym};
use std::alloc::AllocError;

/// A label, and whether it tells why a branch is open.
#[derive(Clone, Copy)]
pub(crate) struct Label {
    pub(crate) name: Sym,
    pub(crate) told: bool,
}

impl<'a> Judge<'a> {
    ghost use Rattle.std.specs.Prelude.{◌≡◌, OnOk, IfOk, if◌then◌else◌};
    ghost use Rattle.std.specs.List.{flat_map, list_all, list_any};
    ghost use Rattle.esc_outcome.specs.Labels.{told_if};
    ghost use Rattle.esc_context.specs.JudgingInside.{IsJudge, Labels, cover_by, labels_by};

    /// What is said of a formula, whose labels come behind the others. It fails only where memory
    /// is wanting.
    #[cycle(labelled)]
    #[tactic(auto, using(esc_cover::proofs::CoverLevels::cover_levels))]
    pub(crate) fn labelled(
        &self,
        formula: &Formula,
        labels: &mut Vec<Label>,
    ) -> Result<Said, AllocError>
        requires judge { IsJudge self.now }
        ensures holds { IfOk result (λ said. said.holds
            ≡ (cover_by self.now formula.now).holds) }
        ensures fails { IfOk result (λ said. said.fails
            ≡ (cover_by self.now formula.now).fails) }
        ensures labels { OnOk result (Labels labels.old.items labels.new.items
            (labels_by self.now formula.now)) }
    {
        match formula {
            Formula::True => Ok(Said::HOLDS),
            Formula::False => Ok(Said::FAILS),
            Formula::And(parts) => self.labelled_all(parts.as_slice(), labels),
            Formula::Or(parts) => self.labelled_any(parts.as_slice(), labels),
            Formula::Not(part) => {
                let said = self.labelled(part.get(), labels)?;
                Ok(said.turned())
            }
            Formula::Implies(left, right) => {
                let first = self.labelled(left.get(), labels)?;
                let second = self.labelled(right.get(), labels)?;
                Ok(first.turned().or(second))
            }
            Formula::Iff(left, right) => {
                let first = self.labelled(left.get(), labels)?;
                let second = self.labelled(right.get(), labels)?;
                Ok(first.iff(second))
            }
            Formula::Eq(left, right) => Ok(self.said_equal(left, right)),
            Formula::Distinct(terms) => Ok(self.said_distinct(terms.as_slice())),
            Formula::LabelPos(name, part) => self.labelled_as(*name, true, part.get(), labels),
            Formula::LabelNeg(name, part) => self.labelled_as(*name, false, part.get(), labels),
            Formula::Forall(_) => Ok(self.said_literal(formula)),
            Formula::Exists(_) => Ok(self.said_literal(formula)),
            Formula::Less(_, _) => Ok(self.said_literal(formula)),
        }
    }

    /// What is said of a formula that has a label of this sign. The label is told where the formula
    /// is said to have the sign.
    #[cycle(labelled)]
    fn labelled_as(
        &self,
        name: Sym,
        positive: bool,
        part: &Formula,
        labels: &mut Vec<Label>,
    ) -> Result<Said, AllocError>
        requires judge { IsJudge self.now }
        ensures holds { IfOk result (λ said. said.holds ≡ (cover_by self.now part.now).holds) }
        ensures fails { IfOk result (λ said. said.fails ≡ (cover_by self.now part.now).fails) }
        ensures labels { OnOk result (Labels labels.old.items labels.new.items
            (told_if (if positive then (cover_by self.now part.now).holds
            else (cover_by self.now part.now).fails) name (labels_by self.now part.now))) }
    {
        let place = labels.len();
        labels.push(Label { name, told: false })?;
        let said = self.labelled(part, labels)?;
        let told = if positive { said.holds } else { said.fails };
        labels[place] = Label { name, told };
        Ok(said)
    }

    /// What is said of a conjunction.
    #[cycle(labelled)]
    fn labelled_all(&self, parts: &[Formula], labels: &mut Vec<Label>) -> Result<Said, AllocError>
        requires judge { IsJudge self.now }
        ensures holds { IfOk result (λ said. said.holds
            ≡ list_all (λ f. (cover_by self.now f).holds) parts.now) }
        ensures fails { IfOk result (λ said. said.fails
            ≡ list_any (λ f. (cover_by self.now f).fails) parts.now) }
        ensures labels { OnOk result (Labels labels.old.items labels.new.items
            (flat_map (labels_by self.now) parts.now)) }
    {
        let mut said = Said::HOLDS;
        'parts: for part in parts {
            said = said.and(self.labelled(part, labels)?);
        }
        Ok(said)
    }

    /// What is said of a disjunction.
    #[cycle(labelled)]
    fn labelled_any(&self, parts: &[Formula], labels: &mut Vec<Label>) -> Result<Said, AllocError>
        requires judge { IsJudge self.now }
        ensures holds { IfOk result (λ said. said.holds
            ≡ list_any (λ f. (cover_by self.now f).holds) parts.now) }
        ensures fails { IfOk result (λ said. said.fails
            ≡ list_all (λ f. (cover_by self.now f).fails) parts.now) }
        ensures labels { OnOk result (Labels labels.old.items labels.new.items
            (flat_map (labels_by self.now) parts.now)) }
    {
        let mut said = Said::FAILS;
        'parts: for part in parts {
            said = said.or(self.labelled(part, labels)?);
        }
        Ok(said)
    }
}
