//! What is said of the formulas of entries.

ghost use Rattle.std.specs.Prelude.{◌≡◌, ◌↔◌, IsTrue, true, List, Some, slice_get};
ghost use Rattle.esc_term.specs.declared.formula.Formula.{Formula};
ghost use Rattle.esc_term.specs.declared.formula.Formula.TheViews.{out-Formula};
ghost use Rattle.esc_clause.specs.Occurrences.{formula_at};
ghost use Rattle.esc_cover.specs.Cover.{Cover, by_literal};
ghost use Rattle.esc_egraph.specs.Graph.{Graph};
ghost use Rattle.esc_sharing.specs.Unquantified.{is_quantified_form};
ghost use Rattle.esc_said.specs.Speaking.{SaysAs};
ghost use Rattle.esc_book.specs.Book.{HasNodes, IsLiveOccurrence, IsPage, form_at, heads_of};
ghost use Rattle.esc_book.specs.Book.{told_kind};
ghost use Rattle.esc_book.specs.Judging.{IsReady, literals_for};
ghost use Rattle.esc_book.specs.JudgingInside.{AreBetween, HasEntries, HasNoParts, IsEntryAt};
ghost use Rattle.esc_book.specs.JudgingInside.{cover_by, joined, of_none, of_parts};
ghost use Rattle.esc_book.specs.declared.entry.Kind.TheVariants.{Quantified};

use crate::entry::{Entry, Kind};
use crate::judge::BookJudge;
use crate::page::{Place, locate, next_of};
use esc_clause::Occurrence;
use esc_said::Said;
use esc_term::Formula;

impl<'a> BookJudge<'a> {
    /// What is said of the formula of the entry there.
    #[cycle(said)]
    pub(crate) fn said_at(&self, page: &[Entry], index: usize) -> Said
        requires ready { IsReady self.now }
        requires there { IsEntryAt self.now.saying.graph.now page.now index }
        ensures { (f s : Formula) → IsPage self.now.saying.graph.now f page.now
            → slice_get (heads_of f) index ≡ Some s → SaysAs result (cover_by self.now s) }
    {
        let Some(entry) = page.get(index) else {
            return Said::NOTHING;
        };
        match &entry.kind {
            Kind::Conjunction => self.said_of_parts(page, index + 1, entry.next, true),
            Kind::Disjunction => self.said_of_parts(page, index + 1, entry.next, false),
            Kind::Negation => self.said_at(page, index + 1).turned(),
            Kind::Labelled => self.said_at(page, index + 1),
            Kind::Implication => {
                let first = self.said_at(page, index + 1);
                let second = self.said_at(page, next_of(page, index + 1));
                first.turned().or(second)
            }
            Kind::Equivalence => {
                let first = self.said_at(page, index + 1);
                let second = self.said_at(page, next_of(page, index + 1));
                first.iff(second)
            }
            Kind::Constant(_)
            | Kind::Equation(_, _)
            | Kind::Order(_, _)
            | Kind::Distinction(_)
            | Kind::Quantified(_) => self.said_of_kind(&entry.kind),
        }
    }

    /// What is said of all the formulas whose entries stand side by side, or of one of them.
    #[cycle(said)]
    fn said_of_parts(&self, page: &[Entry], from: usize, to: usize, all: bool) -> Said
        requires ready { IsReady self.now }
        requires there { HasEntries self.now.saying.graph.now page.now from to }
        ensures { (f : Formula) (ps : List Formula) → IsPage self.now.saying.graph.now f page.now
            → AreBetween (heads_of f) from to ps
            → SaysAs result (cover_by self.now (of_parts all ps)) }
    {
        let mut said = of_no_parts(all);
        let mut index = from;
        'parts: while index < to {
            said = with_part(said, self.said_at(page, index), all);
            index = next_of(page, index);
        }
        said
    }

    /// What is said of a formula without parts.
    fn said_of_kind(&self, kind: &Kind) -> Said
        requires ready { IsReady self.now }
        requires nodes { HasNodes self.now.saying.graph.now kind.now }
        ensures { (s : Formula)
            → told_kind self.now.saying.graph.now kind.now ≡ form_at (out-Formula s)
            → HasNoParts kind.now → SaysAs result (cover_by self.now s) }
    {
        match kind {
            Kind::Constant(is_true) => Said {
                holds: *is_true,
                fails: !*is_true,
            },
            Kind::Equation(a, b) => self.saying.equal(*a, *b),
            Kind::Order(a, b) => self.saying.less(*a, *b),
            Kind::Distinction(group) => self.saying.distinct(group.get().nodes()),
            Kind::Quantified(formula) => self.said_of_quantified(formula.get()),
            _ => Said::NOTHING,
        }
    }

    /// What is said of a quantified formula: what the literals say.
    fn said_of_quantified(&self, formula: &Formula) -> Said
        requires ready { IsReady self.now }
        ensures { is_quantified_form (out-Formula formula.now) ≡ true
            → SaysAs result (by_literal (literals_for self.now) formula.now) }
    {
        let mut said = Said::NOTHING;
        'literals: for literal in self.literals.as_slice() {
            let at = *literal;
            if self.is_at(at, formula) {
                said = said.with_sign(at.positive);
            }
        }
        said
    }

    /// Whether the quantified formula stands there.
    fn is_at(&self, at: Occurrence, formula: &Formula) -> bool
        requires ready { IsReady self.now }
        ensures { is_quantified_form (out-Formula formula.now) ≡ true
            → IsLiveOccurrence self.now.book.now at
            → IsTrue result ↔ (formula_at self.now.book.now.logged at ≡ Some formula.now) }
    {
        let Some(page) = self.book.page(at.fact) else {
            return false;
        };
        match locate(page, at.place) {
            Place::Entry(index) => has_quantified(page, index, formula),
            _ => false,
        }
    }
}

/// Whether the entry there is of the quantified formula.
fn has_quantified(page: &[Entry], index: usize, formula: &Formula) -> bool
    ensures { is_quantified_form (out-Formula formula.now) ≡ true
        → (g : Graph) (f s : Formula) → IsPage g f page.now
        → slice_get (heads_of f) index ≡ Some s → IsTrue result ↔ (s ≡ formula.now) }
{
    match page.get(index) {
        Some(entry) => is_quantified_as(&entry.kind, formula),
        None => false,
    }
}

/// Whether the kind is that of the quantified formula.
fn is_quantified_as(kind: &Kind, formula: &Formula) -> bool
    ensures { IsTrue result ↔ (kind.now ≡ Quantified formula.now) }
{
    match kind {
        Kind::Quantified(other) => *other.get() == *formula,
        _ => false,
    }
}

/// What is said of all of no formulas, or of one of them.
fn of_no_parts(all: bool) -> Said
    ensures { SaysAs result (of_none all) }
{
    if all { Said::HOLDS } else { Said::FAILS }
}

/// What is said with one formula more.
fn with_part(said: Said, part: Said, all: bool) -> Said
    ensures { (c d : Cover) → SaysAs said c → SaysAs part d → SaysAs result (joined all c d) }
{
    if all { said.and(part) } else { said.or(part) }
}
