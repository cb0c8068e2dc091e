//! The labels that tell why a branch is open.

ghost use Rattle.std.specs.Prelude.{◌≡◌, [], IfOk, IfSome, OnOk};
ghost use Rattle.std.specs.List.{fold};
ghost use Rattle.esc_fact.specs.Fact.{IsFact, formula_of, formulas_of};
ghost use Rattle.esc_fact.specs.Legal.{IsClosedBase};
ghost use Rattle.esc_outcome.specs.Labels.{labels_of, with_name_once};
ghost use Rattle.esc_sharing.specs.Nodes.{classes_in};
ghost use Rattle.esc_context.specs.JudgingInside.{IsJudge, Labels, labels_by, told_names};
ghost use Rattle.esc_context.specs.Left.{IsLeft};

use crate::judge::Judge;
use crate::labelled::Label;
use esc_fact::{Base, Fact, Facts, formula_of};
use esc_outcome::{Literals, Syms};
use esc_said::{Said, Saying, saying_laws};
use esc_sharing::Sharing;
use esc_simplex::Simplex;
use indexmap::IndexSet;
use sqlite_items::Items;
use std::alloc::{AllocError, Global};

/// The names of the labels that tell why the branch is open, each once, in the order in which they
/// first tell it. It fails only where memory is wanting.
pub fn labels(
    alloc: Global,
    sharing: &Sharing<Simplex>,
    base: &Base,
    live: &Facts,
    literals: &Literals,
) -> Result<Syms, AllocError>
    requires left { IsLeft base.now sharing.now live.now literals.now }
    ensures labels { IfOk result (λ names. names ≡ labels_of literals.now
        (classes_in sharing.now.graph) (formulas_of base.now live.now)) }
{
    saying_laws();
    let saying = Saying {
        graph: sharing.graph(),
        groups: sharing.groups(),
        asserted: sharing.asserted(),
    };
    let judge = Judge { saying, literals };
    let mut labels = Vec::new(alloc);
    'facts: for fact in live.as_slice() {
        labelled_fact(alloc, &judge, base, fact, &mut labels)?;
    }
    told_once(alloc, labels.as_slice())
}

/// What is said of the formula of a fact, whose labels come behind the others.
fn labelled_fact(
    alloc: Global,
    judge: &Judge<'_>,
    base: &Base,
    fact: &Fact,
    labels: &mut Vec<Label>,
) -> Result<Said, AllocError>
    requires judge { IsJudge judge.now }
    requires closed { IsClosedBase base.now }
    requires is_fact { IsFact base.now fact.now }
    ensures { OnOk result (IfSome (formula_of base.now fact.now)
        (λ f. Labels labels.old.items labels.new.items (labels_by judge.now f))) }
{
    let formula = formula_of(alloc, base, fact)?;
    judge.labelled(&formula, labels)
}

/// The names of the labels that are told, each once.
fn told_once(alloc: Global, labels: &[Label]) -> Result<Syms, AllocError>
    ensures { IfOk result (λ names. names ≡ fold with_name_once [] (told_names labels.now)) }
{
    let mut seen = IndexSet::new(alloc);
    let mut names = Items::new(alloc);
    'labels: for label in labels {
        if label.told {
            let new = seen.insert(label.name.0)?;
            if new {
                names.push(label.name)?;
            }
        }
    }
    Ok(names)
}
