//! Counterexamples.

ghost use Rattle.std.specs.Prelude.{◌++◌};
ghost use Rattle.esc_io.specs.Putting.{Delivers};
ghost use Rattle.esc_print.specs.Formulas.{literal_text};
ghost use Rattle.esc_print.specs.Fractions.{frac_text};
ghost use Rattle.esc_print.specs.Names.{name_text};
ghost use Rattle.esc_report.specs.FoundText.{class_line, class_lines, classes_opening};
ghost use Rattle.esc_report.specs.FoundText.{classes_text, context_opening, context_text};
ghost use Rattle.esc_report.specs.FoundText.{found_opening, found_text, labels_line, literal_line};
ghost use Rattle.esc_report.specs.FoundText.{literal_lines, value_text};
ghost use Rattle.esc_report.specs.Listed.{listed, terms_text};

use crate::listed::{put_names, put_terms};
use esc_frac::Frac;
use esc_io::{Failed, Sink, put_all};
use esc_names::Names;
use esc_options::Show;
use esc_outcome::{Class, Counterexample};
use esc_print::{put_frac, put_literal};
use esc_term::{Item, Sym, Term};

// ---- labels

// Names in parentheses between two texts.
#[tactic(auto, using(esc_io::proofs::PuttingLemmas::putting))]
fn put_names_between<K: Sink>(
    before: &[u8],
    list: &[Sym],
    behind: &[u8],
    names: &Names,
    sink: &mut K,
) -> Result<(), Failed>
    ensures { Delivers K.written K.faults sink.old sink.new result
        (before.now ++ (listed (name_text names.now) list.now ++ behind.now)) }
{
    put_all(sink, before)?;
    put_names(list, names, sink)?;
    put_all(sink, behind)
}

#[tactic(auto, unfolding(crate::specs::FoundText::labels_line), using(esc_io::proofs::PuttingLemmas::putting))]
fn put_labels<K: Sink>(labels: &[Sym], names: &Names, sink: &mut K) -> Result<(), Failed>
    ensures { Delivers K.written K.faults sink.old sink.new result
        (labels_line names.now labels.now) }
{
    if labels.is_empty() {
        Ok(())
    } else {
        put_names_between(b"  labels: ", labels, b"\n", names, sink)
    }
}

// ---- literals

#[tactic(auto, using(esc_io::proofs::PuttingLemmas::putting))]
fn put_literal_between<K: Sink>(
    before: &[u8],
    literal: &Item,
    behind: &[u8],
    names: &Names,
    sink: &mut K,
) -> Result<(), Failed>
    ensures { Delivers K.written K.faults sink.old sink.new result
        (before.now ++ (literal_text names.now literal.now ++ behind.now)) }
{
    put_all(sink, before)?;
    put_literal(literal, names, sink)?;
    put_all(sink, behind)
}

#[tactic(auto, unfolding(crate::specs::FoundText::literal_line))]
fn put_literal_line<K: Sink>(literal: &Item, names: &Names, sink: &mut K) -> Result<(), Failed>
    ensures { Delivers K.written K.faults sink.old sink.new result
        (literal_line names.now literal.now) }
{
    put_literal_between(b"    ", literal, b"\n", names, sink)
}

fn put_literal_lines<K: Sink>(literals: &[Item], names: &Names, sink: &mut K) -> Result<(), Failed>
    ensures { Delivers K.written K.faults sink.old sink.new result
        (literal_lines names.now literals.now) }
{
    'literals: for literal in literals {
        put_literal_line(literal, names, sink)?;
    }
    Ok(())
}

// ---- classes

#[tactic(auto, using(esc_io::proofs::PuttingLemmas::putting))]
fn put_equal<K: Sink>(sign: &[u8], value: Frac, sink: &mut K) -> Result<(), Failed>
    ensures { Delivers K.written K.faults sink.old sink.new result
        (sign.now ++ frac_text value) }
{
    put_all(sink, sign)?;
    put_frac(value, sink)
}

#[tactic(auto, using(esc_io::proofs::PuttingLemmas::putting))]
fn put_value<K: Sink>(value: Option<Frac>, sink: &mut K) -> Result<(), Failed>
    ensures { Delivers K.written K.faults sink.old sink.new result (value_text value) }
{
    match value {
        Some(value) => put_equal(b" = ", value, sink),
        None => Ok(()),
    }
}

// Terms in parentheses with a value, between two texts.
#[tactic(auto, using(esc_io::proofs::PuttingLemmas::putting))]
fn put_class_between<K: Sink>(
    before: &[u8],
    terms: &[Term],
    value: Option<Frac>,
    behind: &[u8],
    names: &Names,
    sink: &mut K,
) -> Result<(), Failed>
    ensures { Delivers K.written K.faults sink.old sink.new result
        (before.now ++ (terms_text names.now terms.now ++ (value_text value ++ behind.now))) }
{
    put_all(sink, before)?;
    put_terms(terms, names, sink)?;
    put_value(value, sink)?;
    put_all(sink, behind)
}

#[tactic(auto, unfolding(crate::specs::FoundText::class_line))]
fn put_class_line<K: Sink>(class: &Class, names: &Names, sink: &mut K) -> Result<(), Failed>
    ensures { Delivers K.written K.faults sink.old sink.new result
        (class_line names.now class.now) }
{
    let terms = class.terms.as_slice();
    put_class_between(b"    ", terms, class.value, b"\n", names, sink)
}

fn put_class_lines<K: Sink>(classes: &[Class], names: &Names, sink: &mut K) -> Result<(), Failed>
    ensures { Delivers K.written K.faults sink.old sink.new result
        (class_lines names.now classes.now) }
{
    'classes: for class in classes {
        put_class_line(class, names, sink)?;
    }
    Ok(())
}

#[tactic(auto, unfolding(crate::specs::FoundText::classes_opening))]
fn put_classes_opening<K: Sink>(sink: &mut K) -> Result<(), Failed>
    ensures { Delivers K.written K.faults sink.old sink.new result classes_opening }
{
    put_all(sink, b"  classes:\n")
}

#[tactic(auto, using(esc_io::proofs::PuttingLemmas::putting))]
fn put_all_classes<K: Sink>(classes: &[Class], names: &Names, sink: &mut K) -> Result<(), Failed>
    ensures { Delivers K.written K.faults sink.old sink.new result
        (classes_opening ++ class_lines names.now classes.now) }
{
    put_classes_opening(sink)?;
    put_class_lines(classes, names, sink)
}

#[tactic(auto, using(esc_io::proofs::PuttingLemmas::putting))]
fn put_classes<K: Sink>(
    classes: &[Class],
    show: Show,
    names: &Names,
    sink: &mut K,
) -> Result<(), Failed>
    ensures { Delivers K.written K.faults sink.old sink.new result
        (classes_text names.now show classes.now) }
{
    if show.model {
        put_all_classes(classes, names, sink)
    } else {
        Ok(())
    }
}

// ---- all of it

#[tactic(auto, unfolding(crate::specs::FoundText::found_opening))]
fn put_found_opening<K: Sink>(sink: &mut K) -> Result<(), Failed>
    ensures { Delivers K.written K.faults sink.old sink.new result found_opening }
{
    put_all(sink, b"Counterexample:\n")
}

#[tactic(auto, unfolding(crate::specs::FoundText::context_opening))]
fn put_context_opening<K: Sink>(sink: &mut K) -> Result<(), Failed>
    ensures { Delivers K.written K.faults sink.old sink.new result context_opening }
{
    put_all(sink, b"  context:\n")
}

#[tactic(auto, using(esc_io::proofs::PuttingLemmas::putting))]
fn put_context<K: Sink>(literals: &[Item], names: &Names, sink: &mut K) -> Result<(), Failed>
    ensures { Delivers K.written K.faults sink.old sink.new result
        (context_text names.now literals.now) }
{
    put_context_opening(sink)?;
    put_literal_lines(literals, names, sink)
}

fn put_parts<K: Sink>(
    labels: &[Sym],
    literals: &[Item],
    classes: &[Class],
    show: Show,
    names: &Names,
    sink: &mut K,
) -> Result<(), Failed>
    ensures { Delivers K.written K.faults sink.old sink.new result
        (found_opening ++ (labels_line names.now labels.now
        ++ (context_text names.now literals.now ++ classes_text names.now show classes.now))) }
{
    put_found_opening(sink)?;
    put_labels(labels, names, sink)?;
    put_context(literals, names, sink)?;
    put_classes(classes, show, names, sink)
}

/// Puts a counterexample: its labels, its literals, and its classes where they are asked for.
pub fn put_found<K: Sink>(
    found: &Counterexample,
    show: Show,
    names: &Names,
    sink: &mut K,
) -> Result<(), Failed>
    ensures { Delivers K.written K.faults sink.old sink.new result
        (found_text names.now show found.now) }
{
    let labels = found.labels.as_slice();
    let literals = found.literals.as_slice();
    put_parts(
        labels,
        literals,
        found.classes.as_slice(),
        show,
        names,
        sink,
    )
}
