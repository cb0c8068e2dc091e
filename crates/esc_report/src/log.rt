//! The facts by which a goal is valid.

ghost use Rattle.std.specs.Prelude.{◌≡◌, ◌++◌, decimal, length};
ghost use Rattle.esc_io.specs.Putting.{Delivers};
ghost use Rattle.esc_print.specs.Formulas.{formula_text};
ghost use Rattle.esc_print.specs.Terms.{blank, closing, term_text};
ghost use Rattle.esc_report.specs.Listed.{terms_text};
ghost use Rattle.esc_report.specs.LogText.{entries_text, entry, entry_text, fact_text};
ghost use Rattle.esc_report.specs.LogText.{formula_end, log_opening, log_text, margin};
ghost use Rattle.esc_report.specs.LogText.{next_term_text, numbered_text, three_terms_text};

use crate::listed::{put_blank, put_closing, put_next_term, put_terms};
use esc_fact::Fact;
use esc_io::{Failed, Sink, put_all};
use esc_names::Names;
use esc_print::{put_formula, put_number, put_term};
use esc_term::{Formula, Term};

// A number behind a word.
#[tactic(auto, using(esc_io::proofs::PuttingLemmas::putting))]
fn put_numbered<K: Sink>(word: &[u8], number: u64, sink: &mut K) -> Result<(), Failed>
    ensures { Delivers K.written K.faults sink.old sink.new result
        (numbered_text word.now number) }
{
    put_all(sink, word)?;
    put_number(number, sink)
}

#[tactic(auto, using(esc_io::proofs::PuttingLemmas::putting))]
fn put_skolem<K: Sink>(
    word: &[u8],
    number: u64,
    outer: &[Term],
    names: &Names,
    sink: &mut K,
) -> Result<(), Failed>
    ensures { Delivers K.written K.faults sink.old sink.new result
        (word.now ++ (decimal number ++ (blank ++ terms_text names.now outer.now))) }
{
    put_all(sink, word)?;
    put_number(number, sink)?;
    put_blank(sink)?;
    put_terms(outer, names, sink)
}

#[tactic(auto, using(esc_io::proofs::PuttingLemmas::putting))]
fn put_instance<K: Sink>(
    word: &[u8],
    number: u64,
    outer: &[Term],
    terms: &[Term],
    names: &Names,
    sink: &mut K,
) -> Result<(), Failed>
    ensures { Delivers K.written K.faults sink.old sink.new result
        (word.now ++ (decimal number ++ (blank ++ (terms_text names.now outer.now
        ++ (blank ++ terms_text names.now terms.now))))) }
{
    put_all(sink, word)?;
    put_number(number, sink)?;
    put_blank(sink)?;
    put_terms(outer, names, sink)?;
    put_blank(sink)?;
    put_terms(terms, names, sink)
}

#[tactic(auto, using(esc_io::proofs::PuttingLemmas::putting))]
fn put_three_terms<K: Sink>(
    word: &[u8],
    m: &Term,
    i: &Term,
    x: &Term,
    names: &Names,
    sink: &mut K,
) -> Result<(), Failed>
    ensures { Delivers K.written K.faults sink.old sink.new result
        (three_terms_text names.now word.now m.now i.now x.now) }
{
    put_all(sink, word)?;
    put_term(m, names, sink)?;
    put_next_term(i, names, sink)?;
    put_next_term(x, names, sink)
}

#[tactic(auto, using(esc_io::proofs::PuttingLemmas::putting))]
fn put_map1<K: Sink>(
    word: &[u8],
    m: &Term,
    i: &Term,
    x: &Term,
    names: &Names,
    sink: &mut K,
) -> Result<(), Failed>
    ensures { Delivers K.written K.faults sink.old sink.new result
        (three_terms_text names.now word.now m.now i.now x.now ++ closing) }
{
    put_three_terms(word, m, i, x, names, sink)?;
    put_closing(sink)
}

#[tactic(auto, using(esc_io::proofs::PuttingLemmas::putting))]
fn put_map2<K: Sink>(
    word: &[u8],
    m: &Term,
    i: &Term,
    x: &Term,
    j: &Term,
    names: &Names,
    sink: &mut K,
) -> Result<(), Failed>
    ensures { Delivers K.written K.faults sink.old sink.new result
        (three_terms_text names.now word.now m.now i.now x.now
        ++ (next_term_text names.now j.now ++ closing)) }
{
    put_three_terms(word, m, i, x, names, sink)?;
    put_next_term(j, names, sink)?;
    put_closing(sink)
}

// How a fact is drawn.
fn put_fact<K: Sink>(fact: &Fact, names: &Names, sink: &mut K) -> Result<(), Failed>
    ensures { Delivers K.written K.faults sink.old sink.new result
        (fact_text names.now fact.now) }
{
    match fact {
        Fact::Given(k) => put_numbered(b"given ", *k, sink),
        Fact::NegGoal => put_all(sink, b"goal"),
        Fact::Inst {
            number,
            outer,
            terms,
        } => {
            let outer = outer.as_slice();
            put_instance(b"instance ", *number, outer, terms.as_slice(), names, sink)
        }
        Fact::Skolem { number, outer } => {
            put_skolem(b"skolem ", *number, outer.as_slice(), names, sink)
        }
        Fact::Map1(m, i, x) => put_map1(b"map1 (", m, i, x, names, sink),
        Fact::Map2(m, i, x, j) => put_map2(b"map2 (", m, i, x, j, names, sink),
    }
}

// A formula between two texts.
#[tactic(auto, using(esc_io::proofs::PuttingLemmas::putting))]
fn put_formula_between<K: Sink>(
    before: &[u8],
    formula: &Formula,
    behind: &[u8],
    names: &Names,
    sink: &mut K,
) -> Result<(), Failed>
    ensures { Delivers K.written K.faults sink.old sink.new result
        (before.now ++ (formula_text names.now formula.now ++ behind.now)) }
{
    put_all(sink, before)?;
    put_formula(formula, names, sink)?;
    put_all(sink, behind)
}

#[tactic(auto, unfolding(crate::specs::LogText::formula_end))]
fn put_formula_end<K: Sink>(formula: &Formula, names: &Names, sink: &mut K) -> Result<(), Failed>
    ensures { Delivers K.written K.faults sink.old sink.new result
        (formula_end names.now formula.now) }
{
    put_formula_between(b": ", formula, b"\n", names, sink)
}

#[tactic(auto, unfolding(crate::specs::LogText::margin))]
fn put_margin<K: Sink>(sink: &mut K) -> Result<(), Failed>
    ensures { Delivers K.written K.faults sink.old sink.new result margin }
{
    put_all(sink, b"  ")
}

fn put_entry<K: Sink>(
    place: usize,
    fact: &Fact,
    formula: &Formula,
    names: &Names,
    sink: &mut K,
) -> Result<(), Failed>
    ensures { Delivers K.written K.faults sink.old sink.new result
        (entry_text names.now (entry place fact.now formula.now)) }
{
    put_margin(sink)?;
    put_number(place as u64, sink)?;
    put_blank(sink)?;
    put_fact(fact, names, sink)?;
    put_formula_end(formula, names, sink)
}

fn put_entries<K: Sink>(
    facts: &[Fact],
    formulas: &[Formula],
    names: &Names,
    sink: &mut K,
) -> Result<(), Failed>
    requires { length formulas.now ≡ length facts.now }
    ensures { Delivers K.written K.faults sink.old sink.new result
        (entries_text names.now facts.now formulas.now) }
{
    'facts: for (place, fact) in facts.iter().enumerate() {
        put_entry(place, fact, &formulas[place], names, sink)?;
    }
    Ok(())
}

#[tactic(auto, unfolding(crate::specs::LogText::log_opening))]
fn put_opening<K: Sink>(sink: &mut K) -> Result<(), Failed>
    ensures { Delivers K.written K.faults sink.old sink.new result log_opening }
{
    put_all(sink, b"Facts:\n")
}

/// Puts the facts of a log, each on a line.
#[tactic(auto, using(esc_io::proofs::PuttingLemmas::putting))]
pub fn put_log<K: Sink>(
    facts: &[Fact],
    formulas: &[Formula],
    names: &Names,
    sink: &mut K,
) -> Result<(), Failed>
    requires { length formulas.now ≡ length facts.now }
    ensures { Delivers K.written K.faults sink.old sink.new result
        (log_text names.now facts.now formulas.now) }
{
    put_opening(sink)?;
    put_entries(facts, formulas, names, sink)
}
