//! Lists in parentheses, with single blanks between what stands in them.

ghost use Rattle.std.specs.Prelude.{◌++◌};
ghost use Rattle.esc_io.specs.Putting.{Delivers};
ghost use Rattle.esc_print.specs.Names.{name_text};
ghost use Rattle.esc_print.specs.Terms.{blank, closing, opening, spaced, term_text};
ghost use Rattle.esc_report.specs.Listed.{joined, listed, terms_text};

use esc_io::{Failed, Sink, put_all};
use esc_names::Names;
use esc_print::{put_name, put_term};
use esc_term::{Sym, Term};

#[tactic(auto, unfolding(esc_print::specs::Terms::blank))]
pub fn put_blank<K: Sink>(sink: &mut K) -> Result<(), Failed>
    ensures { Delivers K.written K.faults sink.old sink.new result blank }
{
    put_all(sink, b" ")
}

#[tactic(auto, unfolding(esc_print::specs::Terms::opening))]
fn put_opening<K: Sink>(sink: &mut K) -> Result<(), Failed>
    ensures { Delivers K.written K.faults sink.old sink.new result opening }
{
    put_all(sink, b"(")
}

#[tactic(auto, unfolding(esc_print::specs::Terms::closing))]
pub fn put_closing<K: Sink>(sink: &mut K) -> Result<(), Failed>
    ensures { Delivers K.written K.faults sink.old sink.new result closing }
{
    put_all(sink, b")")
}

// ---- terms

/// Puts a term behind a blank.
#[tactic(auto, using(esc_io::proofs::PuttingLemmas::putting))]
pub fn put_next_term<K: Sink>(term: &Term, names: &Names, sink: &mut K) -> Result<(), Failed>
    ensures { Delivers K.written K.faults sink.old sink.new result
        (blank ++ term_text names.now 0 term.now) }
{
    put_blank(sink)?;
    put_term(term, names, sink)
}

fn put_next_terms<K: Sink>(terms: &[Term], names: &Names, sink: &mut K) -> Result<(), Failed>
    ensures { Delivers K.written K.faults sink.old sink.new result
        (spaced (term_text names.now 0) terms.now) }
{
    'terms: for term in terms {
        put_next_term(term, names, sink)?;
    }
    Ok(())
}

#[tactic(auto, using(esc_io::proofs::PuttingLemmas::putting))]
fn put_first_term<K: Sink>(
    first: &Term,
    rest: &[Term],
    names: &Names,
    sink: &mut K,
) -> Result<(), Failed>
    ensures { Delivers K.written K.faults sink.old sink.new result
        (term_text names.now 0 first.now ++ spaced (term_text names.now 0) rest.now) }
{
    put_term(first, names, sink)?;
    put_next_terms(rest, names, sink)
}

fn put_joined_terms<K: Sink>(terms: &[Term], names: &Names, sink: &mut K) -> Result<(), Failed>
    ensures { Delivers K.written K.faults sink.old sink.new result
        (joined (term_text names.now 0) terms.now) }
{
    match terms.split_first() {
        Some((first, rest)) => put_first_term(first, rest, names, sink),
        None => Ok(()),
    }
}

/// Puts terms in parentheses.
#[tactic(auto, using(esc_io::proofs::PuttingLemmas::putting))]
pub fn put_terms<K: Sink>(terms: &[Term], names: &Names, sink: &mut K) -> Result<(), Failed>
    ensures { Delivers K.written K.faults sink.old sink.new result
        (terms_text names.now terms.now) }
{
    put_opening(sink)?;
    put_joined_terms(terms, names, sink)?;
    put_closing(sink)
}

// ---- names

#[tactic(auto, using(esc_io::proofs::PuttingLemmas::putting))]
fn put_next_name<K: Sink>(name: &Sym, names: &Names, sink: &mut K) -> Result<(), Failed>
    ensures { Delivers K.written K.faults sink.old sink.new result
        (blank ++ name_text names.now name.now) }
{
    put_blank(sink)?;
    put_name(*name, names, sink)
}

fn put_next_names<K: Sink>(list: &[Sym], names: &Names, sink: &mut K) -> Result<(), Failed>
    ensures { Delivers K.written K.faults sink.old sink.new result
        (spaced (name_text names.now) list.now) }
{
    'list: for name in list {
        put_next_name(name, names, sink)?;
    }
    Ok(())
}

#[tactic(auto, using(esc_io::proofs::PuttingLemmas::putting))]
fn put_first_name<K: Sink>(
    first: &Sym,
    rest: &[Sym],
    names: &Names,
    sink: &mut K,
) -> Result<(), Failed>
    ensures { Delivers K.written K.faults sink.old sink.new result
        (name_text names.now first.now ++ spaced (name_text names.now) rest.now) }
{
    put_name(*first, names, sink)?;
    put_next_names(rest, names, sink)
}

fn put_joined_names<K: Sink>(list: &[Sym], names: &Names, sink: &mut K) -> Result<(), Failed>
    ensures { Delivers K.written K.faults sink.old sink.new result
        (joined (name_text names.now) list.now) }
{
    match list.split_first() {
        Some((first, rest)) => put_first_name(first, rest, names, sink),
        None => Ok(()),
    }
}

/// Puts names in parentheses.
#[tactic(auto, using(esc_io::proofs::PuttingLemmas::putting))]
pub fn put_names<K: Sink>(list: &[Sym], names: &Names, sink: &mut K) -> Result<(), Failed>
    ensures { Delivers K.written K.faults sink.old sink.new result
        (listed (name_text names.now) list.now) }
{
    put_opening(sink)?;
    put_joined_names(list, names, sink)?;
    put_closing(sink)
}
