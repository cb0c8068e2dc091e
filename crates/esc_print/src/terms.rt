//! Terms. A depth is the number of variables that are bound outside.

ghost use Rattle.std.specs.Prelude.{◌≡◌, ◌++◌, decimal};
ghost use Rattle.esc_io.specs.Putting.{Delivers};
ghost use Rattle.esc_print.specs.Printing.{Prints};
ghost use Rattle.esc_print.specs.Terms.{applied_text, blank, bound_text, closing};
ghost use Rattle.esc_print.specs.Terms.{deeper as depth_under};
ghost use Rattle.esc_print.specs.Terms.{head_text, opening, spaced, term_text, variable_text};

use crate::printer::Printer;
use esc_io::{Failed, Sink};
use esc_names::Names;
use esc_term::{Head, Term};

// A variable that is bound at this depth or further in is printed without a number.
const PRINTED_DEPTHS: u128 = 0x1_0000_0000_0000_0000;

/// The depth under so many more variables.
pub(crate) fn deeper(depth: u128, count: u64) -> u128
    ensures { result ≡ depth_under depth count }
{
    depth.saturating_add(u128::from(count))
}

impl<K: Sink> Printer<'_, K> {
    // A number behind a sign.
    fn put_numbered(&mut self, sign: &[u8], number: u64) -> Result<(), Failed>
        ensures { Prints K.written K.faults self.old self.new result
            (sign.now ++ decimal number) }
    {
        self.put_text(sign)?;
        self.put_number(number)
    }

    // A number behind a sign, and one behind a point.
    fn put_numbers(
        &mut self,
        sign: &[u8],
        number: u64,
        point: &[u8],
        index: u64,
    ) -> Result<(), Failed>
        ensures { Prints K.written K.faults self.old self.new result
            (sign.now ++ (decimal number ++ (point.now ++ decimal index))) }
    {
        self.put_text(sign)?;
        self.put_number(number)?;
        self.put_numbered(point, index)
    }

    // The variable that is bound at a depth.
    pub(crate) fn put_bound(&mut self, depth: u128) -> Result<(), Failed>
        ensures { Prints K.written K.faults self.old self.new result (bound_text depth) }
    {
        if depth < PRINTED_DEPTHS {
            self.put_numbered(b"@v.", depth as u64)
        } else {
            self.put_text(b"@v")
        }
    }

    fn put_variable(&mut self, place: u64, depth: u128) -> Result<(), Failed>
        ensures { Prints K.written K.faults self.old self.new result (variable_text depth place) }
    {
        let place = u128::from(place);
        if place < depth {
            self.put_bound(depth - 1 - place)
        } else {
            self.put_text(b"@v")
        }
    }

    fn put_head(&mut self, head: Head) -> Result<(), Failed>
        ensures { Prints K.written K.faults self.old self.new result
            (head_text self.old.names.now head) }
    {
        match head {
            Head::Name(name) => self.put_name(name),
            Head::Skolem(number, index) => self.put_numbers(b"@sk.", number, b".", index),
            Head::Add => self.put_text(b"+"),
            Head::Sub => self.put_text(b"-"),
            Head::Mul => self.put_text(b"*"),
        }
    }

    // A term that stands at a depth.
    #[cycle(put_term)]
    #[tactic(auto, using(crate::proofs::TermLevels::term_levels))]
    pub(crate) fn put_term_at(&mut self, term: &Term, depth: u128) -> Result<(), Failed>
        ensures { Prints K.written K.faults self.old self.new result
            (term_text self.old.names.now depth term.now) }
    {
        match term {
            Term::Num(n) => self.put_numeral(*n),
            Term::Var(place) => self.put_variable(*place, depth),
            Term::App(head, args) => self.put_application(*head, args.as_slice(), depth),
        }
    }

    #[cycle(put_term)]
    fn put_application(&mut self, head: Head, args: &[Term], depth: u128) -> Result<(), Failed>
        ensures { Prints K.written K.faults self.old self.new result
            (applied_text (head_text self.old.names.now head)
            (term_text self.old.names.now depth) args.now) }
    {
        if args.is_empty() {
            self.put_head(head)
        } else {
            self.put_applied(head, args, depth)
        }
    }

    #[cycle(put_term)]
    fn put_applied(&mut self, head: Head, args: &[Term], depth: u128) -> Result<(), Failed>
        ensures { Prints K.written K.faults self.old self.new result
            (opening ++ (head_text self.old.names.now head
            ++ (spaced (term_text self.old.names.now depth) args.now ++ closing))) }
    {
        self.put_opening()?;
        self.put_head(head)?;
        self.put_to_end(args, depth)
    }

    // Each of the terms after a blank, and the end of their list.
    #[cycle(put_term)]
    fn put_to_end(&mut self, terms: &[Term], depth: u128) -> Result<(), Failed>
        ensures { Prints K.written K.faults self.old self.new result
            (spaced (term_text self.old.names.now depth) terms.now ++ closing) }
    {
        self.put_spaced_terms(terms, depth)?;
        self.put_closing()
    }

    #[cycle(put_term)]
    fn put_spaced_terms(&mut self, terms: &[Term], depth: u128) -> Result<(), Failed>
        ensures { Prints K.written K.faults self.old self.new result
            (spaced (term_text self.old.names.now depth) terms.now) }
    {
        'terms: for term in terms {
            self.put_next_term(term, depth)?;
        }
        Ok(())
    }

    // A term after a blank.
    #[cycle(put_term)]
    pub(crate) fn put_next_term(&mut self, term: &Term, depth: u128) -> Result<(), Failed>
        ensures { Prints K.written K.faults self.old self.new result
            (blank ++ term_text self.old.names.now depth term.now) }
    {
        self.put_blank()?;
        self.put_term_at(term, depth)
    }

    // A term after a blank, and the end of the list in which it is last.
    pub(crate) fn put_last_term(&mut self, term: &Term, depth: u128) -> Result<(), Failed>
        ensures { Prints K.written K.faults self.old self.new result
            ((blank ++ term_text self.old.names.now depth term.now) ++ closing) }
    {
        self.put_next_term(term, depth)?;
        self.put_closing()
    }

    // A list of terms behind its word.
    pub(crate) fn put_terms(
        &mut self,
        word: &[u8],
        terms: &[Term],
        depth: u128,
    ) -> Result<(), Failed>
        ensures { Prints K.written K.faults self.old self.new result
            (word.now ++ (spaced (term_text self.old.names.now depth) terms.now ++ closing)) }
    {
        self.put_text(word)?;
        self.put_to_end(terms, depth)
    }
}

/// Puts a term that stands outside all quantifiers.
pub fn put_term<K: Sink>(value: &Term, names: &Names, sink: &mut K) -> Result<(), Failed>
    ensures { Delivers K.written K.faults sink.old sink.new result
        (term_text names.now 0 value.now) }
{
    Printer::new(names, sink).put_term_at(value, 0)
}
