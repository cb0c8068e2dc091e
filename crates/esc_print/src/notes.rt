//! What stands between a quantifier and its body: the variables, the patterns, the exempt terms.

ghost use Rattle.std.specs.Prelude.{◌≡◌, ◌≢◌, ◌++◌, codes, length};
ghost use Rattle.esc_print.specs.Formulas.{note_text, pattern_text, variables_text};
ghost use Rattle.esc_print.specs.Printing.{Prints};
ghost use Rattle.esc_print.specs.Terms.{blank, bound_text, closing, deeper as depth_under};
ghost use Rattle.esc_print.specs.Terms.{spaced, term_text};

use crate::printer::Printer;
use crate::terms::deeper;
use esc_io::{Failed, Sink};
use esc_term::{Term, Terms};

impl<K: Sink> Printer<'_, K> {
    // A variable, behind a blank unless it is the first.
    fn put_next_bound(&mut self, depth: u128) -> Result<(), Failed>
        ensures { Prints K.written K.faults self.old self.new result
            (blank ++ bound_text depth) }
    {
        self.put_blank()?;
        self.put_bound(depth)
    }

    // The variables of a quantifier, so many, that stands at a depth.
    pub(crate) fn put_variables(&mut self, depth: u128, count: u64) -> Result<(), Failed>
        ensures { Prints K.written K.faults self.old self.new result
            (variables_text depth count) }
    {
        if count == 0 {
            return Ok(());
        }
        self.put_bound(depth)?;
        let mut done = 1;
        'variables: while done < count {
            self.put_next_bound(deeper(depth, done))?;
            done += 1;
        }
        Ok(())
    }

    // A pattern: one term, or several in a list.
    fn put_pattern(&mut self, terms: &[Term], depth: u128) -> Result<(), Failed>
        ensures { Prints K.written K.faults self.old self.new result
            (pattern_text self.old.names.now depth terms.now) }
    {
        if terms.len() == 1 {
            self.put_term_at(&terms[0], depth)
        } else {
            self.put_terms(b"(MPAT", terms, depth)
        }
    }

    fn put_next_pattern(&mut self, terms: &[Term], depth: u128) -> Result<(), Failed>
        ensures { Prints K.written K.faults self.old self.new result
            (blank ++ pattern_text self.old.names.now depth terms.now) }
    {
        self.put_blank()?;
        self.put_pattern(terms, depth)
    }

    fn put_spaced_patterns(&mut self, patterns: &[Terms], depth: u128) -> Result<(), Failed>
        ensures { Prints K.written K.faults self.old self.new result
            (spaced (pattern_text self.old.names.now depth) patterns.now) }
    {
        'patterns: for pattern in patterns {
            self.put_next_pattern(pattern.as_slice(), depth)?;
        }
        Ok(())
    }

    fn put_listed_patterns(
        &mut self,
        word: &[u8],
        patterns: &[Terms],
        depth: u128,
    ) -> Result<(), Failed>
        ensures { Prints K.written K.faults self.old self.new result
            (word.now ++ (spaced (pattern_text self.old.names.now depth) patterns.now
            ++ closing)) }
    {
        self.put_text(word)?;
        self.put_spaced_patterns(patterns, depth)?;
        self.put_closing()
    }

    // The patterns of a quantifier, if there are any.
    #[tactic(auto, using(esc_io::proofs::PuttingLemmas::putting))]
    pub(crate) fn put_patterns(&mut self, patterns: &[Terms], depth: u128) -> Result<(), Failed>
        ensures { Prints K.written K.faults self.old self.new result
            (note_text (codes " (PATS") (pattern_text self.old.names.now depth) patterns.now) }
    {
        if patterns.is_empty() {
            return Ok(());
        }
        self.put_listed_patterns(b" (PATS", patterns, depth)
    }

    // The exempt terms of a quantifier, if there are any.
    #[tactic(auto, using(esc_io::proofs::PuttingLemmas::putting))]
    pub(crate) fn put_exempt(&mut self, terms: &[Term], depth: u128) -> Result<(), Failed>
        ensures { Prints K.written K.faults self.old self.new result
            (note_text (codes " (NOPATS") (term_text self.old.names.now depth) terms.now) }
    {
        if terms.is_empty() {
            return Ok(());
        }
        self.put_terms(b" (NOPATS", terms, depth)
    }
}
