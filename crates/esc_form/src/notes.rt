//! The notes of a quantifier.

ghost use Rattle.std.specs.Prelude.{◌≡◌, [], ◌∷◌, map, IfOk, OnOk};
ghost use Rattle.esc_read.specs.Reading.{ReadsIn, each};
ghost use Rattle.esc_read.specs.Terms.{term};
ghost use Rattle.esc_form.specs.Patterns.{alone, both_notes, made, only_exempt, only_patterns};
ghost use Rattle.esc_form.specs.Patterns.{pattern, several};

use crate::build::exhausted;
use crate::form::is_multi;
use crate::reader::FormReader;
use esc_read::{FormKind, FormStop, args_of, place_of, refusal};
use esc_sexp::Sexp;
use esc_term::{Patterns, Term, Terms, with_room};
use sqlite_items::Items;
use std::alloc::{AllocError, Global};

/// The patterns of a quantifier, and the terms that no inferred trigger takes.
#[derive(Drop)]
pub struct Notes {
    pub patterns: Patterns,
    pub exempt: Terms,
}

impl Notes {
    pub(crate) fn new(alloc: Global) -> Notes
        ensures { result ≡ record { patterns = []; exempt = [] } }
    {
        Notes {
            patterns: Items::new(alloc),
            exempt: Items::new(alloc),
        }
    }

    /// Adds what a further note says.
    pub(crate) fn add(&mut self, more: Notes) -> Result<(), AllocError>
        ensures { OnOk result (self.new ≡ both_notes self.old more) }
    {
        let Notes { patterns, exempt } = more;
        self.patterns.append(patterns)?;
        self.exempt.append(exempt)
    }
}

impl<'e> FormReader<'e> {
    /// The terms of a pattern.
    fn read_pattern(&mut self, sexp: &Sexp) -> Result<Terms, FormStop>
        ensures { ReadsIn self.old.terms self.new.terms result (pattern sexp.now) }
    {
        if !is_multi(self.terms.head_of(sexp)) {
            return self.read_one(sexp);
        }
        self.read_several(place_of(sexp), args_of(sexp))
    }

    fn read_one(&mut self, sexp: &Sexp) -> Result<Terms, FormStop>
        ensures { ReadsIn self.old.terms self.new.terms result (made alone (term sexp.now)) }
    {
        let term = self.terms.read_term(sexp)?;
        let mut terms = Items::new(self.terms.alloc());
        terms.push(term).map_err(exhausted)?;
        Ok(terms)
    }

    fn read_several(&mut self, place: u64, args: &[Sexp]) -> Result<Terms, FormStop>
        ensures { ReadsIn self.old.terms self.new.terms result (several place args.now) }
    {
        if args.len() == 0 {
            return Err(refusal(FormKind::WrongCount, place));
        }
        self.terms.read_terms(args)
    }

    fn read_patterns(&mut self, parts: &[Sexp]) -> Result<Patterns, FormStop>
        ensures { ReadsIn self.old.terms self.new.terms result (each (map pattern parts.now)) }
    {
        let mut patterns = with_room(self.terms.alloc(), parts.len()).map_err(exhausted)?;
        'parts: for part in parts {
            let pattern = self.read_pattern(part)?;
            patterns.push(pattern).map_err(exhausted)?;
        }
        Ok(patterns)
    }

    /// The note PATS of these patterns.
    pub(crate) fn read_pattern_note(&mut self, parts: &[Sexp]) -> Result<Notes, FormStop>
        ensures { ReadsIn self.old.terms self.new.terms result
            (made only_patterns (each (map pattern parts.now))) }
    {
        let patterns = self.read_patterns(parts)?;
        Ok(Notes {
            patterns,
            exempt: Items::new(self.terms.alloc()),
        })
    }

    /// The note NOPATS of these terms.
    pub(crate) fn read_exempt_note(&mut self, parts: &[Sexp]) -> Result<Notes, FormStop>
        ensures { ReadsIn self.old.terms self.new.terms result
            (made only_exempt (each (map term parts.now))) }
    {
        let exempt = self.terms.read_terms(parts)?;
        Ok(Notes {
            patterns: Items::new(self.terms.alloc()),
            exempt,
        })
    }
}
