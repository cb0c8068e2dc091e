//! Formulas, each at the depth where it stands, and as it is or denied.

ghost use Rattle.std.specs.Prelude.{◌≡◌, ◌++◌, not, true, false, codes};
ghost use Rattle.esc_io.specs.Putting.{Delivers};
ghost use Rattle.esc_print.specs.Formulas.{both_text, formula_text, inside_text, literal_text};
ghost use Rattle.esc_print.specs.Formulas.{pair_text, quant_text, text_of};
ghost use Rattle.esc_print.specs.Names.{name_text};
ghost use Rattle.esc_print.specs.Printing.{Prints};
ghost use Rattle.esc_print.specs.Terms.{blank, closing, spaced, term_text};

use crate::printer::Printer;
use crate::terms::deeper;
use esc_io::{Failed, Sink};
use esc_names::Names;
use esc_term::{Formula, Item, Quant, Sym, Term};

impl<K: Sink> Printer<'_, K> {
    // Two terms behind a word.
    fn put_pair(
        &mut self,
        word: &[u8],
        left: &Term,
        right: &Term,
        depth: u128,
    ) -> Result<(), Failed>
        ensures { Prints K.written K.faults self.old self.new result
            (pair_text self.old.names.now word.now depth left.now right.now) }
    {
        self.put_text(word)?;
        self.put_next_term(left, depth)?;
        self.put_last_term(right, depth)
    }

    fn put_next_name(&mut self, name: Sym) -> Result<(), Failed>
        ensures { Prints K.written K.faults self.old self.new result
            (blank ++ name_text self.old.names.now name) }
    {
        self.put_blank()?;
        self.put_name(name)
    }

    #[cycle(put_formula)]
    #[tactic(auto, using(crate::proofs::FormulaLevels::formula_levels))]
    fn put_formula_at(&mut self, formula: &Formula, depth: u128) -> Result<(), Failed>
        ensures { Prints K.written K.faults self.old self.new result
            (text_of self.old.names.now formula.now depth false) }
    {
        match formula {
            Formula::True => self.put_text(b"TRUE"),
            Formula::False => self.put_text(b"FALSE"),
            Formula::And(parts) => self.put_parts(b"(AND", parts.as_slice(), depth),
            Formula::Or(parts) => self.put_parts(b"(OR", parts.as_slice(), depth),
            Formula::Not(part) => self.put_denied_at(part.get(), depth),
            Formula::Implies(left, right) => {
                self.put_first(b"(IMPLIES", left.get(), depth)?;
                self.put_last(right.get(), depth)
            }
            Formula::Iff(left, right) => {
                self.put_first(b"(IFF", left.get(), depth)?;
                self.put_last(right.get(), depth)
            }
            Formula::Forall(quant) => self.put_quantified(b"(FORALL (", quant.get(), depth),
            Formula::Exists(quant) => self.put_quantified(b"(EXISTS (", quant.get(), depth),
            Formula::Eq(left, right) => self.put_pair(b"(EQ", left, right, depth),
            Formula::Less(left, right) => self.put_pair(b"(<", left, right, depth),
            Formula::Distinct(terms) => self.put_terms(b"(DISTINCT", terms.as_slice(), depth),
            Formula::LabelPos(name, part) => {
                self.put_labelled(b"(LBLPOS", *name, part.get(), depth)
            }
            Formula::LabelNeg(name, part) => {
                self.put_labelled(b"(LBLNEG", *name, part.get(), depth)
            }
        }
    }

    // The formula's denial: `NEQ` and `<=` for an equality and an order, else `NOT`.
    #[cycle(put_formula)]
    #[tactic(auto, using(crate::proofs::FormulaLevels::denied_levels))]
    fn put_denied_at(&mut self, formula: &Formula, depth: u128) -> Result<(), Failed>
        ensures { Prints K.written K.faults self.old self.new result
            (text_of self.old.names.now formula.now depth true) }
    {
        match formula {
            Formula::Eq(left, right) => self.put_pair(b"(NEQ", left, right, depth),
            Formula::Less(left, right) => self.put_pair(b"(<=", right, left, depth),
            _ => self.put_behind(b"(NOT", formula, depth),
        }
    }

    #[cycle(put_formula)]
    fn put_behind(&mut self, word: &[u8], formula: &Formula, depth: u128) -> Result<(), Failed>
        ensures { Prints K.written K.faults self.old self.new result
            (word.now ++ ((blank ++ text_of self.old.names.now formula.now depth false)
            ++ closing)) }
    {
        self.put_text(word)?;
        self.put_last(formula, depth)
    }

    // The first of two formulas behind a word.
    #[cycle(put_formula)]
    fn put_first(&mut self, word: &[u8], formula: &Formula, depth: u128) -> Result<(), Failed>
        ensures { Prints K.written K.faults self.old self.new result
            (word.now ++ (blank ++ text_of self.old.names.now formula.now depth false)) }
    {
        self.put_text(word)?;
        self.put_next(formula, depth)
    }

    #[cycle(put_formula)]
    fn put_labelled(
        &mut self,
        word: &[u8],
        name: Sym,
        formula: &Formula,
        depth: u128,
    ) -> Result<(), Failed>
        ensures { Prints K.written K.faults self.old self.new result
            (both_text word.now (name_text self.old.names.now name)
            (text_of self.old.names.now formula.now depth false)) }
    {
        self.put_text(word)?;
        self.put_next_name(name)?;
        self.put_last(formula, depth)
    }

    #[cycle(put_formula)]
    fn put_parts(&mut self, word: &[u8], parts: &[Formula], depth: u128) -> Result<(), Failed>
        ensures { Prints K.written K.faults self.old self.new result
            (word.now ++ (spaced (λ part. text_of self.old.names.now part depth false) parts.now
            ++ closing)) }
    {
        self.put_text(word)?;
        self.put_spaced(parts, depth)?;
        self.put_closing()
    }

    #[cycle(put_formula)]
    fn put_spaced(&mut self, parts: &[Formula], depth: u128) -> Result<(), Failed>
        ensures { Prints K.written K.faults self.old self.new result
            (spaced (λ part. text_of self.old.names.now part depth false) parts.now) }
    {
        'parts: for part in parts {
            self.put_next(part, depth)?;
        }
        Ok(())
    }

    #[cycle(put_formula)]
    fn put_next(&mut self, formula: &Formula, depth: u128) -> Result<(), Failed>
        ensures { Prints K.written K.faults self.old self.new result
            (blank ++ text_of self.old.names.now formula.now depth false) }
    {
        self.put_blank()?;
        self.put_formula_at(formula, depth)
    }

    #[cycle(put_formula)]
    fn put_last(&mut self, formula: &Formula, depth: u128) -> Result<(), Failed>
        ensures { Prints K.written K.faults self.old self.new result
            ((blank ++ text_of self.old.names.now formula.now depth false) ++ closing) }
    {
        self.put_next(formula, depth)?;
        self.put_closing()
    }

    #[cycle(put_formula)]
    fn put_quantified(&mut self, word: &[u8], quant: &Quant, depth: u128) -> Result<(), Failed>
        ensures { Prints K.written K.faults self.old self.new result
            (word.now ++ quant_text self.old.names.now quant.now depth) }
    {
        self.put_text(word)?;
        self.put_quant(quant, depth)
    }

    #[cycle(put_formula)]
    fn put_quant(&mut self, quant: &Quant, depth: u128) -> Result<(), Failed>
        ensures { Prints K.written K.faults self.old self.new result
            (quant_text self.old.names.now quant.now depth) }
    {
        self.put_variables(depth, quant.count)?;
        self.put_closing()?;
        self.put_inside(quant, deeper(depth, quant.count))
    }

    #[cycle(put_formula)]
    fn put_inside(&mut self, quant: &Quant, depth: u128) -> Result<(), Failed>
        ensures { Prints K.written K.faults self.old self.new result
            (inside_text self.old.names.now depth quant.now.patterns quant.now.exempt
            (text_of self.old.names.now quant.now.body depth false)) }
    {
        self.put_patterns(quant.patterns.as_slice(), depth)?;
        self.put_exempt(quant.exempt.as_slice(), depth)?;
        self.put_last(&quant.body, depth)
    }

    /// Puts a literal: the formula, or its denial where it fails.
    pub fn put_literal(&mut self, literal: &Item) -> Result<(), Failed>
        ensures { Prints K.written K.faults self.old self.new result
            (literal_text self.old.names.now literal.now) }
    {
        if literal.positive {
            self.put_formula_at(&literal.formula, 0)
        } else {
            self.put_denied_at(&literal.formula, 0)
        }
    }
}

/// Puts a formula that stands outside all quantifiers.
pub fn put_formula<K: Sink>(value: &Formula, names: &Names, sink: &mut K) -> Result<(), Failed>
    ensures { Delivers K.written K.faults sink.old sink.new result
        (formula_text names.now value.now) }
{
    Printer::new(names, sink).put_formula_at(value, 0)
}

/// Puts a literal: the formula, or its denial where it fails.
pub fn put_literal<K: Sink>(value: &Item, names: &Names, sink: &mut K) -> Result<(), Failed>
    ensures { Delivers K.written K.faults sink.old sink.new result
        (literal_text names.now value.now) }
{
    Printer::new(names, sink).put_literal(value)
}
