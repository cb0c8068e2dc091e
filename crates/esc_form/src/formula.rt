//! Formulas.

ghost use Rattle.std.specs.Prelude.{◌≡◌, ◌≤◌, length, map};
ghost use Rattle.esc_read.specs.Reading.{ReadsIn, each};
ghost use Rattle.esc_read.specs.Terms.{application, name_term, term};
ghost use Rattle.esc_read.specs.Tokens.{bare_token};
ghost use Rattle.esc_form.specs.Forms.{bare_form};
ghost use Rattle.esc_form.specs.Patterns.{all_notes, made};
ghost use Rattle.esc_form.specs.Formulas.{bare_formula_by, distinction, formula, holds, junction};
ghost use Rattle.esc_form.specs.Formulas.{labelling_of, middle, negation, note_of_part, part_of};
ghost use Rattle.esc_form.specs.Formulas.{quantifier, relation_of};

use crate::build::{bound, built, exhausted, holds, joined, labelled, not, related};
use crate::form::{BareForm, Form, bare_form, form_of, note_of};
use crate::notes::Notes;
use crate::reader::FormReader;
use esc_names::{Binder, Join, Labelling, Note, Relation};
use esc_read::{FormKind, FormStop, args_of, place_of, refusal, text_of};
use esc_sexp::Sexp;
use esc_term::{Formula, Formulas, with_room};

impl<'e> FormReader<'e> {
    /// A predicate without arguments, or a variable, as a formula.
    fn read_name(&mut self, place: u64, text: &[u8]) -> Result<Formula, FormStop>
        ensures { ReadsIn self.old.terms self.new.terms result
            (made holds (name_term place text.now)) }
    {
        let term = self.terms.read_name_term(place, text)?;
        Ok(holds(self.terms.alloc(), term))
    }

    fn read_bare(&mut self, place: u64, text: &[u8]) -> Result<Formula, FormStop>
        ensures { ReadsIn self.old.terms self.new.terms result
            (bare_formula_by (bare_form (bare_token text.now)) place text.now) }
    {
        match bare_form(self.terms.bare_token(text)) {
            BareForm::Predicate => self.read_name(place, text),
            BareForm::True => Ok(Formula::True),
            BareForm::False => Ok(Formula::False),
            BareForm::Other => Err(refusal(FormKind::NotAFormula, place)),
        }
    }

    /// The formula that an expression is.
    #[cycle(read_formula)]
    #[tactic(auto, using(crate::proofs::FormulaLemmas::formula_levels))]
    pub(crate) fn read_formula(&mut self, sexp: &'e Sexp) -> Result<Formula, FormStop>
        ensures { ReadsIn self.old.terms self.new.terms result (formula sexp.now) }
    {
        match sexp {
            Sexp::Bare(place, text) => self.read_bare(*place, text.as_slice()),
            Sexp::Barred(place, text) => self.read_name(*place, text.as_slice()),
            Sexp::List(place, items) => {
                let [head, parts @ ..] = items.as_slice() else {
                    return Err(refusal(FormKind::EmptyList, *place));
                };
                let place = *place;
                match form_of(self.terms.token_of(head)) {
                    Form::Predicate => self.read_predicate(place_of(head), text_of(head), parts),
                    Form::And => self.read_and(parts),
                    Form::Or => self.read_or(parts),
                    Form::Not => self.read_negation(place, parts),
                    Form::Join(join) => self.read_junction(join, place, parts),
                    Form::Bind(binder) => self.read_quantifier(binder, place, parts),
                    Form::Relate(relation) => self.read_relation(relation, place, parts),
                    Form::Distinct => self.read_distinction(place, parts),
                    Form::Label(labelling) => self.read_labelling(labelling, place, parts),
                    Form::Misplaced => Err(refusal(FormKind::MisplacedPattern, place_of(head))),
                    Form::Other => Err(refusal(FormKind::NotAFormula, place_of(head))),
                }
            }
        }
    }

    /// A predicate at its arguments.
    fn read_predicate(
        &mut self,
        place: u64,
        text: &[u8],
        args: &[Sexp],
    ) -> Result<Formula, FormStop>
        ensures { ReadsIn self.old.terms self.new.terms result
            (made holds (application place text.now (map term args.now))) }
    {
        let term = self.terms.read_application(place, text, args)?;
        Ok(holds(self.terms.alloc(), term))
    }

    #[cycle(read_formula)]
    fn read_and(&mut self, parts: &'e [Sexp]) -> Result<Formula, FormStop>
        ensures { ReadsIn self.old.terms self.new.terms result
            (made Formula.And (each (map formula parts.now))) }
    {
        let parts = self.read_formulas(parts)?;
        Ok(Formula::And(parts))
    }

    #[cycle(read_formula)]
    fn read_or(&mut self, parts: &'e [Sexp]) -> Result<Formula, FormStop>
        ensures { ReadsIn self.old.terms self.new.terms result
            (made Formula.Or (each (map formula parts.now))) }
    {
        let parts = self.read_formulas(parts)?;
        Ok(Formula::Or(parts))
    }

    /// Formulas, from the front.
    #[cycle(read_formula)]
    pub(crate) fn read_formulas(&mut self, parts: &'e [Sexp]) -> Result<Formulas, FormStop>
        ensures { ReadsIn self.old.terms self.new.terms result (each (map formula parts.now)) }
    {
        let mut formulas = with_room(self.terms.alloc(), parts.len()).map_err(exhausted)?;
        'parts: for part in parts {
            let formula = self.read_formula(part)?;
            formulas.push(formula).map_err(exhausted)?;
        }
        Ok(formulas)
    }

    #[cycle(read_formula)]
    fn read_negation(&mut self, place: u64, parts: &'e [Sexp]) -> Result<Formula, FormStop>
        ensures { ReadsIn self.old.terms self.new.terms result
            (negation place (map part_of parts.now)) }
    {
        if parts.len() != 1 {
            return Err(refusal(FormKind::WrongCount, place));
        }
        let part = self.read_formula(&parts[0])?;
        built(not(self.terms.alloc(), part))
    }

    #[cycle(read_formula)]
    fn read_junction(
        &mut self,
        join: Join,
        place: u64,
        parts: &'e [Sexp],
    ) -> Result<Formula, FormStop>
        ensures { ReadsIn self.old.terms self.new.terms result
            (junction join place (map part_of parts.now)) }
    {
        if parts.len() != 2 {
            return Err(refusal(FormKind::WrongCount, place));
        }
        let left = self.read_formula(&parts[0])?;
        let right = match self.read_formula(&parts[1]) {
            Ok(right) => right,
            Err(stop) => {
                // A call, since the proof would take its forms apart at the end of the scope.
                drop(left);
                return Err(stop);
            }
        };
        built(joined(self.terms.alloc(), join, left, right))
    }

    fn read_relation(
        &mut self,
        relation: Relation,
        place: u64,
        parts: &[Sexp],
    ) -> Result<Formula, FormStop>
        ensures { ReadsIn self.old.terms self.new.terms result
            (relation_of relation place parts.now) }
    {
        if parts.len() != 2 {
            return Err(refusal(FormKind::WrongCount, place));
        }
        let left = self.terms.read_term(&parts[0])?;
        let right = self.terms.read_term(&parts[1])?;
        built(related(self.terms.alloc(), relation, left, right))
    }

    fn read_distinction(&mut self, place: u64, parts: &[Sexp]) -> Result<Formula, FormStop>
        ensures { ReadsIn self.old.terms self.new.terms result (distinction place parts.now) }
    {
        if parts.len() == 0 {
            return Err(refusal(FormKind::WrongCount, place));
        }
        let terms = self.terms.read_terms(parts)?;
        Ok(Formula::Distinct(terms))
    }

    #[cycle(read_formula)]
    fn read_labelling(
        &mut self,
        labelling: Labelling,
        place: u64,
        parts: &'e [Sexp],
    ) -> Result<Formula, FormStop>
        ensures { ReadsIn self.old.terms self.new.terms result
            (labelling_of labelling place (map part_of parts.now)) }
    {
        if parts.len() != 2 {
            return Err(refusal(FormKind::WrongCount, place));
        }
        let name = self.terms.read_label(&parts[0])?;
        let part = self.read_formula(&parts[1])?;
        built(labelled(self.terms.alloc(), labelling, name, part))
    }

    #[cycle(read_formula)]
    fn read_quantifier(
        &mut self,
        binder: Binder,
        place: u64,
        parts: &'e [Sexp],
    ) -> Result<Formula, FormStop>
        ensures { ReadsIn self.old.terms self.new.terms result
            (quantifier binder place (map part_of parts.now)) }
    {
        let [list, .., body] = parts else {
            return Err(refusal(FormKind::WrongCount, place));
        };
        let count = self.terms.read_variables(list)?;
        let notes = self.read_notes(place, parts)?;
        let body = self.read_formula(body)?;
        self.terms.leave(count);
        built(bound(self.terms.alloc(), binder, count, notes, body))
    }

    /// The notes of a quantifier: all its parts but the first and the last.
    #[cycle(read_formula)]
    fn read_notes(&mut self, place: u64, parts: &'e [Sexp]) -> Result<Notes, FormStop>
        requires { 2 ≤ length parts.now }
        ensures { ReadsIn self.old.terms self.new.terms result
            (made all_notes (each (map (note_of_part place) (middle parts.now)))) }
    {
        let mut notes = Notes::new(self.terms.alloc());
        'parts: for at in 1..parts.len() - 1 {
            let note = self.read_note(place, &parts[at])?;
            notes.add(note).map_err(exhausted)?;
        }
        Ok(notes)
    }

    #[cycle(read_formula)]
    fn read_note(&mut self, place: u64, part: &'e Sexp) -> Result<Notes, FormStop>
        ensures { ReadsIn self.old.terms self.new.terms result (note_of_part place part.now) }
    {
        match note_of(self.terms.head_of(part)) {
            Some(Note::Patterns) => self.read_pattern_note(args_of(part)),
            Some(Note::Exempt) => self.read_exempt_note(args_of(part)),
            Some(Note::Id) => Ok(Notes::new(self.terms.alloc())),
            None => {
                drop(self.read_formula(part)?);
                Err(refusal(FormKind::WrongCount, place))
            }
        }
    }
}
