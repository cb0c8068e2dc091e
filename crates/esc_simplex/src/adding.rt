//! Unknowns are made, and come into use.
ghost use Rattle.std.specs.Prelude.{◌≡◌, ℕ, [], ◌∷◌, ◌++◌, length, ◌<◌, OnOk, OnErr, IfOk, IfErr, Err, IsTrue, ◌↔◌};
ghost use Rattle.std.specs.List.{All, AllZip, Contains};
ghost use Rattle.esc_linear.specs.Forms.{form as form_by_rules, opaque_form};
ghost use Rattle.esc_linear.specs.Steps.{AllFit, steps};
ghost use Rattle.esc_trail.specs.Undo.{Notes};
ghost use Rattle.esc_simplex.specs.Barred.{AreRowParts, IsBarred};
ghost use Rattle.esc_simplex.specs.Calls.{GapEnds, IsOfTerm, IsOnlyNew, Makes, UnknownEnds};
ghost use Rattle.esc_simplex.specs.MakingInside.{FindsTerm, FormEnds, IsAmong, IsLookedInto, IsUsedAddend};
ghost use Rattle.esc_simplex.specs.Senses.{StandsFor, gap_of, sense_of, term as sense_term};
ghost use Rattle.esc_simplex.specs.SimplexUndo.{AreSame, simplex_undo};
ghost use Rattle.esc_simplex.specs.Steps.{RowStops};
ghost use Rattle.esc_simplex.specs.View.{IsBuiltAt, IsInUse, IsSimplex, sense_in, senses_in};

use crate::entries::is_same;
use crate::made::Made;
use crate::maximising::add_row;
use crate::record::SimplexRec;
use crate::simplex::Simplex;
use crate::stop::Stop;
use esc_frac::Frac;
use esc_linear::{Form, FormJam, Part as Addend, form_of};
use esc_tableau::{Part, Parts, Unknown};
use esc_term::Term;
use esc_trail::{Carries, Trail};
use sqlite_items::Items;
use std::alloc::{AllocError, Global};

impl Simplex {
    /// The unknown of a term that arithmetic looks into: it owns the row of the term's form.
    pub(crate) fn row_unknown<R: Carries<SimplexRec>>(
        &mut self,
        term: &Term,
        form: &Form,
        trail: &mut Trail<R>,
    ) -> Result<Unknown, Stop>
        requires simplex { IsSimplex self.old }
        requires form { form.now ≡ form_by_rules term.now }
        requires fits { AllFit (steps term.now) }
        requires looked_into { IsLookedInto (sense_term term.now) }
        ensures ok { IfOk result (λ u. IsInUse self.new u (sense_term term.now)) }
        ensures parts { OnOk result (All (λ p. (u : ℕ) × IsInUse self.new u (sense_term p.term))
            (form_by_rules term.now).parts) }
        ensures once { IfOk result (IsOnlyNew self.old self.new term.now) }
        ensures ends { UnknownEnds term.now result }
        ensures stop { IfErr result (IsBarred self.new (λ t. t ≡ term.now) (λ g. ⊥)) }
        ensures makes { Makes self.old self.new (IsOfTerm term.now) }
        ensures restricted { self.new.restricted ≡ self.old.restricted }
        ensures simplex { IsSimplex self.new }
        ensures undo { Notes simplex_undo R.carried trail.old.records trail.new.records self.old
            self.new }
    {
        let Ok(parts) = self.addends(form.parts.as_slice(), trail) else {
            return Err(Stop::Memory);
        };
        let Ok(copy) = term.copy(self.alloc) else {
            return Err(Stop::Memory);
        };
        self.add(Made::Term(copy), &parts, form.constant, trail)
    }

    // The parts of a row: the unknown of each term, which comes into use, with its factor.
    fn addends<R: Carries<SimplexRec>>(
        &mut self,
        parts: &[Addend],
        trail: &mut Trail<R>,
    ) -> Result<Parts, AllocError>
        requires simplex { IsSimplex self.old }
        requires opaque { All (λ p. form_by_rules p.term ≡ opaque_form p.term) parts.now }
        ensures ok { IfOk result (λ ps. AllZip (IsUsedAddend self.new) ps parts.now) }
        ensures makes { Makes self.old self.new (IsAmong parts.now) }
        ensures restricted { self.new.restricted ≡ self.old.restricted }
        ensures simplex { IsSimplex self.new }
        ensures undo { Notes simplex_undo R.carried trail.old.records trail.new.records self.old
            self.new }
    {
        let mut addends = Items::new(self.alloc);
        'parts: for part in parts {
            let unknown = self.opaque_unknown(&part.term, trail)?;
            addends.push(Part {
                unknown,
                factor: part.factor,
            })?;
        }
        Ok(addends)
    }

    /// The unknown of a term that arithmetic does not look into, which comes into use: the one that
    /// it has, or one that owns a new column.
    pub(crate) fn opaque_unknown<R: Carries<SimplexRec>>(
        &mut self,
        term: &Term,
        trail: &mut Trail<R>,
    ) -> Result<Unknown, AllocError>
        requires simplex { IsSimplex self.old }
        requires opaque { form_by_rules term.now ≡ opaque_form term.now }
        ensures ok { IfOk result (λ u. IsInUse self.new u (sense_term term.now)) }
        ensures makes { Makes self.old self.new (λ s. s ≡ sense_term term.now) }
        ensures restricted { self.new.restricted ≡ self.old.restricted }
        ensures simplex { IsSimplex self.new }
        ensures undo { Notes simplex_undo R.carried trail.old.records trail.new.records self.old
            self.new }
    {
        let unknown = self.column_for(term)?;
        self.use_again(unknown, trail)?;
        Ok(unknown)
    }

    // The unknown that the term has, or that of a new column.
    fn column_for(&mut self, term: &Term) -> Result<Unknown, AllocError>
        requires simplex { IsSimplex self.old }
        requires opaque { form_by_rules term.now ≡ opaque_form term.now }
        ensures stands { IfOk result (λ u. StandsFor (senses_in self.new) u
            (sense_term term.now)) }
        ensures makes { Makes self.old self.new (λ s. s ≡ sense_term term.now) }
        ensures rest { self.new ≡ record self.old {
          tableau = self.new.tableau;
          made
              = self.new.made;
        } }
        ensures simplex { IsSimplex self.new }
        ensures same { AreSame self.new self.old }
    {
        match self.find(term) {
            Some(unknown) => Ok(unknown),
            None => self.make_column(term),
        }
    }

    // An unknown that was made for the term.
    fn find(&self, term: &Term) -> Option<Unknown>
        ensures { FindsTerm self.now.made term.now result }
    {
        self.made.unknown_for(term)
    }

    // A column whose unknown is not in use yet.
    fn make_column(&mut self, term: &Term) -> Result<Unknown, AllocError>
        requires simplex { IsSimplex self.old }
        requires opaque { form_by_rules term.now ≡ opaque_form term.now }
        requires new { (u : ℕ) → StandsFor (senses_in self.old) u (sense_term term.now) → ⊥ }
        ensures stands { IfOk result (λ u. StandsFor (senses_in self.new) u
            (sense_term term.now)) }
        ensures makes { Makes self.old self.new (λ s. s ≡ sense_term term.now) }
        ensures rest { self.new ≡ record self.old {
          tableau = self.new.tableau;
          made
              = self.new.made;
        } }
        ensures simplex { IsSimplex self.new }
        ensures same { AreSame self.new self.old }
    {
        let copy = term.copy(self.alloc)?;
        self.made.push(Made::Term(copy))?;
        match self.tableau.add_column() {
            Ok(unknown) => Ok(unknown),
            Err(AllocError) => {
                let _ = self.made.pop();
                Err(AllocError)
            }
        }
    }

    // Brings an unknown into use, where it is not.
    fn use_again<R: Carries<SimplexRec>>(
        &mut self,
        u: Unknown,
        trail: &mut Trail<R>,
    ) -> Result<(), AllocError>
        requires simplex { IsSimplex self.old }
        requires there { u < length self.old.made }
        ensures ok { OnOk result (Contains self.new.unknowns u) }
        ensures makes { Makes self.old self.new (λ s. s ≡ sense_in self.old u) }
        ensures rest { self.new ≡ record self.old { unknowns = self.new.unknowns } }
        ensures simplex { IsSimplex self.new }
        ensures undo { Notes simplex_undo R.carried trail.old.records trail.new.records self.old
            self.new }
    {
        if self.is_used(u) {
            return Ok(());
        }
        self.list(u, trail)
    }

    // Whether the unknown is in use.
    fn is_used(&self, u: Unknown) -> bool
        ensures { IsTrue result ↔ Contains self.now.unknowns u }
    {
        self.unknowns.contains(u)
    }

    /// An unknown in use for the entry, which owns the row of these parts.
    pub(crate) fn add<R: Carries<SimplexRec>>(
        &mut self,
        entry: Made,
        parts: &Parts,
        constant: Frac,
        trail: &mut Trail<R>,
    ) -> Result<Unknown, Stop>
        requires simplex { IsSimplex self.old }
        requires parts { AreRowParts (senses_in self.old) (sense_of self.old.made entry) parts.now
            constant }
        requires built { IsBuiltAt self.old.made (length self.old.made) entry }
        requires looked_into { IsLookedInto (sense_of self.old.made entry) }
        ensures ok { IfOk result (λ w. IsInUse self.new w (sense_of self.old.made entry)) }
        ensures new { IfOk result (λ w. w ≡ length self.old.made) }
        ensures listed { IfOk result (λ w. self.new.unknowns ≡ self.old.unknowns ++ w ∷ []) }
        ensures ends { GapEnds result }
        ensures stop { IfErr result (IsBarred self.new
            (λ t. sense_of self.old.made entry ≡ sense_term t)
            (λ g. sense_of self.old.made entry ≡ gap_of g)) }
        ensures makes { Makes self.old self.new (λ s. s ≡ sense_of self.old.made entry) }
        ensures restricted { self.new.restricted ≡ self.old.restricted }
        ensures simplex { IsSimplex self.new }
        ensures undo { Notes simplex_undo R.carried trail.old.records trail.new.records self.old
            self.new }
    {
        let unknown = self.make_row(entry, parts, constant)?;
        match self.list(unknown, trail) {
            Ok(()) => Ok(unknown),
            Err(AllocError) => Err(Stop::Memory),
        }
    }

    // A row whose unknown is not in use yet.
    fn make_row(&mut self, entry: Made, parts: &Parts, constant: Frac) -> Result<Unknown, Stop>
        requires simplex { IsSimplex self.old }
        requires parts { AreRowParts (senses_in self.old) (sense_of self.old.made entry) parts.now
            constant }
        requires built { IsBuiltAt self.old.made (length self.old.made) entry }
        requires looked_into { IsLookedInto (sense_of self.old.made entry) }
        ensures unknown { IfOk result (λ w. w ≡ length self.old.made) }
        ensures ok { OnOk result (self.new.made ≡ self.old.made ++ entry ∷ []) }
        ensures err { OnErr result (self.new ≡ self.old) }
        ensures rest { self.new ≡ record self.old {
          tableau = self.new.tableau;
          made
              = self.new.made;
        } }
        ensures simplex { IsSimplex self.new }
        ensures same { AreSame self.new self.old }
        ensures stops { IfErr result (RowStops self.old.tableau parts.now constant) }
    {
        let Ok(()) = self.made.push(entry) else {
            return Err(Stop::Memory);
        };
        match add_row(&mut self.tableau, parts, constant, self.limit) {
            Ok(unknown) => Ok(unknown),
            Err(stop) => {
                let _ = self.made.pop();
                Err(stop)
            }
        }
    }

    // Brings an unknown into use.
    pub(crate) fn list<R: Carries<SimplexRec>>(
        &mut self,
        u: Unknown,
        trail: &mut Trail<R>,
    ) -> Result<(), AllocError>
        requires simplex { IsSimplex self.old }
        requires there { u < length self.old.made }
        requires new { Contains self.old.unknowns u → ⊥ }
        ensures ok { OnOk result (self.new ≡ record self.old {
          unknowns = self.old.unknowns ++ u
              ∷ [];
        }) }
        ensures err { OnErr result (self.new ≡ self.old) }
        ensures simplex { IsSimplex self.new }
        ensures undo { Notes simplex_undo R.carried trail.old.records trail.new.records self.old
            self.new }
    {
        trail.reserve(1)?;
        self.unknowns.push(u)?;
        trail.note(R::carry(SimplexRec::Listed));
        Ok(())
    }
}

/// The form of the term, where its steps fit.
pub fn form_or_stop(term: &Term, alloc: Global) -> Result<Form, Stop>
    ensures { FormEnds term.now result }
{
    match form_of(alloc, term) {
        Ok(form) => Ok(form),
        Err(FormJam::Spill) => Err(spilled(term, alloc)),
        Err(FormJam::Memory) => Err(Stop::Memory),
    }
}

// The stop at a step of the term's form.
fn spilled(term: &Term, alloc: Global) -> Stop
    requires { AllFit (steps term.now) → ⊥ }
    ensures { FormEnds term.now (Err result) }
{
    match term.copy(alloc) {
        Ok(copy) => Stop::Form(copy),
        Err(AllocError) => Stop::Memory,
    }
}

/// Whether the form is that of a term that arithmetic does not look into.
pub fn is_opaque(form: &Form, term: &Term) -> bool
    requires { form.now ≡ form_by_rules term.now }
    ensures { IsTrue result ↔ (form_by_rules term.now ≡ opaque_form term.now) }
{
    match form.parts.get(0) {
        Some(part) => is_same(&part.term, term),
        None => false,
    }
}
