ghost use Rattle.std.specs.Prelude.{◌≡◌, ℕ, [], ◌∷◌, ◌++◌, false, length, take, ◌<◌, OnOk, OnErr, IfOk, IfErr, IsTrue, None, ◌↔◌};
ghost use Rattle.esc_frac.specs.Rational.{zero_ℚ, ◌≤ℚ◌};
ghost use Rattle.esc_tableau.specs.Table.{sample, size};
ghost use Rattle.std.specs.List.{All, Contains};
ghost use Rattle.esc_cover.specs.Assignment.{Gap};
ghost use Rattle.esc_linear.specs.Forms.{form};
ghost use Rattle.esc_tableau.specs.Listed.{tabled};
ghost use Rattle.esc_trail.specs.Undo.{Notes};
ghost use Rattle.esc_simplex.specs.Barred.{IsBarred};
ghost use Rattle.esc_simplex.specs.Calls.{AreRowsFor, AtLeastZeroEnds, EqualEnds, EqualRestricts, ExceedShows, GapEnds, IsForTerm, IsOfTerm, IsOnlyNew, KeepsLists, LiftShows, Makes, PartEnds, SampleIsAllowed, UnknownEnds, both_gaps, gap_in};
ghost use Rattle.esc_simplex.specs.MakingInside.{GapRestrictedEnds, GapRestricts};
ghost use Rattle.esc_simplex.specs.Senses.{gap_of, term as sense_term};
ghost use Rattle.esc_simplex.specs.SimplexUndo.{AreSame, simplex_undo};
ghost use Rattle.esc_simplex.specs.View.{IsInUse, IsSimplex, bound_to};

use crate::adding::{form_or_stop, is_opaque};
use crate::bindings::Bindings;
use crate::entries::Entries;
use crate::made::Made;
use crate::maximising::{constant_of, difference, exceeds, lift};
use crate::record::SimplexRec;
use crate::stop::{Parted, Stop};
use crate::uses::Uses;
use esc_egraph::{Node, State};
use esc_frac::Frac;
use esc_tableau::{Rows, Tableau, Unknown};
use esc_term::Term;
use esc_trail::{Carries, Trail, Undoable};
use std::alloc::{AllocError, Global};

/// Unknowns for terms and for gaps of terms, some of them bound to nodes, and those that are
/// restricted to be at least 0. The rows are kept where unknowns and restrictions are taken back.
#[derive(Drop)]
pub struct Simplex {
    pub(crate) tableau: Tableau,
    // what each unknown in the rows was made for, by its number
    pub(crate) made: Entries,
    // the unknowns in use
    pub(crate) unknowns: Uses,
    // nodes with their unknowns
    pub(crate) bound: Bindings,
    pub(crate) restricted: Uses,
    // how many pivots a maximising may take
    pub(crate) limit: u64,
    pub(crate) alloc: Global,
}

impl Undoable for Simplex {
    type Rec = SimplexRec;

    ghost use Rattle.esc_simplex.specs.SimplexUndo.{simplex_undo};
    ghost use Rattle.esc_simplex.specs.SimplexLaws.{simplex_lawful};

    ghost undo = { simplex_undo };

    ghost lawful = { simplex_lawful };

    fn back(&mut self, rec: SimplexRec) {
        match rec {
            SimplexRec::Listed => {
                let _ = self.unknowns.pop();
            }
            SimplexRec::Bound => {
                let _ = self.bound.pop();
            }
            SimplexRec::Restricted => {
                if let Some(newest) = self.restricted.pop() {
                    if newest.number() < self.tableau.count() {
                        self.tableau.free(newest);
                    }
                }
            }
        }
    }
}

impl Simplex {
    /// No unknowns and no restrictions. A maximising may take so many pivots.
    pub fn new(alloc: Global, pivots: u64) -> Simplex
        ensures simplex { IsSimplex result }
        ensures made { result.made ≡ [] }
        ensures unknowns { result.unknowns ≡ [] }
        ensures bound { result.bound ≡ [] }
        ensures restricted { result.restricted ≡ [] }
        ensures limit { result.limit ≡ pivots }
    {
        Simplex {
            tableau: Tableau::new(alloc),
            made: Entries::new(alloc),
            unknowns: Uses::new(alloc),
            bound: Bindings::new(alloc),
            restricted: Uses::new(alloc),
            limit: pivots,
            alloc,
        }
    }

    /// The unknown that the node is bound to.
    pub fn unknown_of(&self, a: Node) -> Option<Unknown>
        ensures { result ≡ bound_to self.now.bound a }
    {
        self.bound.unknown_of(a)
    }

    /// The bound nodes with their unknowns, in the order of binding.
    pub fn bound_nodes(&self) -> &[(Node, Unknown)]
        ensures { result.now ≡ self.now.bound }
    {
        self.bound.as_slice()
    }

    /// Where lists of unknowns take their memory.
    pub fn allocator(&self) -> Global {
        self.alloc
    }

    /// The unknown's value at one assignment that the restrictions allow, which is the same for all
    /// unknowns.
    pub fn value(&self, u: Unknown) -> Frac
        requires simplex { IsSimplex self.now }
        ensures value { result ≡ sample self.now.tableau u }
        ensures point { SampleIsAllowed self.now }
    {
        self.tableau.value(u)
    }

    /// An unknown for the value of the term, and for each term that its form is made of.
    pub fn unknown<R: Carries<SimplexRec>>(
        &mut self,
        term: &Term,
        trail: &mut Trail<R>,
    ) -> Result<Unknown, Stop>
        requires simplex { IsSimplex self.old }
        ensures ok { IfOk result (λ u. IsInUse self.new u (sense_term term.now)) }
        ensures parts { OnOk result (All (λ p. (u : ℕ) × IsInUse self.new u (sense_term p.term))
            (form term.now).parts) }
        ensures once { IfOk result (IsOnlyNew self.old self.new term.now) }
        ensures ends { UnknownEnds term.now result }
        ensures stop { IfErr result (IsBarred self.new (λ t. t ≡ term.now) (λ g. ⊥)) }
        ensures makes { Makes self.old self.new (IsOfTerm term.now) }
        ensures restricted { self.new.restricted ≡ self.old.restricted }
        ensures simplex { IsSimplex self.new }
        ensures undo { Notes simplex_undo R.carried trail.old.records trail.new.records self.old
            self.new }
    {
        let linear = form_or_stop(term, self.alloc)?;
        if !is_opaque(&linear, term) {
            return self.row_unknown(term, &linear, trail);
        }
        match self.opaque_unknown(term, trail) {
            Ok(unknown) => Ok(unknown),
            Err(AllocError) => Err(Stop::Memory),
        }
    }

    /// An unknown for u - v, or for u - v - 1 where it is strict.
    pub fn gap<R: Carries<SimplexRec>>(
        &mut self,
        u: Unknown,
        v: Unknown,
        strict: bool,
        trail: &mut Trail<R>,
    ) -> Result<Unknown, Stop>
        requires simplex { IsSimplex self.old }
        requires u { IsForTerm self.old u }
        requires v { IsForTerm self.old v }
        ensures ok { IfOk result (λ w. IsInUse self.new w (gap_of (gap_in self.old u v strict))) }
        ensures new { IfOk result (λ w. w ≡ length self.old.made) }
        ensures listed { IfOk result (λ w. self.new.unknowns ≡ self.old.unknowns ++ w ∷ []) }
        ensures ends { GapEnds result }
        ensures stop { IfErr result (IsBarred self.new (λ t. ⊥) (λ g. g
            ≡ gap_in self.old u v strict)) }
        ensures makes { Makes self.old self.new (λ s. s ≡ gap_of (gap_in self.old u v strict)) }
        ensures restricted { self.new.restricted ≡ self.old.restricted }
        ensures simplex { IsSimplex self.new }
        ensures undo { Notes simplex_undo R.carried trail.old.records trail.new.records self.old
            self.new }
    {
        let Ok(parts) = difference(u, v, self.alloc) else {
            return Err(Stop::Memory);
        };
        let entry = Made::Gap {
            upper: u,
            lower: v,
            strict,
        };
        self.add(entry, &parts, constant_of(strict), trail)
    }

    /// Makes `u` the unknown of the node.
    pub fn bind<R: Carries<SimplexRec>>(
        &mut self,
        a: Node,
        u: Unknown,
        trail: &mut Trail<R>,
    ) -> Result<(), AllocError>
        requires simplex { IsSimplex self.old }
        requires u { IsForTerm self.old u }
        requires unbound { bound_to self.old.bound a ≡ None }
        ensures ok { OnOk result (self.new ≡ record self.old {
          bound = self.old.bound ++ (a, u)
              ∷ [];
        }) }
        ensures err { OnErr result (self.new ≡ self.old) }
        ensures simplex { IsSimplex self.new }
        ensures undo { Notes simplex_undo R.carried trail.old.records trail.new.records self.old
            self.new }
    {
        trail.reserve(1)?;
        self.bound.push((a, u))?;
        trail.note(R::carry(SimplexRec::Bound));
        Ok(())
    }

    /// Restricts the unknown to be at least 0: Closed where the restrictions allow it nowhere.
    pub fn at_least_zero<R: Carries<SimplexRec>>(
        &mut self,
        u: Unknown,
        trail: &mut Trail<R>,
    ) -> Result<State, Stop>
        requires simplex { IsSimplex self.old }
        requires u { Contains self.old.unknowns u }
        ensures ends { AtLeastZeroEnds self.old self.new u result }
        ensures stop { IfErr result (IsBarred self.new (λ t. ⊥) (λ g. ⊥)) }
        ensures keeps { KeepsLists self.old self.new }
        ensures simplex { IsSimplex self.new }
        ensures undo { Notes simplex_undo R.carried trail.old.records trail.new.records self.old
            self.new }
    {
        if self.is_restricted(u) {
            return Ok(State::Open);
        }
        let lifted = self.lift(u)?;
        if !lifted {
            return Ok(State::Closed);
        }
        match self.restrict(u, trail) {
            Ok(()) => Ok(State::Open),
            Err(AllocError) => Err(Stop::Memory),
        }
    }

    /// Restricts u - v and v - u to be at least 0: Closed where the restrictions give the two one
    /// value nowhere.
    pub fn equal<R: Carries<SimplexRec>>(
        &mut self,
        u: Unknown,
        v: Unknown,
        trail: &mut Trail<R>,
    ) -> Result<State, Stop>
        requires simplex { IsSimplex self.old }
        requires u { IsForTerm self.old u }
        requires v { IsForTerm self.old v }
        ensures ends { EqualEnds self.old self.new u v result }
        ensures restricts { EqualRestricts self.old self.new u v result }
        ensures stop { IfErr result (IsBarred self.new (λ t. ⊥)
            (Contains (both_gaps self.old u v))) }
        ensures makes { Makes self.old self.new (λ s. (g : Gap)
            × Contains (both_gaps self.old u v) g × (s ≡ gap_of g)) }
        ensures simplex { IsSimplex self.new }
        ensures undo { Notes simplex_undo R.carried trail.old.records trail.new.records self.old
            self.new }
    {
        let state = self.restrict_gap(u, v, trail)?;
        match state {
            State::Closed => Ok(State::Closed),
            State::Open => self.restrict_gap(v, u, trail),
        }
    }

    /// Whether the restrictions allow the two unknowns to have different values.
    pub fn part(&mut self, u: Unknown, v: Unknown) -> Result<Parted, Stop>
        requires simplex { IsSimplex self.old }
        requires u { IsForTerm self.old u }
        requires v { IsForTerm self.old v }
        ensures ends { PartEnds self.old u v result }
        ensures stop { IfErr result (IsBarred self.new (λ t. ⊥)
            (Contains (both_gaps self.old u v))) }
        ensures keeps { KeepsLists self.old self.new }
        ensures restricted { self.new.restricted ≡ self.old.restricted }
        ensures same { AreSame self.new self.old }
        ensures simplex { IsSimplex self.new }
    {
        if !are_alike(self.tableau.value(u), self.tableau.value(v)) {
            return Ok(Parted::Different);
        }
        let above = self.exceeds(u, v)?;
        if above {
            return Ok(Parted::Different);
        }
        let below = self.exceeds(v, u)?;
        if below {
            return Ok(Parted::Different);
        }
        Ok(Parted::Equal)
    }

    /// A copy of the rows, which can be put again.
    pub fn copy_rows(&self) -> Result<Rows, AllocError>
        requires simplex { IsSimplex self.now }
        ensures rows { IfOk result (λ rows. tabled rows ≡ self.now.tableau) }
        ensures fit { IfOk result (AreRowsFor self.now) }
    {
        self.tableau.rows()
    }

    /// Puts rows that were copied in place of the view's own.
    pub fn put_rows(&mut self, rows: Rows)
        requires simplex { IsSimplex self.old }
        requires rows { AreRowsFor self.old rows }
        ensures rows { self.new ≡ record self.old {
          tableau = tabled rows;
          made = take (size (tabled rows)) self.old.made;
        } }
        ensures simplex { IsSimplex self.new }
        ensures same { AreSame self.new self.old }
    {
        self.tableau.put(rows);
        shorten(&mut self.made, self.tableau.count());
    }

    // Restricts u - v to be at least 0: Closed where the restrictions allow it nowhere.
    fn restrict_gap<R: Carries<SimplexRec>>(
        &mut self,
        u: Unknown,
        v: Unknown,
        trail: &mut Trail<R>,
    ) -> Result<State, Stop>
        requires simplex { IsSimplex self.old }
        requires u { IsForTerm self.old u }
        requires v { IsForTerm self.old v }
        ensures ends { GapRestrictedEnds self.old self.new (gap_in self.old u v false) result }
        ensures restricts { GapRestricts self.old self.new (gap_in self.old u v false) result }
        ensures stop { IfErr result (IsBarred self.new (λ t. ⊥) (λ g. g
            ≡ gap_in self.old u v false)) }
        ensures makes { Makes self.old self.new (λ s. s ≡ gap_of (gap_in self.old u v false)) }
        ensures simplex { IsSimplex self.new }
        ensures undo { Notes simplex_undo R.carried trail.old.records trail.new.records self.old
            self.new }
    {
        let gap = self.gap(u, v, false, trail)?;
        self.at_least_zero(gap, trail)
    }

    // Whether the unknown is restricted.
    fn is_restricted(&self, u: Unknown) -> bool
        ensures { IsTrue result ↔ Contains self.now.restricted u }
    {
        self.restricted.contains(u)
    }

    // Brings the unknown to 0 or above, where the restrictions allow it anywhere.
    fn lift(&mut self, u: Unknown) -> Result<bool, Stop>
        requires simplex { IsSimplex self.old }
        requires u { Contains self.old.unknowns u }
        ensures keeps { KeepsLists self.old self.new }
        ensures restricted { self.new.restricted ≡ self.old.restricted }
        ensures simplex { IsSimplex self.new }
        ensures same { AreSame self.new self.old }
        ensures ends { IfOk result (LiftShows self.old self.new u) }
        ensures stop { IfErr result (IsBarred self.new (λ t. ⊥) (λ g. ⊥)) }
    {
        lift(&mut self.tableau, u, self.limit)
    }

    // Restricts an unknown whose sample is at least 0.
    fn restrict<R: Carries<SimplexRec>>(
        &mut self,
        u: Unknown,
        trail: &mut Trail<R>,
    ) -> Result<(), AllocError>
        requires simplex { IsSimplex self.old }
        requires u { Contains self.old.unknowns u }
        requires new { Contains self.old.restricted u → ⊥ }
        requires sample { zero_ℚ ≤ℚ sample self.old.tableau u }
        ensures ok { OnOk result (self.new.restricted ≡ self.old.restricted ++ u ∷ []) }
        ensures err { OnErr result (self.new ≡ self.old) }
        ensures keeps { KeepsLists self.old self.new }
        ensures simplex { IsSimplex self.new }
        ensures undo { Notes simplex_undo R.carried trail.old.records trail.new.records self.old
            self.new }
    {
        trail.reserve(1)?;
        self.restricted.push(u)?;
        self.tableau.restrict(u);
        trail.note(R::carry(SimplexRec::Restricted));
        Ok(())
    }

    // Whether the first unknown is somewhere above the other within the restrictions.
    fn exceeds(&mut self, upper: Unknown, lower: Unknown) -> Result<bool, Stop>
        requires simplex { IsSimplex self.old }
        requires upper { IsForTerm self.old upper }
        requires lower { IsForTerm self.old lower }
        ensures keeps { KeepsLists self.old self.new }
        ensures restricted { self.new.restricted ≡ self.old.restricted }
        ensures simplex { IsSimplex self.new }
        ensures same { AreSame self.new self.old }
        ensures ends { IfOk result (ExceedShows self.old upper lower) }
        ensures stop { IfErr result (IsBarred self.new (λ t. ⊥) (λ g. g
            ≡ gap_in self.old upper lower false)) }
    {
        exceeds(&mut self.tableau, upper, lower, self.limit, self.alloc)
    }
}

fn are_alike(a: Frac, b: Frac) -> bool
    ensures { IsTrue result ↔ (a ≡ b) }
{
    a == b
}

// Keeps the first entries alone.
fn shorten(made: &mut Entries, count: usize)
    ensures { made.new ≡ take count made.old }
{
    'made: while made.len() > count {
        let _ = made.pop();
    }
}
