//! Books.

ghost use Rattle.std.specs.Prelude.{◌≡◌, ◌↔◌, ◌<◌, ◌≤◌, [], ◌∷◌, ◌++◌, length, take, IfOk, OnOk};
ghost use Rattle.std.specs.Prelude.{OnErr};
ghost use Rattle.std.specs.Prelude.{IfSome, IsTrue, MatchOption, Some, None, false, slice_get};
ghost use Rattle.std.specs.List.{All, Contains};
ghost use Rattle.esc_trail.specs.Undo.{Notes};
ghost use Rattle.esc_egraph.specs.Graph.{Graph};
ghost use Rattle.esc_term.specs.Formula.{terms_of};
ghost use Rattle.esc_sharing.specs.Nodes.{terms_in};
ghost use Rattle.esc_clause.specs.Expansion.{expanded};
ghost use Rattle.esc_clause.specs.Occurrences.{formula_at, item_at};
ghost use Rattle.esc_book.specs.Atom.{IsAtomAt, IsAtomOf, IsDistinctAt, IsGroupOf, expansion_of};
ghost use Rattle.esc_book.specs.Book.{IsBook, IsLiveOccurrence, is_live};
ghost use Rattle.esc_book.specs.BookUndo.{book_undo};
ghost use Rattle.esc_book.specs.JudgingInside.{IsPageOf};

mod read;

use crate::entry::{Entry, Page};
use crate::live::Live;
use crate::record::BookRec;
use crate::writing::page_of;
use esc_egraph::EGraph;
use esc_term::{Formula, Formulas};
use esc_trail::{Carries, Trail, Undoable};
use std::alloc::{AllocError, Global};
use std::marker::Model;

/// The formulas of a log, and a table of each that is live.
#[derive(Drop)]
pub struct Book {
    alloc: Global,
    logged: Formulas,
    live: Live,
    pages: Vec<Page>,
}

impl Model for Book {
    ghost use Rattle.std.specs.Coded.{code_by, codes};
    ghost use Rattle.std.specs.Prelude.{ℕ, List, refl};
    ghost use Rattle.esc_term.specs.declared.formula.Formula.{Formula};
    ghost use Rattle.esc_term.specs.contracts.formula.Formula as formula;
    ghost use Rattle.esc_book.specs.Book.{BookView, Page};
    ghost use Rattle.esc_book.specs.BookInside.{of_parts, parts_of, view_of};
    ghost use Rattle.esc_book.specs.contracts.entry.Entry as entry;

    ghost Value = { BookView };

    ghost coded = { code_by (List Formula × List ℕ × List Page)
        (Prim.hlevel (codes, formula.the_row.coded, entry.the_row.coded)) parts_of of_parts
        (λ v. refl) };

    ghost view = { view_of };
}

impl Book {
    /// An empty log.
    pub fn new(alloc: Global) -> Book
        ensures { result ≡ record { logged = []; live = []; pages = [] } }
    {
        Book {
            alloc,
            logged: Formulas::new(alloc),
            live: Live::new(alloc),
            pages: Vec::new(alloc),
        }
    }

    /// The formulas of the log, in order.
    pub fn formulas(&self) -> &Formulas
        ensures { result.now ≡ self.now.logged }
    {
        &self.logged
    }

    /// The formulas of the log, in order, of a book that is no longer needed.
    pub fn into_formulas(self) -> Formulas
        ensures { result ≡ self.logged }
    {
        let Book {
            alloc: _,
            logged,
            live: _,
            pages: _,
        } = self;
        logged
    }

    /// The places of the live facts, in the order in which they became live.
    pub fn live(&self) -> &[usize]
        ensures { result.now ≡ self.now.live }
    {
        self.live.list()
    }

    /// Whether the fact at a place of the log is live.
    pub fn is_live(&self, place: usize) -> bool
        ensures test { result ≡ is_live self.now place }
        ensures there { IsTrue result ↔ Contains self.now.live place }
    {
        self.live.find(place).is_some()
    }

    /// The table of the live fact at a place of the log.
    pub(crate) fn page(&self, fact: u64) -> Option<&[Entry]>
        requires book { (g : Graph) × IsBook g self.now }
        ensures some { IfSome result (λ page. IsPageOf self.now fact page.now) }
        ensures none { result ≡ None → is_live self.now fact ≡ false }
    {
        match self.live.find(fact as usize) {
            Some(place) => Some(self.pages[place].as_slice()),
            None => None,
        }
    }

    /// Puts a formula at the end of the log. It fails only where memory is wanting.
    pub fn log(&mut self, formula: Formula) -> Result<(), AllocError>
        ensures ok { OnOk result (self.new
            ≡ record self.old { logged = self.old.logged ++ formula ∷ [] }) }
        ensures err { OnErr result (self.new ≡ self.old) }
        ensures book { (g : Graph) → IsBook g self.old → IsBook g self.new }
    {
        self.logged.push(formula)
    }

    /// Keeps the first formulas of the log, so many.
    pub fn cut(&mut self, len: usize)
        requires within { len ≤ length self.old.logged }
        requires live { All (λ place. place < len) self.old.live }
        ensures cut { self.new ≡ record self.old { logged = take len self.old.logged } }
        ensures book { (g : Graph) → IsBook g self.old → IsBook g self.new }
    {
        'formulas: while self.logged.len() > len {
            let _ = self.logged.pop();
        }
    }

    /// Makes the fact at a place of the log live, and writes its table, with the nodes of the
    /// graph. It fails only where memory is wanting, and then leaves all as it was.
    pub fn go_live<R: Carries<BookRec>>(
        &mut self,
        graph: &EGraph,
        place: usize,
        trail: &mut Trail<R>,
    ) -> Result<(), AllocError>
        requires book { IsBook graph.now self.old }
        requires within { place < length self.old.logged }
        requires dead { Contains self.old.live place → ⊥ }
        requires terms { (f : Formula) → slice_get self.old.logged place ≡ Some f
            → All (Contains (terms_in graph.now)) (terms_of f) }
        ensures logged { self.new.logged ≡ self.old.logged }
        ensures live { OnOk result (self.new.live ≡ self.old.live ++ place ∷ []) }
        ensures book { IsBook graph.now self.new }
        ensures err { OnErr result (self.new ≡ self.old) }
        ensures undo { Notes book_undo R.carried trail.old.records trail.new.records
            self.old self.new }
    {
        let page = page_of(self.alloc, graph, &self.logged.as_slice()[place])?;
        self.pages.reserve(1)?;
        trail.reserve(1)?;
        self.live.push(place)?;
        trail.note(R::carry(BookRec::Live));
        match self.pages.push(page) {
            Ok(()) => Ok(()),
            Err(_) => unreachable!(),
        }
    }
}

impl Undoable for Book {
    type Rec = BookRec;

    ghost use Rattle.esc_book.specs.BookUndo.{CanGoBack, book_back, book_undo};
    ghost use Rattle.esc_trail.proofs.Lawful.{equal_is_lawful};

    ghost undo = { book_undo };

    ghost lawful = { equal_is_lawful book_back CanGoBack };

    fn back(&mut self, rec: BookRec) {
        match rec {
            BookRec::Live => {
                self.live.pop();
                let _ = self.pages.pop();
            }
        }
    }
}
