//! One branch of a search: facts that are live on it, and what they come to.

ghost use Rattle.std.specs.Prelude.{◌≡◌, [], IfOk};
ghost use Rattle.esc_term.specs.Model.{Model};
ghost use Rattle.std.specs.Prelude.{IsTrue};
ghost use Rattle.std.specs.List.{All};
ghost use Rattle.esc_term.specs.declared.formula.Formula.{out-Formula};
ghost use Rattle.esc_book.specs.Book.{IsBook, IsLiveOccurrence};
ghost use Rattle.esc_cover.specs.Counterexample.{is_literal_form};
ghost use Rattle.esc_book.specs.Judging.{IsReady, judged_by_book};
ghost use Rattle.esc_live.specs.Promises.{IsBranch, IsGiven, IsSoundIn};
ghost use Rattle.esc_live.specs.StandingInside.{IsStanding};
ghost use Rattle.esc_live.specs.View.{judge_on, literals_on};

use crate::record::LiveRec;
use esc_book::{Book, BookJudge};
use esc_clause::{Clauses, Occurrences};
use esc_outcome::Literals;
use esc_said::Saying;
use esc_sharing::Sharing;
use esc_simplex::Simplex;
use esc_trail::Undoable;
use sqlite_items::Items;
use std::alloc::{AllocError, Global};

/// The facts of a log that are live, with the literals, decisions and clauses that they come to.
#[derive(Drop)]
pub struct LiveBranch {
    /// The classes of terms and the arithmetic, by the literals.
    pub sharing: Sharing<Simplex>,
    /// The clauses with what is left of them, and the decisions.
    pub clauses: Clauses,
    /// The log's formulas, and those of the live facts written out.
    pub book: Book,
    /// The literals, in the order in which they were asserted.
    pub literals: Occurrences,
    pub alloc: Global,
}

impl Undoable for LiveBranch {
    type Rec = LiveRec;

    ghost use Rattle.esc_live.specs.LiveUndo.{live_lawful, live_undo};

    ghost undo = { live_undo };

    ghost lawful = { live_lawful };

    fn back(&mut self, rec: LiveRec) {
        match rec {
            LiveRec::Shared(rec) => self.sharing.back(rec),
            LiveRec::Clauses(rec) => self.clauses.back(rec),
            LiveRec::Book(rec) => self.book.back(rec),
            LiveRec::Literal => {
                let _ = self.literals.pop();
            }
        }
    }
}

impl LiveBranch {
    /// A branch of an empty log, where a maximising may take so many pivots. It fails only where
    /// memory is wanting.
    pub fn new(alloc: Global, pivots: u64) -> Result<LiveBranch, AllocError>
        ensures branch { IfOk result IsBranch }
        ensures given { IfOk result IsGiven }
        ensures sound { IfOk result (λ v. (M : Model) → IsSoundIn M v) }
        ensures logged { IfOk result (λ v. v.book.logged ≡ []) }
        ensures live { IfOk result (λ v. v.book.live ≡ []) }
        ensures decisions { IfOk result (λ v. v.clauses.decisions ≡ []) }
        ensures limit { IfOk result (λ v. v.sharing.theory.limit ≡ pivots) }
    {
        let sharing = Sharing::new(alloc, Simplex::new(alloc, pivots))?;
        Ok(LiveBranch {
            sharing,
            clauses: Clauses::new(alloc),
            book: Book::new(alloc),
            literals: Items::new(alloc),
            alloc,
        })
    }

    /// What literals and classes say of occurrences.
    pub fn judge(&self) -> BookJudge<'_>
        requires branch { IsBranch self.now }
        ensures ready { IsReady result }
        ensures judged { judged_by_book result ≡ judge_on self.now }
    {
        self.judge_standing()
    }

    /// It too, while an occurrence is being asserted.
    pub(crate) fn judge_standing(&self) -> BookJudge<'_>
        requires standing { IsStanding self.now }
        ensures ready { IsReady result }
        ensures judged { judged_by_book result ≡ judge_on self.now }
    {
        BookJudge {
            book: &self.book,
            saying: Saying {
                graph: self.sharing.graph(),
                groups: self.sharing.groups(),
                asserted: self.sharing.asserted(),
            },
            literals: &self.literals,
        }
    }

    /// The literals written out. It fails only where memory is wanting.
    pub fn items(&self) -> Result<Literals, AllocError>
        requires book { IsBook self.now.sharing.graph self.now.book }
        requires occur { All (IsLiveOccurrence self.now.book) self.now.literals }
        requires forms { All (λ item. IsTrue (is_literal_form (out-Formula item.formula)
            item.positive)) (literals_on self.now) }
        ensures { IfOk result (λ items. items ≡ literals_on self.now) }
    {
        let mut items = Literals::new(self.alloc);
        'literals: for at in self.literals.as_slice() {
            items.push(self.book.item(self.sharing.graph(), *at)?)?;
        }
        Ok(items)
    }
}
