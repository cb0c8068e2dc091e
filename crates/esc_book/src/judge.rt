//! Judges of occurrences.

ghost use Rattle.std.specs.Prelude.{◌≡◌};
ghost use Rattle.esc_cover.specs.Cover.{Cover};
ghost use Rattle.esc_said.specs.Speaking.{SaysAs};
ghost use Rattle.esc_book.specs.JudgingInside.{truth_by};

use crate::book::Book;
use crate::page::{Place, locate};
use esc_clause::{Judge, Occurrence, Occurrences, Truth};
use esc_said::{Said, Saying};

/// What a book and a sharing say of occurrences, where these occurrences are the literals.
#[derive(Clone, Copy)]
pub struct BookJudge<'a> {
    pub book: &'a Book,
    pub saying: Saying<'a>,
    pub literals: &'a Occurrences,
}

impl<'a> Judge for BookJudge<'a> {
    ghost use Rattle.esc_book.specs.Judging.{IsReady, judged_by_book};

    ghost ready = { IsReady };

    ghost judged = { judged_by_book };

    fn judge(&self, at: Occurrence) -> Truth {
        let Some(page) = self.book.page(at.fact) else {
            return Truth::Open;
        };
        match locate(page, at.place) {
            Place::Entry(index) => truth_of(self.said_at(page, index), at.positive),
            Place::Pair(a, b) => truth_of(self.saying.equal(a, b), at.positive),
            Place::Nowhere => Truth::Open,
        }
    }
}

/// Whether a formula has a sign, by what is said of it.
fn truth_of(said: Said, positive: bool) -> Truth
    ensures { (c : Cover) → SaysAs said c → result ≡ truth_by c positive }
{
    let (fits, differs) = if positive {
        (said.holds, said.fails)
    } else {
        (said.fails, said.holds)
    };
    if fits {
        Truth::Yes
    } else if differs {
        Truth::No
    } else {
        Truth::Open
    }
}
