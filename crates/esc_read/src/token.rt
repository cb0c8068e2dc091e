//! What stands at the front of an expression.

ghost use Rattle.std.specs.Prelude.{◌≡◌, drop};
ghost use Rattle.esc_read.specs.Tokens.{args_of, place_of, text_of};

use esc_names::Key;
use esc_sexp::Sexp;

/// What an expression is.
#[derive(Clone, Copy)]
pub enum Token {
    Numeral,
    Word(Key),
    Name,
    List,
}

/// The place of the first byte.
#[tactic(auto, using(crate::proofs::Levels::token_levels))]
pub fn place_of(sexp: &Sexp) -> u64
    ensures { result ≡ place_of sexp.now }
{
    match sexp {
        Sexp::Bare(place, _) | Sexp::Barred(place, _) | Sexp::List(place, _) => *place,
    }
}

/// The spelling of a token: empty for a list.
#[tactic(auto, using(crate::proofs::Levels::token_levels))]
pub fn text_of(sexp: &Sexp) -> &[u8]
    ensures { result.now ≡ text_of sexp.now }
{
    match sexp {
        Sexp::Bare(_, text) | Sexp::Barred(_, text) => text.as_slice(),
        Sexp::List(_, _) => &[],
    }
}

/// What stands behind the head of a list.
#[tactic(auto, using(crate::proofs::Levels::head_levels))]
pub fn args_of(sexp: &Sexp) -> &[Sexp]
    ensures { result.now ≡ args_of sexp.now }
{
    match sexp {
        Sexp::Bare(_, _) | Sexp::Barred(_, _) => &[],
        Sexp::List(_, items) => behind(items.as_slice()),
    }
}

fn behind(items: &[Sexp]) -> &[Sexp]
    ensures { result.now ≡ drop 1 items.now }
{
    if items.len() == 0 {
        return items;
    }
    &items[1..]
}
