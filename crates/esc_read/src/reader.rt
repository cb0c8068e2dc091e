//! The reader of terms.

ghost use Rattle.std.specs.Prelude.{◌≡◌, ◌≤◌, ◌∷◌, [], take, drop, length, OnOk};
ghost use Rattle.std.specs.List.{list_any, position};
ghost use Rattle.std.specs.Str.{bytes_eq};
ghost use Rattle.esc_names.specs.Reserved.{word_table};
ghost use Rattle.esc_read.specs.Reading.{ReadsBy, ReadsIn, Variables, name_number};
ghost use Rattle.esc_read.specs.Tokens.{bare_token, first_token, head_of, text_of, token_of};

use crate::fault::FormStop;
use crate::scope::Scope;
use crate::token::Token;
use esc_names::{Fixed, Names, is_numeral, reserved};
use esc_sexp::Sexp;
use esc_term::Sym;
use std::alloc::{AllocError, Global};
use std::marker::Model;

/// ReadsBy terms of one expression: with the reserved words, the table of names, and the variables
/// in scope.
#[derive(Drop)]
pub struct TermReader<'e> {
    alloc: Global,
    words: Fixed<36>,
    names: Names,
    scope: Scope<'e>,
}

impl<'e> Model for TermReader<'e> {
    ghost use Rattle.std.specs.Prelude.{◌≡◌};
    ghost use Rattle.esc_names.specs.Reserved.{word_table};
    ghost use Rattle.esc_read.specs.Reading.{Context};

    ghost Value = { Context };

    ghost view = { λ reader. record { names = reader.names; scope = reader.scope } };

    ghost invariant = { λ reader. reader.words ≡ word_table };
}

/// The number of a name in a table.
fn number_of(names: &mut Names, text: &[u8]) -> Result<Sym, FormStop>
    ensures { (scope : Variables)
        → ReadsBy names.old names.new result (name_number text.now scope) }
{
    match names.number(text) {
        Ok(symbol) => Ok(symbol),
        Err(_) => Err(FormStop::Memory),
    }
}

impl<'e> TermReader<'e> {
    /// A reader that takes over a table of names. No variable is in scope.
    pub fn new(alloc: Global, names: Names) -> TermReader<'e>
        ensures { result ≡ record { names = names; scope = [] } }
    {
        TermReader {
            alloc,
            words: reserved(),
            names,
            scope: Scope::new(alloc),
        }
    }

    /// The table of names as it is now.
    pub fn into_names(self) -> Names
        ensures { result ≡ self.entry.names }
    {
        let TermReader {
            alloc: _,
            words: _,
            names,
            scope: _,
        } = self;
        names
    }

    pub fn alloc(&self) -> Global {
        self.alloc
    }

    /// What a text without bars is.
    #[tactic(auto, unfolding(crate::specs::Tokens::bare_token, esc_names::specs::Reserved::key_of))]
    pub fn bare_token(&self, text: &[u8]) -> Token
        ensures { result ≡ bare_token text.now }
    {
        if is_numeral(text) {
            return Token::Numeral;
        }
        match self.words.key(text) {
            Some(key) => Token::Word(key),
            None => Token::Name,
        }
    }

    /// What an expression is.
    #[tactic(auto, using(crate::proofs::Levels::token_levels))]
    pub fn token_of(&self, sexp: &Sexp) -> Token
        ensures { result ≡ token_of sexp.now }
    {
        match sexp {
            Sexp::Bare(_, text) => self.bare_token(text.as_slice()),
            Sexp::Barred(_, _) => Token::Name,
            Sexp::List(_, _) => Token::List,
        }
    }

    /// What the head of a list is. Where there is none, it is no token.
    #[tactic(auto, using(crate::proofs::Levels::head_levels))]
    pub fn head_of(&self, sexp: &Sexp) -> Token
        ensures { result ≡ head_of sexp.now }
    {
        match sexp {
            Sexp::Bare(_, _) | Sexp::Barred(_, _) => Token::List,
            Sexp::List(_, items) => self.first_of(items.as_slice()),
        }
    }

    fn first_of(&self, items: &[Sexp]) -> Token
        ensures { result ≡ first_token items.now }
    {
        match items {
            [] => Token::List,
            [head, ..] => self.token_of(head),
        }
    }

    /// The number of a name.
    pub(crate) fn number_of(&mut self, text: &[u8]) -> Result<Sym, FormStop>
        ensures { ReadsIn self.old self.new result (name_number text.now) }
    {
        number_of(&mut self.names, text)
    }

    /// How many variables stand inside the innermost of this name.
    pub(crate) fn depth_of(&self, text: &[u8]) -> Option<u64>
        ensures { result ≡ position (bytes_eq text.now) self.now.scope }
    {
        self.scope.find(text)
    }

    /// Whether one of so many innermost variables has this name.
    pub(crate) fn is_among(&self, text: &[u8], count: usize) -> bool
        ensures { result ≡ list_any (bytes_eq text.now) (take count self.now.scope) }
    {
        self.scope.is_among(text, count)
    }

    /// Adds an innermost variable.
    pub(crate) fn enter(&mut self, name: &'e [u8]) -> Result<(), AllocError>
        ensures names { self.new.names ≡ self.old.names }
        ensures scope { OnOk result (self.new.scope ≡ name.now ∷ self.old.scope) }
    {
        self.scope.push(name)
    }

    /// Leaves so many innermost variables.
    pub fn leave(&mut self, count: usize)
        requires { count ≤ length self.old.scope }
        ensures names { self.new.names ≡ self.old.names }
        ensures scope { self.new.scope ≡ drop count self.old.scope }
    {
        self.scope.leave(count);
    }
}
