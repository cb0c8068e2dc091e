//! Terms.

ghost use Rattle.std.specs.Prelude.{◌≡◌, map};
ghost use Rattle.esc_read.specs.Reading.{ReadsIn, each};
ghost use Rattle.esc_read.specs.Terms.{application, bare_term, calculation, name_term, operation};
ghost use Rattle.esc_read.specs.Terms.{takes, term, term_head};

use crate::fault::{FormKind, FormStop, exhausted, refusal};
use crate::name::permit;
use crate::numeral::read_numeral;
use crate::reader::TermReader;
use crate::token::{Token, place_of, text_of};
use esc_names::{Key, Operator};
use esc_sexp::Sexp;
use esc_term::{Head, Term, Terms, with_room};
use sqlite_items::Items;

/// What the head of a list says where a term is wanted.
#[derive(Clone, Copy)]
enum TermHead {
    Name,
    Operator(Operator),
    Other,
}

fn term_head(token: Token) -> TermHead
    ensures { result ≡ term_head token }
{
    match token {
        Token::Name => TermHead::Name,
        Token::Word(Key::Calculate(operator)) => TermHead::Operator(operator),
        _ => TermHead::Other,
    }
}

/// Whether the operator takes so many arguments.
fn takes(operator: Operator, count: usize) -> bool
    ensures { result ≡ takes operator count }
{
    match operator {
        Operator::Add | Operator::Mul => 2 <= count,
        Operator::Sub => count == 1 || count == 2,
    }
}

fn head_of(operator: Operator) -> Head
    ensures { result ≡ operation operator }
{
    match operator {
        Operator::Add => Head::Add,
        Operator::Sub => Head::Sub,
        Operator::Mul => Head::Mul,
    }
}

impl<'e> TermReader<'e> {
    /// A name alone: a variable in scope, or a constant.
    pub fn read_name_term(&mut self, place: u64, text: &[u8]) -> Result<Term, FormStop>
        ensures { ReadsIn self.old self.new result (name_term place text.now) }
    {
        permit(place, text)?;
        match self.depth_of(text) {
            Some(inside) => Ok(Term::Var(inside)),
            None => {
                let symbol = self.number_of(text)?;
                Ok(Term::App(Head::Name(symbol), Items::new(self.alloc())))
            }
        }
    }

    fn read_bare_term(&mut self, place: u64, text: &[u8]) -> Result<Term, FormStop>
        ensures { ReadsIn self.old self.new result (bare_term place text.now) }
    {
        match self.bare_token(text) {
            Token::Numeral => read_numeral(place, text),
            Token::Name => self.read_name_term(place, text),
            Token::Word(_) => Err(refusal(FormKind::NotATerm, place)),
            Token::List => Err(refusal(FormKind::NotATerm, place)),
        }
    }

    /// The term that an expression is.
    #[cycle(read_term)]
    #[tactic(auto, using(crate::proofs::Levels::term_levels))]
    pub fn read_term(&mut self, sexp: &Sexp) -> Result<Term, FormStop>
        ensures { ReadsIn self.old self.new result (term sexp.now) }
    {
        match sexp {
            Sexp::Bare(place, text) => self.read_bare_term(*place, text.as_slice()),
            Sexp::Barred(place, text) => self.read_name_term(*place, text.as_slice()),
            Sexp::List(place, items) => {
                let [head, args @ ..] = items.as_slice() else {
                    return Err(refusal(FormKind::EmptyList, *place));
                };
                match term_head(self.token_of(head)) {
                    TermHead::Name => self.read_application(place_of(head), text_of(head), args),
                    TermHead::Operator(operator) => {
                        self.read_calculation(operator, *place, args)
                    }
                    TermHead::Other => Err(refusal(FormKind::NotATerm, place_of(head))),
                }
            }
        }
    }

    /// A name as the head of a list.
    #[cycle(read_term)]
    pub fn read_application(
        &mut self,
        place: u64,
        text: &[u8],
        args: &[Sexp],
    ) -> Result<Term, FormStop>
        ensures { ReadsIn self.old self.new result
            (application place text.now (map term args.now)) }
    {
        if args.len() == 0 {
            return self.read_name_term(place, text);
        }
        let symbol = self.read_symbol(place, text)?;
        let args = self.read_terms(args)?;
        Ok(Term::App(Head::Name(symbol), args))
    }

    #[cycle(read_term)]
    fn read_calculation(
        &mut self,
        operator: Operator,
        place: u64,
        args: &[Sexp],
    ) -> Result<Term, FormStop>
        ensures { ReadsIn self.old self.new result
            (calculation operator place (map term args.now)) }
    {
        if !takes(operator, args.len()) {
            return Err(refusal(FormKind::WrongCount, place));
        }
        let args = self.read_terms(args)?;
        Ok(Term::App(head_of(operator), args))
    }

    /// Terms, from the front.
    #[cycle(read_term)]
    pub fn read_terms(&mut self, parts: &[Sexp]) -> Result<Terms, FormStop>
        ensures { ReadsIn self.old self.new result (each (map term parts.now)) }
    {
        let mut terms = with_room(self.alloc(), parts.len()).map_err(exhausted)?;
        'parts: for part in parts {
            let term = self.read_term(part)?;
            terms.push(term).map_err(exhausted)?;
        }
        Ok(terms)
    }
}
