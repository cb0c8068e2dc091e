//! Names, variables and labels.

ghost use Rattle.std.specs.Prelude.{◌≡◌, ◌∷◌, [], take, OnOk};
ghost use Rattle.esc_read.specs.Reading.{Declares, Plain, ReadsIn};
ghost use Rattle.esc_read.specs.Names.{declared, differs, is_kept, label, permit, symbol, variable};
ghost use Rattle.esc_read.specs.Names.{variables};
ghost use Rattle.esc_read.specs.Tokens.{text_of};

use crate::fault::{FormKind, FormStop, refusal};
use crate::reader::TermReader;
use crate::token::{Token, place_of, text_of};
use esc_sexp::Sexp;
use esc_term::Sym;

fn is_kept(text: &[u8]) -> bool
    ensures { result ≡ is_kept text.now }
{
    text.starts_with(b"@sk.") || text.starts_with(b"@v.")
}

/// Whether a token at this place may be taken as a name.
#[tactic(auto, unfolding(crate::specs::Names::permit), using(crate::proofs::Readings::plain_readings))]
pub(crate) fn permit(place: u64, text: &[u8]) -> Result<(), FormStop>
    ensures { Plain result (permit place text.now) }
{
    if is_kept(text) {
        return Err(refusal(FormKind::ReservedName, place));
    }
    Ok(())
}

impl<'e> TermReader<'e> {
    /// The number of a token at this place that is taken as a name.
    pub fn read_symbol(&mut self, place: u64, text: &[u8]) -> Result<Sym, FormStop>
        ensures { ReadsIn self.old self.new result (symbol place text.now) }
    {
        permit(place, text)?;
        self.number_of(text)
    }

    /// A label: any token.
    #[tactic(auto, unfolding(crate::specs::Names::label), using(crate::proofs::Readings::readings))]
    pub fn read_label(&mut self, sexp: &Sexp) -> Result<Sym, FormStop>
        ensures { ReadsIn self.old self.new result (label sexp.now) }
    {
        match self.token_of(sexp) {
            Token::List => Err(refusal(FormKind::NotATerm, place_of(sexp))),
            Token::Numeral | Token::Word(_) | Token::Name => {
                self.read_symbol(place_of(sexp), text_of(sexp))
            }
        }
    }

    /// The variables that a quantifier binds, which are in scope then. The result counts them.
    pub fn read_variables(&mut self, sexp: &'e Sexp) -> Result<usize, FormStop>
        ensures { Declares self.old self.new result (variables sexp.now) }
    {
        match sexp {
            Sexp::List(_, items) => self.read_declared(items.as_slice()),
            Sexp::Bare(_, _) => Err(refusal(FormKind::NotATerm, place_of(sexp))),
            Sexp::Barred(_, _) => Err(refusal(FormKind::NotATerm, place_of(sexp))),
        }
    }

    /// The variables of a list, which are in scope then. The result counts them.
    pub fn read_declared(&mut self, items: &'e [Sexp]) -> Result<usize, FormStop>
        ensures { Declares self.old self.new result (declared [] items.now) }
    {
        'items: for (place, item) in items.iter().enumerate() {
            self.read_variable(place, item)?;
        }
        Ok(items.len())
    }

    /// One more variable of a list, behind so many of it.
    fn read_variable(&mut self, count: usize, sexp: &'e Sexp) -> Result<(), FormStop>
        ensures read { Plain result (variable (take count self.old.scope) sexp.now) }
        ensures names { self.new.names ≡ self.old.names }
        ensures scope { OnOk result (self.new.scope ≡ text_of sexp.now ∷ self.old.scope) }
    {
        self.check_variable(count, sexp)?;
        match self.enter(text_of(sexp)) {
            Ok(()) => Ok(()),
            Err(_) => Err(FormStop::Memory),
        }
    }

    #[tactic(auto, unfolding(crate::specs::Names::variable), using(crate::proofs::Readings::plain_readings))]
    fn check_variable(&self, count: usize, sexp: &Sexp) -> Result<(), FormStop>
        ensures { Plain result (variable (take count self.now.scope) sexp.now) }
    {
        match self.token_of(sexp) {
            Token::Name => {
                permit(place_of(sexp), text_of(sexp))?;
                self.check_new(count, place_of(sexp), text_of(sexp))
            }
            Token::Numeral | Token::Word(_) | Token::List => {
                Err(refusal(FormKind::NotATerm, place_of(sexp)))
            }
        }
    }

    #[tactic(auto, using(crate::proofs::Readings::plain_readings))]
    fn check_new(&self, count: usize, place: u64, text: &[u8]) -> Result<(), FormStop>
        ensures { Plain result (differs (take count self.now.scope) place text.now) }
    {
        if self.is_among(text, count) {
            return Err(refusal(FormKind::DuplicateVariable, place));
        }
        Ok(())
    }
}
