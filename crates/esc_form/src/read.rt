//! Commands from expressions.

ghost use Rattle.std.specs.Prelude.{◌≡◌};
ghost use Rattle.esc_read.specs.Reading.{Plain, ReadsBy, ReadsIn};
ghost use Rattle.esc_read.specs.Tokens.{head_of};
ghost use Rattle.esc_form.specs.Commands.{command, command_reading, defined, goal_of, kind_by};
ghost use Rattle.esc_form.specs.Commands.{meaning, named};
ghost use Rattle.esc_form.specs.Commands.{named_list, nothing_behind, order_of, is_name, pushed};

use crate::build::exhausted;
use crate::command::{Command, Kind};
use crate::definition::{Named, definition_of, rule};
use crate::reader::FormReader;
use esc_names::{Key, Names, Order};
use esc_read::{FormKind, FormStop, Token, args_of, place_of, refusal, text_of};
use esc_sexp::Sexp;
use std::alloc::Global;
use std::mem;

/// The command of a list that is no goal.
fn order_of(token: Token) -> Option<Order>
    ensures { result ≡ order_of token }
{
    match token {
        Token::Word(Key::Command(order)) => Some(order),
        _ => None,
    }
}

fn is_name(token: Token) -> bool
    ensures { result ≡ is_name token }
{
    match token {
        Token::Name => true,
        Token::Numeral | Token::Word(_) | Token::List => false,
    }
}

/// The command that an expression is. Names that the table does not have yet get numbers in it.
///
/// The refusal is the first one from the front. After a refusal and after want of memory the table
/// may have grown.
pub fn read_command(alloc: Global, sexp: &Sexp, names: &mut Names) -> Result<Command, FormStop>
    ensures { ReadsBy names.old names.new result (command sexp.now) }
{
    let mut reader = FormReader::new(alloc, mem::replace(names, Names::empty(alloc)));
    let read = reader.read_command(sexp);
    *names = reader.into_names();
    read
}

/// A command without arguments.
fn read_alone(kind: Kind, place: u64, parts: &[Sexp]) -> Result<Kind, FormStop>
    ensures { Plain result (nothing_behind kind place parts.now) }
{
    if parts.len() != 0 {
        // A call, since the proof would take its forms apart at the end of the scope.
        drop(kind);
        return Err(refusal(FormKind::WrongCount, place));
    }
    Ok(kind)
}

impl<'e> FormReader<'e> {
    fn read_command(&mut self, sexp: &'e Sexp) -> Result<Command, FormStop>
        ensures { ReadsIn self.old.terms self.new.terms result (command_reading sexp.now) }
    {
        let kind = self.read_kind(sexp)?;
        Ok(Command {
            place: place_of(sexp),
            kind,
        })
    }

    fn read_kind(&mut self, sexp: &'e Sexp) -> Result<Kind, FormStop>
        ensures { ReadsIn self.old.terms self.new.terms result
            (kind_by (order_of (head_of sexp.now)) sexp.now) }
    {
        match order_of(self.terms.head_of(sexp)) {
            Some(Order::Push) => self.read_push(place_of(sexp), args_of(sexp)),
            Some(Order::Pop) => read_alone(Kind::Pop, place_of(sexp), args_of(sexp)),
            Some(Order::Prompt) => read_alone(Kind::Prompt, place_of(sexp), args_of(sexp)),
            Some(Order::Define) => self.read_definition(place_of(sexp), args_of(sexp)),
            None => self.read_goal(sexp),
        }
    }

    fn read_goal(&mut self, sexp: &'e Sexp) -> Result<Kind, FormStop>
        ensures { ReadsIn self.old.terms self.new.terms result (goal_of sexp.now) }
    {
        let goal = self.read_formula(sexp)?;
        Ok(Kind::Goal(goal))
    }

    fn read_push(&mut self, place: u64, parts: &'e [Sexp]) -> Result<Kind, FormStop>
        ensures { ReadsIn self.old.terms self.new.terms result (pushed place parts.now) }
    {
        if parts.len() == 0 {
            return Err(refusal(FormKind::WrongCount, place));
        }
        let formulas = self.read_formulas(parts)?;
        Ok(Kind::Push(formulas))
    }

    fn read_definition(&mut self, place: u64, parts: &'e [Sexp]) -> Result<Kind, FormStop>
        ensures { ReadsIn self.old.terms self.new.terms result (defined place parts.now) }
    {
        let [signature, bodies @ ..] = parts else {
            return Err(refusal(FormKind::WrongCount, place));
        };
        if bodies.len() > 1 {
            return Err(refusal(FormKind::WrongCount, place));
        }
        let named = self.read_named(signature)?;
        let count = self.terms.read_declared(args_of(signature))?;
        let kind = self.read_meaning(named, count, bodies)?;
        self.terms.leave(count);
        Ok(kind)
    }

    /// The name of the predicate that a list defines.
    fn read_named(&mut self, sexp: &Sexp) -> Result<Named, FormStop>
        ensures { ReadsIn self.old.terms self.new.terms result (named sexp.now) }
    {
        let place = place_of(sexp);
        match sexp {
            Sexp::List(_, items) => self.read_named_list(place, items.as_slice()),
            Sexp::Bare(_, _) => Err(refusal(FormKind::NotAFormula, place)),
            Sexp::Barred(_, _) => Err(refusal(FormKind::NotAFormula, place)),
        }
    }

    fn read_named_list(&mut self, place: u64, items: &[Sexp]) -> Result<Named, FormStop>
        ensures { ReadsIn self.old.terms self.new.terms result (named_list place items.now) }
    {
        let [head, ..] = items else {
            return Err(refusal(FormKind::NotAFormula, place));
        };
        if !is_name(self.terms.token_of(head)) {
            return Err(refusal(FormKind::NotAFormula, place));
        }
        let name = self.terms.read_symbol(place_of(head), text_of(head))?;
        Ok(Named {
            name,
            place: place_of(head),
        })
    }

    /// What the predicate means, where that is said: so many variables are in scope.
    fn read_meaning(
        &mut self,
        named: Named,
        count: usize,
        bodies: &'e [Sexp],
    ) -> Result<Kind, FormStop>
        ensures { ReadsIn self.old.terms self.new.terms result (meaning named count bodies.now) }
    {
        let [body, ..] = bodies else {
            return Ok(definition_of(named, count, None));
        };
        let body = self.read_formula(body)?;
        let rule = rule(self.terms.alloc(), named, count, body).map_err(exhausted)?;
        Ok(definition_of(named, count, Some(rule)))
    }
}
