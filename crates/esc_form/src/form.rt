//! What the head of a list says where a formula, a pattern or a note is wanted.

ghost use Rattle.std.specs.Prelude.{◌≡◌};
ghost use Rattle.esc_form.specs.Forms.{bare_form, form_of, is_multi, note_of};

use esc_names::{Binder, Join, Key, Labelling, Note, Relation};
use esc_read::Token;

/// What the head of a list says where a formula is wanted.
#[derive(Clone, Copy)]
pub enum Form {
    Predicate,
    And,
    Or,
    Not,
    Join(Join),
    Bind(Binder),
    Relate(Relation),
    Distinct,
    Label(Labelling),
    /// It belongs to a quantifier.
    Misplaced,
    Other,
}

/// What a token without bars says where a formula is wanted.
#[derive(Clone, Copy)]
pub enum BareForm {
    Predicate,
    True,
    False,
    Other,
}

pub(crate) fn form_of(token: Token) -> Form
    ensures { result ≡ form_of token }
{
    match token {
        Token::Name => Form::Predicate,
        Token::Numeral | Token::List => Form::Other,
        Token::Word(key) => form_of_key(key),
    }
}

fn form_of_key(key: Key) -> Form
    ensures { result ≡ form_of (Token.Word key) }
{
    match key {
        Key::And => Form::And,
        Key::Or => Form::Or,
        Key::Not => Form::Not,
        Key::Join(join) => Form::Join(join),
        Key::Bind(binder) => Form::Bind(binder),
        Key::Relate(relation) => Form::Relate(relation),
        Key::Distinct => Form::Distinct,
        Key::Label(labelling) => Form::Label(labelling),
        Key::Note(_) | Key::MultiPattern => Form::Misplaced,
        Key::True | Key::False | Key::Calculate(_) | Key::Command(_) | Key::Unused => Form::Other,
    }
}

pub(crate) fn bare_form(token: Token) -> BareForm
    ensures { result ≡ bare_form token }
{
    match token {
        Token::Name => BareForm::Predicate,
        Token::Word(Key::True) => BareForm::True,
        Token::Word(Key::False) => BareForm::False,
        _ => BareForm::Other,
    }
}

/// Whether the head of a list makes it a pattern of several terms.
pub(crate) fn is_multi(token: Token) -> bool
    ensures { result ≡ is_multi token }
{
    matches!(token, Token::Word(Key::MultiPattern))
}

/// The note that the head of a list makes it.
pub(crate) fn note_of(token: Token) -> Option<Note>
    ensures { result ≡ note_of token }
{
    match token {
        Token::Word(Key::Note(note)) => Some(note),
        _ => None,
    }
}
