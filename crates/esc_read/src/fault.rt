//! Why an expression is no command.

ghost use Rattle.std.specs.Prelude.{◌≡◌};

use std::alloc::AllocError;
use thiserror::Error;

/// What is wrong with an expression.
#[derive(Clone, Copy, Debug, PartialEq, Eq)]
pub enum FormKind {
    /// A list has another number of arguments than its head takes.
    WrongCount,
    /// A formula is wanted, and something else stands there.
    NotAFormula,
    /// A term, a variable or a label is wanted, and something else stands there.
    NotATerm,
    /// A numeral is past 2^63 - 1 in absolute value.
    NumberTooLarge,
    /// A name begins as those do that the prover makes.
    ReservedName,
    /// A variable stands twice in one list.
    DuplicateVariable,
    /// A note or a pattern stands where a formula is wanted.
    MisplacedPattern,
    /// An empty list stands where something is wanted.
    EmptyList,
}

/// The first thing that is wrong with an expression, and the place of its first byte.
#[derive(Clone, Copy, Debug, PartialEq, Eq)]
pub struct FormFault {
    pub kind: FormKind,
    pub place: u64,
}

/// Why an expression is not read.
#[derive(Debug, Drop, Error)]
pub enum FormStop {
    #[error("the expression is no command")]
    Fault(FormFault),
    #[error("out of memory")]
    Memory,
}

/// The refusal of this kind at this place.
pub fn refusal(kind: FormKind, place: u64) -> FormStop
    ensures { result ≡ FormStop.Fault (record { kind = kind; place = place }) }
{
    FormStop::Fault(FormFault { kind, place })
}

/// Want of memory.
pub(crate) fn exhausted(_: AllocError) -> FormStop
    ensures { result ≡ FormStop.Memory }
{
    FormStop::Memory
}
