//! What the prover answers to a command.

use esc_fact::Facts;
use esc_outcome::Counterexample;
use esc_read::FormKind;
use esc_term::Formulas;
use esc_verdict::Cause;

/// Why a command is not carried out.
#[derive(Clone, Copy, Debug, PartialEq, Eq)]
pub enum Refusal {
    /// The expression is no command, and this is the first thing that is wrong with it.
    Form(FormKind),
    /// No push is in force.
    NothingToPop,
    /// A rule for this predicate is in force.
    Redefined,
}

/// The answer to a command. Goals are numbered from 1.
#[derive(Drop)]
pub enum Report {
    /// The facts of the log, of which these are the formulas, are refuted.
    Valid {
        goal: u64,
        log: Facts,
        formulas: Formulas,
    },
    Invalid {
        goal: u64,
        found: Counterexample,
    },
    /// The search stopped.
    Unknown {
        goal: u64,
        cause: Cause,
    },
    /// The place is that of the first byte of what is wrong, of the name of a predicate that is
    /// defined already, or of the command where there is nothing to pop.
    Refused {
        place: u64,
        why: Refusal,
    },
    /// Want of memory. The goal is told where the command was read as one.
    Memory {
        goal: Option<u64>,
        place: u64,
    },
    /// The command is carried out, and nothing is to be said.
    Done,
}
