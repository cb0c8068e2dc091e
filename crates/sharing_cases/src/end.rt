//! What ends a task.

ghost use Rattle.std.specs.Prelude.{◌≡◌, ℕ, IsTrue, Ok};

use esc_egraph::{Node, State};
use esc_simplex::Stop;
use std::alloc::{AllocError, Global};

/// Why nothing follows on a task but that all is taken back.
#[derive(Drop)]
pub enum End {
    /// There is no such task here.
    NoTask,
    /// No model makes all literals hold.
    Closed,
    /// A call was given up.
    Stopped(Stop),
}

pub fn is_open(answer: &Result<State, Stop>) -> bool
    ensures { IsTrue result → answer.now ≡ Ok State.Open }
{
    match answer {
        Ok(State::Open) => true,
        Ok(State::Closed) => false,
        Err(_) => false,
    }
}

/// What the answer of a call ends.
pub fn ended(answer: Result<State, Stop>) -> Result<(), End> {
    match answer {
        Ok(State::Open) => Ok(()),
        Ok(State::Closed) => Err(End::Closed),
        Err(stop) => Err(End::Stopped(stop)),
    }
}

/// Whether a term came in play, and all is open.
pub fn has_opened(answer: &Result<(Node, State), Stop>) -> bool
    ensures { IsTrue result → (node : ℕ) × (answer.now ≡ Ok (node, State.Open)) }
{
    match answer {
        Ok((_, State::Open)) => true,
        Ok((_, State::Closed)) => false,
        Err(_) => false,
    }
}

/// The node of a term that came in play, where all is open.
pub fn node_in(answer: Result<(Node, State), Stop>) -> Result<Node, End> {
    match answer {
        Ok((node, State::Open)) => Ok(node),
        Ok((_, State::Closed)) => Err(End::Closed),
        Err(stop) => Err(End::Stopped(stop)),
    }
}

/// The text of an end. There is none where there was no task.
pub fn end_text(alloc: Global, end: &End) -> Result<Option<String>, AllocError> {
    match end {
        End::NoTask => Ok(None),
        End::Closed => Ok(Some(String::from_str(alloc, "closed")?)),
        End::Stopped(stop) => Ok(Some(stop_text(alloc, stop)?)),
    }
}

fn stop_text(alloc: Global, stop: &Stop) -> Result<String, AllocError> {
    match stop {
        Stop::Spill(_) => String::from_str(alloc, "the rows spill"),
        Stop::Form(_) => String::from_str(alloc, "the form spills"),
        Stop::Pivots(jammed) => format!(in alloc; "more than {} pivots", jammed.limit),
        Stop::Memory => Err(AllocError),
    }
}
