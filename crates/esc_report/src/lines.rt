//! Lines: numbers and places with what stands around them.

ghost use Rattle.std.specs.Prelude.{◌++◌};
ghost use Rattle.esc_io.specs.Putting.{Delivers};
ghost use Rattle.esc_report.specs.Text.{goal_line, place_line};

use esc_io::{Failed, Sink, put_all};
use esc_print::put_number;

/// Puts three texts in order.
#[tactic(auto, using(esc_io::proofs::PuttingLemmas::putting))]
pub fn put_three<K: Sink>(
    first: &[u8],
    second: &[u8],
    third: &[u8],
    sink: &mut K,
) -> Result<(), Failed>
    ensures { Delivers K.written K.faults sink.old sink.new result
        (first.now ++ (second.now ++ third.now)) }
{
    put_all(sink, first)?;
    put_all(sink, second)?;
    put_all(sink, third)
}

/// Puts the number of a goal, and its answer.
#[tactic(auto, using(esc_io::proofs::PuttingLemmas::putting))]
pub fn put_goal_line<K: Sink>(goal: u64, answer: &[u8], sink: &mut K) -> Result<(), Failed>
    ensures { Delivers K.written K.faults sink.old sink.new result (goal_line goal answer.now) }
{
    put_number(goal, sink)?;
    put_all(sink, answer)
}

/// Puts a place behind words, and how the line goes on.
#[tactic(auto, using(esc_io::proofs::PuttingLemmas::putting))]
pub fn put_place_line<K: Sink>(
    words: &[u8],
    place: u64,
    rest: &[u8],
    sink: &mut K,
) -> Result<(), Failed>
    ensures { Delivers K.written K.faults sink.old sink.new result
        (place_line words.now place rest.now) }
{
    put_all(sink, words)?;
    put_number(place, sink)?;
    put_all(sink, rest)
}
