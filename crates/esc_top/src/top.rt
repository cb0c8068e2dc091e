//! The call that does all that the program does.

ghost use Rattle.std.specs.Prelude.{◌≡◌, ◌≢◌, map, string_bytes};
ghost use Rattle.std.specs.List.{AllZip};
ghost use Rattle.esc_io.specs.Faults.{HasCause, Rose};
ghost use Rattle.esc_io.specs.Putting.{Delivers};
ghost use Rattle.esc_top.specs.LastLine.{last_line};
ghost use Rattle.esc_top.specs.Laws.{IsSharpAt, IsSoundAt};
ghost use Rattle.esc_top.specs.Ran.{Ran};
ghost use Rattle.esc_top.specs.Underway.{EndsByCount, Meets};

use crate::input::answer_input;
use crate::laws::run_laws;
use crate::status::{Status, put_last_line};
use esc_io::{Failed, Sink, Source};
use esc_words::{WordsStop, read_words};
use std::alloc::Global;

// Writes the last line and sees that it goes on its way.
fn finish<K: Sink>(status: Status, sink: &mut K) -> Result<(), Failed>
    ensures { Delivers K.written K.faults sink.old sink.new result (last_line status) }
{
    put_last_line(status, sink)?;
    sink.flush()
}

// Reads the words and answers the input as they ask.
fn answer<S: Source, K: Sink>(
    alloc: Global,
    words: &[String],
    source: &mut S,
    sink: &mut K,
) -> Result<Status, Failed>
    ensures meets { Meets (map string_bytes words.now) (S.left source.old) (S.left source.new)
        (K.written sink.old) (K.written sink.new) result }
    ensures cause { HasCause (K.faults sink.old) (K.faults sink.new) result }
    ensures reads { EndsByCount result (S.faults source.old) (S.faults source.new) }
{
    match read_words(alloc, words) {
        Ok(options) => answer_input(alloc, options, source, sink),
        Err(WordsStop::Bad) => Ok(Status::BadWords),
        Err(WordsStop::Memory) => Ok(Status::Memory),
    }
}

/// Reads commands from the source up to its end, and writes the answers to the sink in order, as the
/// words ask. These are the words of the command line, of which the first is the program's name.
/// Where they ask for nothing, or memory is wanting to read them, nothing is read.
///
/// Which status comes exactly where is one of the laws of runs. Each answer is written and flushed
/// before more is read, and the sink is flushed at the end; no clause says so. Where source or sink
/// do not tell their bytes, only what is said of their faults holds of them.
pub fn run<S: Source, K: Sink>(
    alloc: Global,
    words: &[String],
    source: &mut S,
    sink: &mut K,
) -> Status
    // Each expression is answered in order.
    ensures ran { Ran (map string_bytes words.now) (S.left source.old) (S.left source.new)
        (K.written sink.old) (K.written sink.new)
        (S.faults source.old) (S.faults source.new) result }

    // A goal is said to be valid only where its negation is refuted with what is assumed.
    ensures sound { (ran : Ran (map string_bytes words.now) (S.left source.old)
        (S.left source.new) (K.written sink.old) (K.written sink.new)
        (S.faults source.old) (S.faults source.new) result)
        → AllZip IsSoundAt ran.progress.expressions ran.progress.told }

    // Where it and what is assumed have no arithmetic, it is said to be valid just where that is
    // refuted, unless memory or splits are wanting.
    ensures sharp { (ran : Ran (map string_bytes words.now) (S.left source.old)
        (S.left source.new) (K.written sink.old) (K.written sink.new)
        (S.faults source.old) (S.faults source.new) result)
        → AllZip (IsSharpAt ran.options.limits) ran.progress.expressions ran.progress.told }

    // A fault is told only where source or sink had one. A fault of the sink is always told, and
    // one of the source unless the sink fails behind it.
    ensures reads { result ≡ Status.ReadFault → Rose (S.faults source.old) (S.faults source.new) }
    ensures no_read_fault { result ≢ Status.ReadFault → result ≢ Status.WriteFault
        → S.faults source.new ≡ S.faults source.old }
    ensures writes { result ≡ Status.WriteFault → Rose (K.faults sink.old) (K.faults sink.new) }
    ensures no_write_fault { result ≢ Status.WriteFault → K.faults sink.new ≡ K.faults sink.old }
{
    run_laws();
    let Ok(status) = answer(alloc, words, source, sink) else {
        return Status::WriteFault;
    };
    match finish(status, sink) {
        Ok(()) => status,
        Err(Failed) => Status::WriteFault,
    }
}
