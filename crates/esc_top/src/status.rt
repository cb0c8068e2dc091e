//! How a run ends.

ghost use Rattle.std.specs.Prelude.{◌≡◌, ◌++◌};
ghost use Rattle.esc_io.specs.Putting.{Delivers};
ghost use Rattle.esc_top.specs.Codes.{code_of};
ghost use Rattle.esc_top.specs.LastLine.{fault_line, fault_opening, kind_line, kind_text};
ghost use Rattle.esc_top.specs.LastLine.{last_line, usage_line};

use esc_io::{Failed, Sink, put_all};
use esc_sexp::{SexpFault, SexpKind};
use itoa::Buffer;

/// How a run ended.
#[derive(Clone, Copy, Debug, PartialEq, Eq)]
pub enum Status {
    /// The input was read to its end, and each report says that a goal is valid or a command
    /// carried out.
    Proved,
    /// The input was read to its end, and some report says otherwise.
    Answered,
    /// The command line has words that are not understood, and nothing was read.
    BadWords,
    /// The input has this fault.
    Syntax(SexpFault),
    /// The source failed.
    ReadFault,
    /// The sink failed.
    WriteFault,
    /// Want of memory outside a command.
    Memory,
    /// The input is longer than may be read.
    TooMuch,
}

impl Status {
    /// The code that a program ends with.
    pub fn code(&self) -> u8
        ensures { result ≡ code_of self.now }
    {
        match self {
            Status::Proved => 0,
            Status::Answered => 1,
            Status::BadWords => 2,
            Status::Syntax(_) => 3,
            Status::ReadFault => 4,
            Status::WriteFault => 5,
            Status::Memory => 6,
            Status::TooMuch => 7,
        }
    }
}

fn kind_text(kind: SexpKind) -> &'static [u8]
    ensures { result.now ≡ kind_text kind }
{
    match kind {
        SexpKind::Unclosed => b"unclosed parenthesis",
        SexpKind::StrayClose => b"stray closing parenthesis",
        SexpKind::BadByte => b"bad byte",
        SexpKind::OpenBar => b"unclosed bar",
        SexpKind::TooDeep => b"nesting too deep",
        SexpKind::TooLong => b"command too long",
    }
}

#[tactic(auto, unfolding(crate::specs::LastLine::fault_opening))]
fn fault_opening() -> &'static [u8]
    ensures { result.now ≡ fault_opening }
{
    b"Syntax fault at byte "
}

// Three texts in order.
#[tactic(auto, using(esc_io::proofs::PuttingLemmas::putting))]
fn put_three<K: Sink>(first: &[u8], second: &[u8], third: &[u8], sink: &mut K) -> Result<(), Failed>
    ensures { Delivers K.written K.faults sink.old sink.new result
        (first.now ++ (second.now ++ third.now)) }
{
    put_all(sink, first)?;
    put_all(sink, second)?;
    put_all(sink, third)
}

// What is wrong, behind its place.
#[tactic(auto, unfolding(crate::specs::LastLine::kind_line))]
fn put_kind<K: Sink>(kind: SexpKind, sink: &mut K) -> Result<(), Failed>
    ensures { Delivers K.written K.faults sink.old sink.new result (kind_line kind) }
{
    put_three(b": ", kind_text(kind), b".\n", sink)
}

#[tactic(auto, using(esc_io::proofs::PuttingLemmas::putting))]
fn put_fault<K: Sink>(fault: SexpFault, sink: &mut K) -> Result<(), Failed>
    ensures { Delivers K.written K.faults sink.old sink.new result (fault_line fault) }
{
    let mut buffer = Buffer::new();
    put_all(sink, fault_opening())?;
    put_all(sink, buffer.format(fault.place).as_bytes())?;
    put_kind(fault.kind, sink)
}

// How the program is called.
#[tactic(auto, unfolding(crate::specs::LastLine::usage_line))]
fn put_usage<K: Sink>(sink: &mut K) -> Result<(), Failed>
    ensures { Delivers K.written K.faults sink.old sink.new result usage_line }
{
    let usage = b"usage: simplify [--log] [--model] [--depth N] [--rounds N] [--facts N] \
        [--splits N] [--pivots N]\n";
    put_all(sink, usage)
}

/// Writes the last line.
pub fn put_last_line<K: Sink>(status: Status, sink: &mut K) -> Result<(), Failed>
    ensures { Delivers K.written K.faults sink.old sink.new result (last_line status) }
{
    match status {
        Status::Proved | Status::Answered | Status::WriteFault => put_all(sink, b""),
        Status::BadWords => put_usage(sink),
        Status::Syntax(fault) => put_fault(fault, sink),
        Status::ReadFault => put_all(sink, b"Read fault.\n"),
        Status::Memory => put_all(sink, b"Out of memory.\n"),
        Status::TooMuch => put_all(sink, b"Input too long.\n"),
    }
}
