//! Whole runs from a table.
//!
//! The standard input has inputs, each up to a line of `====`. The first line of an input has the
//! words of the call, with single blanks between them; the rest are the commands. Each input is run
//! over memory in one piece, in pieces of one byte and in pieces of seven. What the runs write is
//! printed, and the code that they end with; or that they differ.
#![tactic(auto)]

ghost use Rattle.std.specs.Prelude.{◌≤◌, length, IfSome};

use esc_io::{MemSink, MemSource, StdSink, StdSource, put_all};
use esc_tables::{ROOM, read_table};
use esc_top::run;
use sqlite_items::Items;
use std::alloc::{AllocError, Global};

/// What stands between two inputs.
const END: &[u8] = b"\n====\n";

/// What the runs of an input are called with.
#[derive(Drop)]
struct Call<'a> {
    words: Vec<String>,
    commands: &'a [u8],
}

/// What a run wrote, and the code that it ended with.
#[derive(Drop)]
struct Outcome {
    output: Vec<u8>,
    code: u8,
}

/// The words of a command line, of which the first is the program's name.
fn words_of(alloc: Global, line: &[u8]) -> Result<Vec<String>, AllocError> {
    let mut words = Vec::new(alloc);
    words.push(String::from_str(alloc, "simplify")?)?;
    if line.is_empty() {
        return Ok(words);
    }
    'words: for word in line.split(|byte| *byte == b' ') {
        words.push(String::from_utf8_lossy(alloc, word)?)?;
    }
    Ok(words)
}

/// The first line of an input, and what stands behind it.
fn parted(input: &[u8]) -> (&[u8], &[u8]) {
    'places: for place in 0..input.len() {
        if input[place] == b'\n' {
            return (&input[..place], &input[place + 1..]);
        }
    }
    (input, b"")
}

fn call_of(alloc: Global, input: &[u8]) -> Result<Call<'_>, AllocError> {
    let (line, commands) = parted(input);
    let words = words_of(alloc, line)?;
    Ok(Call { words, commands })
}

/// Runs a call whose commands are read in pieces of so many bytes.
fn run_in_pieces(alloc: Global, call: &Call, piece: usize) -> Result<Outcome, AllocError>
    requires { 1 ≤ piece }
{
    let commands = Items::from_slice(alloc, call.commands)?;
    let mut source = MemSource::new(commands, piece, Items::new(alloc));
    let mut sink = MemSink::new(alloc, ROOM, Items::new(alloc))?;
    let status = run(alloc, call.words.as_slice(), &mut source, &mut sink);
    Ok(Outcome {
        output: Vec::from_slice(alloc, sink.bytes())?,
        code: status.code(),
    })
}

/// Whether two runs came to the same.
fn are_alike(left: &Outcome, right: &Outcome) -> bool {
    left.code == right.code && left.output.as_slice() == right.output.as_slice()
}

/// Adds what the runs of an input come to.
fn add_outcome(alloc: Global, input: &[u8], lines: &mut Vec<u8>) -> Result<(), AllocError> {
    let call = call_of(alloc, input)?;
    let whole = run_in_pieces(alloc, &call, ROOM)?;
    let single = run_in_pieces(alloc, &call, 1)?;
    let few = run_in_pieces(alloc, &call, 7)?;
    lines.extend_from_slice(whole.output.as_slice())?;
    if !are_alike(&whole, &single) || !are_alike(&whole, &few) {
        lines.extend_from_slice(b"the runs differ\n")?;
    }
    lines.extend_from_slice(b"code ")?;
    lines.push(b'0' + whole.code % 10)?;
    lines.extend_from_slice(END)
}

/// Where the first input of the table ends. `None` where no line ends it.
fn end_of(table: &[u8]) -> Option<usize>
    ensures { IfSome result (λ end. end ≤ length table.now) }
{
    'places: for place in 0..table.len() {
        if table[place..].starts_with(END) {
            return Some(place);
        }
    }
    None
}

/// What the runs of all inputs of the table come to.
fn answer_all(alloc: Global, table: &[u8]) -> Result<Vec<u8>, AllocError> {
    let mut lines = Vec::new(alloc);
    let mut rest = table;
    'inputs: for _ in 0..ROOM {
        let Some(end) = end_of(rest) else {
            break 'inputs;
        };
        add_outcome(alloc, &rest[..end], &mut lines)?;
        let behind = &rest[end..];
        if behind.len() < END.len() {
            break 'inputs;
        }
        rest = &behind[END.len()..];
    }
    Ok(lines)
}

fn main(rt: HostRuntime) {
    let mut source = StdSource::new(rt.stdin());
    let mut sink = StdSink::new(rt.stdout());
    let Ok(table) = read_table(rt.alloc(), &mut source) else {
        return;
    };
    let Ok(lines) = answer_all(rt.alloc(), table.as_slice()) else {
        return;
    };
    let _ = put_all(&mut sink, lines.as_slice());
}
