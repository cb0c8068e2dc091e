use esc_io::{MemSink, MemSource};
use esc_top::run;
use sqlite_items::Items;
use std::alloc::Global;
use std::test::Fail;

/// How a run goes on: the words of the command line, the bytes of one read, and which reads and
/// writes fail.
#[derive(Drop)]
struct Way<'a> {
    words: &'a [String],
    piece: usize,
    failing_reads: &'a [u64],
    failing_writes: &'a [u64],
}

impl<'a> Way<'a> {
    /// No read and no write fails.
    fn new(words: &'a [String], piece: usize) -> Way<'a> {
        Way {
            words,
            piece,
            failing_reads: &[],
            failing_writes: &[],
        }
    }
}

/// Whether a run of the input goes so that it writes the output and ends with the code.
fn runs(alloc: Global, way: &Way, input: &[u8], output: &[u8], code: u8) -> Result<bool, Fail> {
    if way.piece == 0 {
        return Err("a piece of no bytes".into());
    }
    let input = Items::from_slice(alloc, input)?;
    let reads = Items::from_slice(alloc, way.failing_reads)?;
    let writes = Items::from_slice(alloc, way.failing_writes)?;
    let mut source = MemSource::new(input, way.piece, reads);
    let mut sink = MemSink::new(alloc, 4096, writes)?;
    let status = run(alloc, way.words, &mut source, &mut sink);
    Ok(status.code() == code && sink.bytes() == output)
}

#[test]
fn the_first_goal(rt: HostRuntime) -> Result<(), Fail> {
    let alloc = rt.alloc();
    assert!(rt;
        runs(
            alloc,
            &Way::new(&[], 4096),
            b"(EQ a a)\n",
            b"1: Valid.\n",
            0
        )?
    );
    assert!(rt; runs(alloc, &Way::new(&[], 1), b"(EQ a b)", OPEN, 1)?);
    Ok(())
}

/// The program's name and the words behind it.
fn words_of(alloc: Global, behind: &[&str]) -> Result<Vec<String>, Fail> {
    let mut words = Vec::new(alloc);
    words.push(String::from_str(alloc, "simplify")?)?;
    for word in behind {
        words.push(String::from_str(alloc, word)?)?;
    }
    Ok(words)
}

#[test]
fn words_that_ask_for_something(rt: HostRuntime) -> Result<(), Fail> {
    let alloc = rt.alloc();
    let words = words_of(alloc, &[])?;
    assert!(rt;
        runs(
            alloc,
            &Way::new(&words, 4096),
            b"(EQ a a)",
            b"1: Valid.\n",
            0
        )?
    );
    let words = words_of(alloc, &["--log", "--depth=0"])?;
    assert!(rt;
        runs(
            alloc,
            &Way::new(&words, 4096),
            b"(EQ a a)",
            b"Facts:\n  0 goal: (NEQ a a)\n1: Valid.\n",
            0
        )?
    );
    Ok(())
}

const USAGE: &[u8] = b"usage: simplify [--log] [--model] [--depth N] [--rounds N] [--facts N] \
    [--splits N] [--pivots N]\n";

#[test]
fn words_that_ask_for_nothing(rt: HostRuntime) -> Result<(), Fail> {
    let alloc = rt.alloc();
    let words = words_of(alloc, &["--depth", "10"])?;
    let mut unread = Way::new(&words, 4096);
    unread.failing_reads = &[0];
    assert!(rt; runs(alloc, &unread, b"(EQ a a)", USAGE, 2)?);
    let mut unwritten = Way::new(&words, 4096);
    unwritten.failing_writes = &[0];
    assert!(rt; runs(alloc, &unwritten, b"(EQ a a)", b"", 5)?);
    Ok(())
}

#[test]
fn a_source_that_fails_at_its_second_read(rt: HostRuntime) -> Result<(), Fail> {
    let mut way = Way::new(&[], 4096);
    way.failing_reads = &[1];
    assert!(rt;
        runs(
            rt.alloc(),
            &way,
            b"(EQ a a)\n",
            b"1: Valid.\nRead fault.\n",
            4
        )?
    );
    Ok(())
}

const OPEN: &[u8] = b"Counterexample:\n  context:\n    (NEQ a b)\n1: Invalid.\n";

/// How much is written of the output where the call with this number fails. `None` where no such
/// call is made.
fn written_before(alloc: Global, call: u64) -> Result<Option<usize>, Fail> {
    let input = Items::from_slice(alloc, b"(EQ a b)\n")?;
    let mut source = MemSource::new(input, 4096, Items::new(alloc));
    let mut sink = MemSink::new(alloc, 4096, Items::from_slice(alloc, &[call])?)?;
    let status = run(alloc, &[], &mut source, &mut sink);
    if status.code() != 5 {
        return Ok(None);
    }
    if !OPEN.starts_with(sink.bytes()) {
        return Err("other bytes".into());
    }
    Ok(Some(sink.bytes().len()))
}

/// At how many of its calls a sink may fail so that this much is written.
fn calls_behind(alloc: Global, written: usize) -> Result<u32, Fail> {
    let mut calls = 0u32;
    for call in 0..100 {
        if written_before(alloc, call)? == Some(written) {
            calls = calls.saturating_add(1);
        }
    }
    Ok(calls)
}

#[test]
fn a_sink_that_fails_at_each_of_its_calls(rt: HostRuntime) -> Result<(), Fail> {
    let alloc = rt.alloc();
    assert_eq!(rt; written_before(alloc, 0)?, Some(0));
    let mut last = 0;
    for call in 0..100 {
        if written_before(alloc, call)?.is_some() {
            last = call;
        }
    }
    assert!(rt; last > 3);
    assert!(rt; last < 99);
    Ok(())
}

// Nothing is written at the first flush and the first write, and all at the second flush, behind
// the answer, and at the last.
#[test]
fn a_sink_that_fails_at_each_flush(rt: HostRuntime) -> Result<(), Fail> {
    let alloc = rt.alloc();
    assert_eq!(rt; calls_behind(alloc, 0)?, 2);
    assert_eq!(rt; calls_behind(alloc, OPEN.len())?, 2);
    Ok(())
}
