//! The prover as a program: it reads commands from the standard input and writes their answers to
//! the standard output.
#![tactic(auto)]

use esc_io::{StdSink, StdSource};
use std::env::Env;
use std::process::ExitCode;
use std::{env, io};

/// Want of memory in taking the words.
const OUT_OF_MEMORY: u8 = 6;

/// A word that is no text.
const NO_TEXT: u8 = 8;

/// The words of the command line, of which the first is the program's name.
fn words_of<R: Env + AllocGlobal>(rt: &R) -> io::Result<Vec<String>> {
    let mut words = Vec::new(rt.alloc());
    for word in env::args(rt)? {
        words.push(word)?;
    }
    Ok(words)
}

fn main(rt: HostRuntime) -> ExitCode {
    match words_of(&rt) {
        Ok(words) => {
            let mut source = StdSource::new(rt.stdin());
            let mut sink = StdSink::new(rt.stdout());
            let status = esc_top::run(rt.alloc(), &words, &mut source, &mut sink);
            ExitCode::from(status.code())
        }
        Err(error) if error.kind() == io::ErrorKind::OutOfMemory => ExitCode::from(OUT_OF_MEMORY),
        Err(_) => ExitCode::from(NO_TEXT),
    }
}
