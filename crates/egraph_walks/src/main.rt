//! Random walks over a graph, beside a plain model whose classes are computed anew after each call.
//!
//! Each walk goes by its seed. It makes nodes, equates and forbids pairs, and takes levels of calls
//! back. After each call all answers are compared. The seeds of walks that differ are printed, and
//! how many calls were made.
#![tactic(auto)]

mod compare;
mod dice;
mod plain;
mod walk;

use crate::walk::Walk;
use std::alloc::{AllocError, Global};
use std::io;

/// The walks have the seeds below this one.
const WALKS: u64 = 30;

/// How many levels may stand within one another.
const DEPTH: u32 = 2;

/// Whether all agreed on the walk of this seed, and how many calls it made.
fn walked(alloc: Global, seed: u64) -> (Result<bool, AllocError>, u64) {
    let mut walk = Walk::new(alloc, seed);
    let agreed = walk.level(DEPTH);
    (agreed, walk.calls())
}

fn main(rt: HostRuntime) -> io::Result<()> {
    let mut calls = 0u64;
    'walks: for seed in 0..WALKS {
        let (agreed, made) = walked(rt.alloc(), seed);
        match agreed {
            Ok(true) => (),
            Ok(false) => println!(rt; "seed {seed} differs")?,
            Err(_) => println!(rt; "seed {seed}: no memory")?,
        }
        calls = calls.saturating_add(made);
    }
    println!(rt; "{WALKS} walks of {calls} calls")
}
