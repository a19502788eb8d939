use super::*;
use crate::expect::{holds, same};
use crate::runs::read;

mod callers;
mod rivals;
mod scripts;

use ccan_ram::{PortName, SharedRam};
use ccan_run::{FreeGate, Gate, Outcome, RunError, print_outcome, read_input, run_threads};
use ccan_script::{LineAnswer, Script};
use ccan_words::{RootRam, WordRam};
use std::alloc::Global;
use std::process::Abort;
use std::sync::Wait;
use std::thread::Threads;

/// What a script comes to in threads over a memory, with a gate.
fn run_script<R: SharedRam + Sync + Drop, G: Gate + Copy + Sync, T: Threads + Wait + Sync>(
    rt: &T,
    alloc: Global,
    script: &Script,
    gate: &G,
) -> Result<Outcome, RunError> {
    run_threads::<R, G, T>(rt, alloc, script, gate)
}

/// The script that these bytes are.
fn read_bytes(rt: &impl Abort, alloc: Global, bytes: &[u8]) -> Script {
    let mut input = bytes;
    let Ok(script) = read_input(alloc, &mut input) else {
        panic!(rt; "no script")
    };
    script
}

/// What a script comes to in threads, from its bytes on.
pub fn outcome_of<T: Threads + Wait + Abort + Sync>(
    rt: &T,
    alloc: Global,
    bytes: &[u8],
) -> Outcome {
    let script = read_bytes(rt, alloc, bytes);
    match run_script::<WordRam, FreeGate, T>(rt, alloc, &script, &FreeGate) {
        Ok(outcome) => outcome,
        Err(_) => panic!(rt; "no outcome"),
    }
}

/// What a script comes to in threads over a memory, with a gate, from its text on.
fn run_gated<R: SharedRam + Sync + Drop, G: Gate + Copy + Sync, T: Threads + Wait + Abort + Sync>(
    rt: &T,
    alloc: Global,
    text: &str,
    gate: &G,
) -> Result<Outcome, RunError> {
    let script = read(rt, alloc, text);
    run_script::<R, G, T>(rt, alloc, &script, gate)
}

/// Holds what is printed of an outcome to a text.
fn prints(rt: &impl Abort, alloc: Global, outcome: &Outcome, want: &str) {
    let mut text: Vec<u8> = Vec::new(alloc);
    same(rt, print_outcome(outcome, &mut text), Ok(()));
    holds(rt, text.as_slice() == want.as_bytes());
}

/// Holds what a script comes to in threads over a memory, with a gate, to a text.
fn comes_to<R: SharedRam + Sync + Drop, G: Gate + Copy + Sync, T: Threads + Wait + Abort + Sync>(
    rt: &T,
    alloc: Global,
    (script, want): (&str, &str),
    gate: &G,
) {
    match run_gated::<R, G, T>(rt, alloc, script, gate) {
        Ok(outcome) => prints(rt, alloc, &outcome, want),
        Err(why) => same(rt, (script, Some(why)), (script, None)),
    }
}

/// Holds why a script in threads over a memory, with a gate, comes to nothing.
fn refuses<R: SharedRam + Sync + Drop, G: Gate + Copy + Sync, T: Threads + Wait + Abort + Sync>(
    rt: &T,
    alloc: Global,
    script: &str,
    gate: &G,
    want: RunError,
) {
    let got = run_gated::<R, G, T>(rt, alloc, script, gate);
    same(rt, (script, got.err()), (script, Some(want)));
}
