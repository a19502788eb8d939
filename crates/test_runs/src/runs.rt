//! What tests do with scripts. These functions promise nothing, so the proof of a test has no more to carry than its own
//! lines.
use crate::expect::same;
use crate::faulty::{Fault, Pieces, Sheet};
use ccan_object::ObjectNo;
use ccan_run::{RunError, run_stream};
use ccan_script::{Script, read_script};
use std::alloc::Global;
use std::io::{Read, Write};
use std::process::Abort;

/// The script that a text is.
pub fn read(rt: &impl Abort, alloc: Global, text: &str) -> Script {
    let Ok(script) = read_script(alloc, text.as_bytes()) else {
        panic!(rt; "no script")
    };
    script
}

/// The object of this number.
pub fn object_no(rt: &impl Abort, number: u8) -> ObjectNo {
    let Some(object) = ObjectNo::new(number) else {
        panic!(rt; "no object")
    };
    object
}

/// Runs what a reader gives.
pub fn run<R: Read, W: Write>(alloc: Global, reader: &mut R, out: &mut W) -> Result<(), RunError> {
    run_stream(alloc, reader, out)
}

/// Holds how a run ended, and all that it wrote, to what was wanted.
pub fn holds(
    rt: &impl Abort,
    script: &str,
    got: Result<(), RunError>,
    out: &Sheet,
    want: Result<(), RunError>,
    text: &[u8],
) {
    same(rt, (script, got), (script, want));
    let is_all = out.taken.as_slice() == text;
    same(rt, (script, is_all), (script, true));
}

/// A reader of a script that gives so many bytes a call, and meets a fault after so many calls.
pub fn pieces(script: &str, step: usize, calls: usize, fault: Option<Fault>) -> Pieces<'_> {
    Pieces {
        rest: script.as_bytes(),
        step,
        calls,
        fault,
    }
}

/// Adds a text to a script.
pub fn push(rt: &impl Abort, script: &mut Vec<u8>, text: &[u8]) {
    if script.extend_from_slice(text).is_err() {
        panic!(rt; "no memory");
    }
}

/// Texts one after another, each so many times.
pub fn repeated(rt: &impl Abort, alloc: Global, parts: &[(&str, usize)]) -> Vec<u8> {
    let mut all = Vec::new(alloc);
    for (text, times) in parts {
        for _ in 0..*times {
            push(rt, &mut all, text.as_bytes());
        }
    }
    all
}
