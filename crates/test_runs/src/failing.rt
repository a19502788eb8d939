//! Readers and writers that fail at each place of a stream, and those that give or take little at each call.
ghost use Rattle.std.specs.Prelude.{◌≤◌};

use crate::faulty::{FAULTS, Fault, Late, Spaces, failing_sheet, new_sheet};
use crate::runs::{holds, pieces, run};
use crate::streams::{sent, spent, write};
use ccan_run::RunError;
use ccan_script::ScriptError;
use std::alloc::Global;
use std::process::Abort;

/// What is reported if a reader meets this fault within a script.
fn told(fault: Fault) -> RunError {
    match fault {
        Fault::Nothing => RunError::Script(ScriptError::NotJson),
        Fault::Fails(_) => RunError::Read,
    }
}

/// Runs a script whose reader meets a fault after so many calls. The fault is reported and not met again, and nothing is written;
/// one that comes after the last byte and gives nothing is the end of the input. Up to the fault each call works, so with one
/// that comes last, the whole script is read in steps of so many bytes.
fn fails_to_read(
    rt: &impl Abort,
    alloc: Global,
    (script, text): (&str, &str),
    step: usize,
    calls: usize,
    fault: Fault,
) {
    let mut out = new_sheet(4096);
    let mut reader = pieces(script, step, calls, Some(fault));
    let got = run(alloc, &mut reader, &mut out);
    if reader.rest.is_empty() && matches!(fault, Fault::Nothing) {
        holds(rt, script, got, &out, Ok(()), text.as_bytes());
    } else {
        holds(rt, script, got, &out, Err(told(fault)), b"");
    }
}

/// The same after each number of calls.
fn fails_to_read_anywhere(
    rt: &impl Abort,
    alloc: Global,
    row: (&str, &str),
    step: usize,
    fault: Fault,
)
    requires { 1 ≤ step }
{
    // So many calls give the bytes and show their end.
    let enough = row.0.len().div_ceil(step).saturating_add(1);
    for calls in 0..enough {
        fails_to_read(rt, alloc, row, step, calls, fault);
    }
}

#[test]
fn stops_where_a_read_fails(rt: HostRuntime) {
    for fault in FAULTS {
        for step in [1, 64] {
            fails_to_read_anywhere(&rt, rt.alloc(), write(), step, fault);
            fails_to_read_anywhere(&rt, rt.alloc(), spent(), step, fault);
            fails_to_read_anywhere(&rt, rt.alloc(), sent(), step, fault);
        }
    }
}

/// Runs a script that begins with two million spaces, and whose reader meets a fault after them. The fault is reported and not
/// met again, and nothing is written.
fn fails_to_read_late(rt: &impl Abort, alloc: Global, fault: Fault) {
    let mut out = new_sheet(4096);
    let mut reader = Late {
        spaces: Spaces { left: 2_000_000 },
        then: pieces(write().0, 64, 0, Some(fault)),
    };
    let got = run(alloc, &mut reader, &mut out);
    holds(rt, "spaces", got, &out, Err(told(fault)), b"");
}

#[test]
fn stops_where_a_late_read_fails(rt: HostRuntime) {
    for fault in FAULTS {
        fails_to_read_late(&rt, rt.alloc(), fault);
    }
}

/// A read that gives nothing ends the input, whatever would come after it: here a bracket that would spoil the script.
#[test]
fn reads_no_further_than_the_end(rt: HostRuntime) {
    let both =
        r#"{"if1":[{"op":"transfer","request":"0001","set":{"cmask":"0090","ctrl":"0080"}}]}]"#;
    let step = both.len().saturating_sub(1);
    let mut reader = pieces(both, step, 1, Some(Fault::Nothing));
    let mut out = new_sheet(4096);
    let got = run(rt.alloc(), &mut reader, &mut out);
    let text =
        "if1 write 01 00000000 00000000 0080 0000000000000000\nfinal 01 00000000 00000000 0080 0000000000000000\n";
    holds(&rt, both, got, &out, Ok(()), text.as_bytes());
    assert!(rt; reader.rest == b"]".as_slice());
}

/// Runs a script whose writer takes so many bytes a call, and meets a fault after so many bytes: exactly those went out.
fn fails_to_write(
    rt: &impl Abort,
    alloc: Global,
    (script, text): (&str, &str),
    step: usize,
    room: usize,
    fault: Fault,
) {
    let mut out = failing_sheet(step, room, Some(fault));
    let got = run(alloc, &mut script.as_bytes(), &mut out);
    let (front, _) = text.as_bytes().split_at(room.min(text.len()));
    holds(rt, script, got, &out, Err(RunError::Write), front);
}

/// The same after each number of bytes that is so far from the one before.
fn fails_to_write_anywhere(
    rt: &impl Abort,
    alloc: Global,
    row: (&str, &str),
    step: usize,
    apart: usize,
    fault: Fault,
)
    requires { 1 ≤ apart }
{
    for room in (0..row.1.len()).step_by(apart) {
        fails_to_write(rt, alloc, row, step, room, fault);
    }
}

/// A write that fails or takes nothing is reported and not tried again.
#[test]
fn writes_a_prefix_where_a_write_fails(rt: HostRuntime) {
    for fault in FAULTS {
        fails_to_write_anywhere(&rt, rt.alloc(), write(), 5, 1, fault);
        fails_to_write_anywhere(&rt, rt.alloc(), spent(), 5, 1, fault);
        fails_to_write_anywhere(&rt, rt.alloc(), sent(), 4096, 29, fault);
    }
}
