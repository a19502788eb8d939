//! Writers that fail at each place of what a run in threads came to.
use crate::faulty::{FAULTS, Fault, failing_sheet};
use crate::runs::holds;
use crate::streams::each_port;
use crate::threads::outcome_of;
use ccan_run::{Outcome, RunError, print_outcome};
use std::process::Abort;

/// Prints an outcome whose writer takes so many bytes a call, and meets a fault after so many bytes: exactly those went out.
fn fails_to_print(
    rt: &impl Abort,
    outcome: &Outcome,
    text: &str,
    step: usize,
    room: usize,
    fault: Fault,
) {
    let mut out = failing_sheet(step, room, Some(fault));
    let got = print_outcome(outcome, &mut out);
    let (front, _) = text.as_bytes().split_at(room.min(text.len()));
    if room < text.len() {
        holds(rt, text, got, &out, Err(RunError::Write), front);
    } else {
        holds(rt, text, got, &out, Ok(()), front);
    }
}

/// A write that fails or takes nothing is reported and not tried again, wherever it comes. If it would come after the text, the
/// text is whole.
#[test]
fn prints_a_prefix_where_a_write_fails(rt: HostRuntime) {
    let (script, text) = each_port();
    let outcome = outcome_of(&rt, rt.alloc(), script.as_bytes());
    for fault in FAULTS {
        for room in 0..=text.len() {
            fails_to_print(&rt, &outcome, text, 7, room, fault);
        }
    }
}
