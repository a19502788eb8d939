//! A script of as many lines as one may have, in order and in threads. Each host writes an object of its own, so it comes to one
//! text. If a writer takes all that it is given, there is at most one `write` for each 65,457 bytes, and one for the rest: 4 for
//! this text of 244,098 bytes.
use crate::expect::{holds, same};
use crate::faulty::Counting;
use crate::runs::{repeated, run};
use crate::threads::outcome_of;
use ccan_run::{Outcome, print_outcome};
use std::alloc::Global;
use std::process::Abort;

/// The script, by its parts.
const SCRIPT: [(&str, usize); 8] = [
    (r#"{"quota":4096,"if1":["#, 1),
    (
        r#"{"op":"transfer","request":"0001","set":{"cmask":"0090","ctrl":"0080"}},"#,
        1999,
    ),
    (
        r#"{"op":"transfer","request":"0001","set":{"cmask":"0090","ctrl":"0080"}}],"if2":["#,
        1,
    ),
    (
        r#"{"op":"transfer","request":"0002","set":{"cmask":"0090","ctrl":"0080"}},"#,
        1999,
    ),
    (
        r#"{"op":"transfer","request":"0002","set":{"cmask":"0090","ctrl":"0080"}}],"bus":["#,
        1,
    ),
    (r#"{"op":"status"},"#, 1999),
    (r#"{"op":"status"}]}"#, 1),
    ("\n", 1),
];

/// What it prints.
const TEXT: [(&str, usize); 5] = [
    (
        "if1 write 01 00000000 00000000 0080 0000000000000000\n",
        2000,
    ),
    (
        "if2 write 02 00000000 00000000 0080 0000000000000000\n",
        2000,
    ),
    ("bus status 0000\n", 2000),
    ("final 01 00000000 00000000 0080 0000000000000000\n", 1),
    ("final 02 00000000 00000000 0080 0000000000000000\n", 1),
];

#[test]
fn six_thousand_lines_run_in_order(rt: HostRuntime) {
    let script = repeated(&rt, rt.alloc(), &SCRIPT);
    let want = repeated(&rt, rt.alloc(), &TEXT);
    let mut text: Vec<u8> = Vec::new(rt.alloc());
    let got = run(rt.alloc(), &mut script.as_slice(), &mut text);
    same(&rt, (got, text.len()), (Ok(()), 244_098));
    holds(&rt, text.as_slice() == want.as_slice());
    let mut out = Counting { calls: 0 };
    let got = run(rt.alloc(), &mut script.as_slice(), &mut out);
    same(&rt, got, Ok(()));
    holds(&rt, out.calls <= 4);
}

/// Prints an outcome in so many calls at most.
fn prints_in_calls(rt: &impl Abort, outcome: &Outcome, most: usize) {
    let mut out = Counting { calls: 0 };
    same(rt, print_outcome(outcome, &mut out), Ok(()));
    holds(rt, out.calls <= most);
}

/// The text of an outcome.
fn text_of(rt: &impl Abort, alloc: Global, outcome: &Outcome) -> Vec<u8> {
    let mut text = Vec::new(alloc);
    same(rt, print_outcome(outcome, &mut text), Ok(()));
    text
}

/// If there is nothing to print, nothing is written.
#[test]
fn six_thousand_lines_run_in_threads(rt: HostRuntime) {
    let script = repeated(&rt, rt.alloc(), &SCRIPT);
    let want = repeated(&rt, rt.alloc(), &TEXT);
    let outcome = outcome_of(&rt, rt.alloc(), script.as_slice());
    holds(
        &rt,
        text_of(&rt, rt.alloc(), &outcome).as_slice() == want.as_slice(),
    );
    prints_in_calls(&rt, &outcome, 4);
    prints_in_calls(&rt, &outcome_of(&rt, rt.alloc(), b"{}"), 0);
}
