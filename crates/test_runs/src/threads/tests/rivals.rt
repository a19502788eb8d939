//! Two hosts and the bus at work on one object for a thousand lines each. The hosts count up, each in a part of its own, and the
//! bus sends the object and is asked for it. What each saw shows whether a change was lost or done twice.
use super::*;
use crate::runs::push;
use ccan_bus::RoundAnswer;
use ccan_object::Record;

/// How many lines each port has. IF1 has one more, which prepares the object.
const LINES: u16 = 1_000;

/// The digits of a number, in base 16.
fn digits(value: u16) -> [u8; 4] {
    [value >> 12, value >> 8, value >> 4, value].map(|shifted| b"0123456789abcdef"[usize::from(
        shifted % 16,
    )])
}

/// Adds a host's lines that write each number up to the last in turn, with these texts before and after each.
fn push_counts(rt: &impl Abort, script: &mut Vec<u8>, before: &str, behind: &str) {
    for value in 0..LINES {
        push(rt, script, before.as_bytes());
        push(rt, script, &digits(value.saturating_add(1)));
        push(rt, script, behind.as_bytes());
    }
}

/// The object is a transmit object that remote frames ask for. IF1 counts in its mask, IF2 in its first two bytes, and in
/// each round node 1 asks for it.
const IF1_PREPARES: &str = r#"{"nodes":1,"quota":4096,"tries":1000,"if1":[
    {"op":"transfer","request":"0001","set":{"cmask":"00b0","arb2":"a48c","ctrl":"0288"}}"#;

const IF1_COUNTS: &str = r#",{"op":"transfer","request":"0001","set":{"cmask":"00c0","mask1":""#;

const IF2_BEGINS: &str =
    r#"],"if2":[{"op":"transfer","request":"0001","set":{"cmask":"0082","dataa1":"0000"}}"#;

const IF2_COUNTS: &str = r#",{"op":"transfer","request":"0001","set":{"cmask":"0082","dataa1":""#;

const COUNTED: &str = r#""}}"#;

const BUS_BEGINS: &str = r#"],"bus":[{"op":"loopback","on":0}"#;

const BUS_ASKS: &str = r#",{"op":"round","send":[{"node":1,"id":291,"rtr":1}]}"#;

/// The script of all lines.
fn script_of_rivals(rt: &impl Abort, alloc: Global) -> Vec<u8> {
    let mut script = Vec::new(alloc);
    push(rt, &mut script, IF1_PREPARES.as_bytes());
    push_counts(rt, &mut script, IF1_COUNTS, COUNTED);
    push(rt, &mut script, IF2_BEGINS.as_bytes());
    push_counts(rt, &mut script, IF2_COUNTS, COUNTED);
    push(rt, &mut script, BUS_BEGINS.as_bytes());
    for _ in 0..LINES {
        push(rt, &mut script, BUS_ASKS.as_bytes());
    }
    push(rt, &mut script, b"]}");
    script
}

/// How far the record shows that IF1 and IF2 got.
fn counts_in(object: &Record) -> (u32, u32) {
    let bytes = u16::from_le_bytes([object.bytes[0], object.bytes[1]]);
    (object.mask.get(), u32::from(bytes))
}

/// Whether each write of a host counts its own up by one, and the other's never falls.
fn counts_in_turn(answers: &[LineAnswer], first: bool) -> bool {
    let mut own = 0;
    let mut other = 0;
    for answer in answers {
        if let LineAnswer::Write(_, object) = answer {
            let (if1, if2) = counts_in(object);
            let (mine, theirs) = if first { (if1, if2) } else { (if2, if1) };
            if mine != own || theirs < other {
                return false;
            }
            own = own.saturating_add(1);
            other = theirs;
        }
    }
    own == u32::from(LINES) + 1
}

/// The record that a round answers with.
fn record_of(answer: &LineAnswer) -> Option<Record> {
    match answer {
        LineAnswer::Round(RoundAnswer::Sent(_, object)) => Some(*object),
        LineAnswer::Round(RoundAnswer::Received(Some((_, object)))) => Some(*object),
        _ => None,
    }
}

/// Whether neither count ever falls in what the bus saw.
fn never_falls(answers: &[LineAnswer]) -> bool {
    let mut last = (0, 0);
    for answer in answers {
        if let Some(object) = record_of(answer) {
            let now = counts_in(&object);
            if now.0 < last.0 || now.1 < last.1 {
                return false;
            }
            last = now;
        }
    }
    true
}

#[test]
fn no_change_of_three_rivals_is_lost(rt: HostRuntime) {
    let script = script_of_rivals(&rt, rt.alloc());
    let outcome = outcome_of(&rt, rt.alloc(), script.as_slice());
    holds(&rt, counts_in_turn(&outcome.if1, true));
    holds(&rt, counts_in_turn(&outcome.if2, false));
    same(&rt, outcome.bus.len(), usize::from(LINES) + 1);
    holds(&rt, never_falls(&outcome.bus));
    let last = outcome.last;
    let counts = counts_in(&last.records[0]);
    same(&rt, counts, (u32::from(LINES), u32::from(LINES)));
}
