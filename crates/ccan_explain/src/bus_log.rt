//! The frames of a run as a log that can-utils reads.
use crate::digits::push_decimal;
use crate::frame_text::push_frame;
use crate::told::Told;
use ccan_accept::Frame;
use ccan_bus::{Decision, RoundReport};
use std::alloc::{AllocError, Global};

/// The frame that the nodes of the bus received in a round: one that was sent and acknowledged, not in loop back mode.
pub fn frame_received(report: &RoundReport) -> Option<Frame> {
    match report.decision {
        Some(Decision::Finish(_, frame)) => Some(frame),
        Some(Decision::Receipt(_, frame)) => Some(frame),
        Some(Decision::Passed(_, frame)) => Some(frame),
        None
        | Some(Decision::Idle)
        | Some(Decision::Collision)
        | Some(Decision::Fault(_, _))
        | Some(Decision::NoAck(_, _))
        | Some(Decision::LoopBack(_, _)) => None,
    }
}

/// Appends zeros before a number, so that it has ten digits.
fn push_zeros(text: &mut String, value: u64) -> Result<(), AllocError> {
    let mut least = 1_000_000_000u64;
    for _ in 0..9 {
        if value < least {
            text.push_str("0")?;
        }
        least /= 10;
    }
    Ok(())
}

/// Appends the line of a frame in the round of this number.
fn push_line(text: &mut String, round: u64, frame: &Frame) -> Result<(), AllocError> {
    text.push_str("(")?;
    push_zeros(text, round)?;
    push_decimal(text, round)?;
    text.push_str(".000000) can0 ")?;
    push_frame(text, frame)?;
    text.push_str("\n")
}

/// The frames that were sent well, as `candump -L` writes them. The time counts rounds: its seconds are how many rounds came
/// before.
pub fn log_of(alloc: Global, told: &Told) -> Result<String, AllocError> {
    let mut text = String::new(alloc);
    let mut rounds = 0u64;
    for step in told.steps.as_slice() {
        if let Some(report) = &step.report {
            if let Some(frame) = frame_received(report) {
                push_line(&mut text, rounds, &frame)?;
            }
            rounds = rounds.saturating_add(1);
        }
    }
    Ok(text)
}
