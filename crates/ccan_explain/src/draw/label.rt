//! What is in the lane of a step.
use crate::answer_faces::push_label;
use crate::{Step, push_decimal};
use ccan_bus::{Decision, LoadAnswer, RoundAnswer, RoundReport};
use ccan_object::ObjectNo;
use std::alloc::{AllocError, Global};

/// Appends words and the number of an object, in two digits.
pub fn push_object(text: &mut String, words: &str, object: ObjectNo) -> Result<(), AllocError> {
    text.push_str(words)?;
    text.push_str(" ")?;
    push_decimal(text, u64::from(object.get() / 10))?;
    push_decimal(text, u64::from(object.get() % 10))
}

/// Appends the node that sent the frame of a round; the controller is node 0.
fn push_sender(text: &mut String, node: u8) -> Result<(), AllocError> {
    if node == 0 {
        return text.push_str("from the chip");
    }
    text.push_str("from node ")?;
    push_decimal(text, u64::from(node))
}

/// What came of the frame of a round, if no object has to do with it.
fn fate(report: &RoundReport) -> &'static str {
    match report.decision {
        None => "no frame: load given up",
        Some(Decision::Idle) => "no frame",
        Some(Decision::Collision) => "collision",
        Some(Decision::Fault(_, _)) => ", spoiled",
        Some(Decision::NoAck(_, _)) => ", not acknowledged",
        Some(Decision::Passed(_, _)) => ", chip bus off",
        Some(Decision::Finish(_, _))
        | Some(Decision::Receipt(_, _))
        | Some(Decision::LoopBack(_, _)) => "",
    }
}

/// Appends which object a frame came from or went to.
pub(crate) fn push_end(text: &mut String, answer: &RoundAnswer) -> Result<(), AllocError> {
    match answer {
        RoundAnswer::Sent(object, _) => push_object(text, ", object", *object),
        RoundAnswer::Received(Some((object, _))) => push_object(text, ", stored in", *object),
        RoundAnswer::Received(None) => text.push_str(", stored nowhere"),
        RoundAnswer::Looped(object, _, stored) => {
            push_object(text, ", object", *object)?;
            match stored {
                Some((stored, _)) => push_object(text, "\nstored in", *stored),
                None => text.push_str("\nstored nowhere"),
            }
        }
        RoundAnswer::Busy(object) => push_object(text, "\nbusy", *object),
        RoundAnswer::Spent(object) => push_object(text, "\nspent", *object),
        RoundAnswer::Idle
        | RoundAnswer::Passed
        | RoundAnswer::Collision
        | RoundAnswer::NoAck
        | RoundAnswer::Fault => Ok(()),
    }
}

/// Appends the label of a round.
fn push_round(text: &mut String, report: &RoundReport) -> Result<(), AllocError> {
    if let Some(decision) = &report.decision {
        if let Some((node, _)) = decision.winner() {
            push_sender(text, node)?;
        }
    }
    text.push_str(fate(report))?;
    push_end(text, &report.end.answer)
}

/// Appends the label of a load.
pub(crate) fn push_load(text: &mut String, loading: &LoadAnswer) -> Result<(), AllocError> {
    match loading {
        LoadAnswer::Loaded(object, _) => push_object(text, "load", *object),
        LoadAnswer::Held(object) => push_object(text, "load: held", *object),
        LoadAnswer::Nothing => text.push_str("load: nothing"),
        LoadAnswer::Busy(object) => push_object(text, "load: busy", *object),
        LoadAnswer::Spent(object) => push_object(text, "load: spent", *object),
    }
}

/// The label of a step of a run.
pub fn label_of(alloc: Global, step: &Step) -> Result<String, AllocError> {
    let mut text = String::new(alloc);
    match &step.report {
        Some(report) => push_round(&mut text, report)?,
        None => push_label(&mut text, &step.answer)?,
    }
    Ok(text)
}
