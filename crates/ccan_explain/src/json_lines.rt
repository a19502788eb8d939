//! A run as JSON: one object a line.
use crate::answer_faces::{answer_word, push_members};
use crate::contest::{controller_contends, has_lost, node_contends, round_of, winner_of};
use crate::digits::push_decimal;
use crate::json_members::{push_frame, push_name, push_number, push_record, push_word};
use crate::step::{Step, Touched};
use crate::stepping::record_of;
use crate::told::Told;
use crate::words::port_word;
use ccan_bus::{LoadAnswer, MemoryStep, RoundAnswer, RoundLine, RoundReport};
use ccan_object::{ObjectNo, Record};
use ccan_ram::Access;
use ccan_script::{Script, print_final};
use std::alloc::{AllocError, Global};

/// The name of what came of a load.
pub(crate) fn load_word(loading: &LoadAnswer) -> &'static str {
    match loading {
        LoadAnswer::Loaded(_, _) => "loaded",
        LoadAnswer::Held(_) => "held",
        LoadAnswer::Nothing => "nothing",
        LoadAnswer::Busy(_) => "busy",
        LoadAnswer::Spent(_) => "spent",
    }
}

/// The name of what came of a round.
pub(crate) fn round_word(answer: &RoundAnswer) -> &'static str {
    match answer {
        RoundAnswer::Idle => "idle",
        RoundAnswer::Sent(_, _) => "sent",
        RoundAnswer::Received(_) => "received",
        RoundAnswer::Passed => "passed",
        RoundAnswer::Collision => "collision",
        RoundAnswer::NoAck => "ack",
        RoundAnswer::Fault => "fault",
        RoundAnswer::Looped(_, _, _) => "looped",
        RoundAnswer::Busy(_) => "busy",
        RoundAnswer::Spent(_) => "spent",
    }
}

/// Appends the numbers of the objects that have a flag.
pub(crate) fn push_objects(text: &mut String, word: u64) -> Result<(), AllocError> {
    push_name(text, "objects")?;
    text.push_str("[")?;
    let mut between = "";
    for place in 0..64u32 {
        if (word >> place) % 2 == 1 {
            text.push_str(between)?;
            push_decimal(text, u64::from(place) + 1)?;
            between = ",";
        }
    }
    text.push_str("]")
}

/// Appends the nodes that lost arbitration, the controller being node 0.
fn push_lost(
    text: &mut String,
    step: &Step,
    round: &RoundLine,
    report: &RoundReport,
) -> Result<(), AllocError> {
    push_name(text, "lost")?;
    text.push_str("[")?;
    let mut between = "";
    if controller_contends(report) && has_lost(report, 0) {
        text.push_str("0")?;
        between = ",";
    }
    for (node, _) in round.sends() {
        if node_contends(step, report, *node) && has_lost(report, *node) {
            text.push_str(between)?;
            push_decimal(text, u64::from(*node))?;
            between = ",";
        }
    }
    text.push_str("]")
}

/// The name of a memory step.
fn refused_word(step: MemoryStep) -> &'static str {
    match step {
        MemoryStep::Start => "start",
        MemoryStep::Finish => "finish",
        MemoryStep::Store => "store",
    }
}

/// Appends the frame of a round, its sender, and who lost arbitration.
fn push_round(
    text: &mut String,
    step: &Step,
    round: &RoundLine,
    report: &RoundReport,
) -> Result<(), AllocError> {
    if let Some((winner, frame)) = winner_of(report) {
        push_name(text, "frame")?;
        push_frame(text, winner, &frame)?;
    }
    push_lost(text, step, round, report)?;
    if let Some(refused) = report.end.refused {
        push_word(text, "refused", refused_word(refused))?;
    }
    Ok(())
}

/// Appends an object, with its records before the line and after it.
fn push_touched(text: &mut String, name: &str, touched: &Touched) -> Result<(), AllocError> {
    push_name(text, name)?;
    text.push_str("{\"number\":")?;
    push_decimal(text, u64::from(touched.object.get()))?;
    push_record(text, "before", &touched.before)?;
    push_record(text, "after", &touched.after)?;
    text.push_str("}")
}

/// Appends the line of a step.
fn push_step(text: &mut String, script: &Script, step: &Step) -> Result<(), AllocError> {
    text.push_str("{\"port\":\"")?;
    text.push_str(port_word(step.port))?;
    text.push_str("\"")?;
    push_number(text, "line", step.line as u64)?;
    push_word(text, "answer", answer_word(&step.answer))?;
    push_members(text, &step.answer)?;
    if let Some((round, report)) = round_of(script, step) {
        push_round(text, step, round, &report)?;
    }
    if let Some(own) = &step.own {
        push_touched(text, "object", own)?;
    }
    if let Some(stored) = &step.stored {
        push_touched(text, "stored", stored)?;
    }
    text.push_str("}\n")
}

/// Appends the line of an object at the end, if a run prints it: not one that is all zero.
fn push_final(text: &mut String, object: ObjectNo, left: &Record) -> Result<(), AllocError> {
    if print_final(object, left).is_none() {
        return Ok(());
    }
    text.push_str("{\"final\":")?;
    push_decimal(text, u64::from(object.get()))?;
    push_record(text, "record", left)?;
    text.push_str("}\n")
}

/// A run as JSON: an object for each line of the script, and one for each object at the end.
pub fn json_of(alloc: Global, script: &Script, told: &Told) -> Result<String, AllocError> {
    let mut text = String::new(alloc);
    for step in told.steps.as_slice() {
        push_step(&mut text, script, step)?;
    }
    for number in 1..told.ram.profile().objects() + 1 {
        if let Some(object) = ObjectNo::new(number) {
            push_final(&mut text, object, &record_of(&told.ram, object))?;
        }
    }
    Ok(text)
}
