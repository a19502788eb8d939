//! The answers to lines for people.
use crate::answer_faces::push_words;
use crate::contest::round_of;
use crate::digits::{push_decimal, push_hex};
use crate::record_words::{push_flags, push_if, push_record, push_touched};
use crate::round_words::push_round;
use crate::step::Step;
use crate::words::{code_word, flag_word, port_word, state_word};
use ccan_bus::LoadAnswer;
use ccan_confine::NodeState;
use ccan_object::{ObjectNo, Profile, Record};
use ccan_ram::Flag;
use ccan_script::Script;
use std::alloc::AllocError;

/// Appends words and the number of an object.
fn push_object(text: &mut String, words: &str, object: ObjectNo) -> Result<(), AllocError> {
    text.push_str(words)?;
    text.push_str(" object ")?;
    push_decimal(text, u64::from(object.get()))
}

/// Appends a transfer: the registers as it left them, and the flags of the object.
pub(crate) fn push_transfer(
    text: &mut String,
    step: &Step,
    words: &str,
    object: ObjectNo,
    shown: &Record,
) -> Result<(), AllocError> {
    push_object(text, words, object)?;
    text.push_str(": ")?;
    push_record(text, shown)?;
    match &step.own {
        Some(own) => push_flags(text, &own.before, &own.after),
        None => Ok(()),
    }
}

/// Appends a wait for a flag.
pub(crate) fn push_until(
    text: &mut String,
    object: ObjectNo,
    flag: Flag,
    shown: bool,
) -> Result<(), AllocError> {
    push_object(text, " until", object)?;
    text.push_str(" shows ")?;
    text.push_str(flag_word(flag))?;
    text.push_str(if shown { ": yes" } else { ": no" })
}

/// Appends the interrupt value and what it names.
pub(crate) fn push_interrupt(text: &mut String, value: u16) -> Result<(), AllocError> {
    text.push_str(" interrupt ")?;
    push_hex(text, 4, u64::from(value))?;
    if value == 0 {
        return text.push_str(": none");
    }
    if value == 0x8000 {
        return text.push_str(": status");
    }
    text.push_str(": object ")?;
    push_decimal(text, u64::from(value))
}

/// Appends a flag of all objects: the numbers of those that have it.
pub(crate) fn push_word(
    text: &mut String,
    flag: Flag,
    word: u64,
    profile: Profile,
) -> Result<(), AllocError> {
    text.push_str(" flags ")?;
    text.push_str(flag_word(flag))?;
    text.push_str(if word == 0 {
        ": no object"
    } else {
        ": objects"
    })?;
    for place in 0..profile.objects() {
        if (word >> place) % 2 == 1 {
            text.push_str(" ")?;
            push_decimal(text, u64::from(place) + 1)?;
        }
    }
    Ok(())
}

/// Appends what came of a load.
pub(crate) fn push_load(
    text: &mut String,
    step: &Step,
    loading: &LoadAnswer,
) -> Result<(), AllocError> {
    match loading {
        LoadAnswer::Loaded(_, _) => match &step.own {
            Some(own) => push_touched(text, " load", own),
            None => Ok(()),
        },
        LoadAnswer::Held(object) => {
            push_object(text, " load", *object)?;
            text.push_str(": it is loaded already")
        }
        LoadAnswer::Nothing => text.push_str(" load: nothing to send"),
        LoadAnswer::Busy(object) => {
            push_object(text, " load", *object)?;
            text.push_str(": given up, each try was lost")
        }
        LoadAnswer::Spent(object) => {
            push_object(text, " load", *object)?;
            text.push_str(": given up, the quota of changes is used up")
        }
    }
}

/// Appends the Status register, bit by bit (C_CAN User's Manual 1.2, "Status Register").
pub(crate) fn push_status(text: &mut String, word: u16) -> Result<(), AllocError> {
    text.push_str(" status ")?;
    push_hex(text, 4, u64::from(word))?;
    text.push_str(":")?;
    push_if(text, (word >> 7) % 2 == 1, " BOff")?;
    push_if(text, (word >> 6) % 2 == 1, " EWarn")?;
    push_if(text, (word >> 5) % 2 == 1, " EPass")?;
    push_if(text, (word >> 4) % 2 == 1, " RxOk")?;
    push_if(text, (word >> 3) % 2 == 1, " TxOk")?;
    text.push_str(" LEC ")?;
    push_decimal(text, u64::from(word % 8))?;
    text.push_str(" ")?;
    text.push_str(code_word(word))
}

/// Appends the error counters of a node.
pub(crate) fn push_counters(
    text: &mut String,
    node: u8,
    tec: u16,
    rec: u16,
    state: NodeState,
) -> Result<(), AllocError> {
    text.push_str(" counters node ")?;
    push_decimal(text, u64::from(node))?;
    text.push_str(": TEC ")?;
    push_decimal(text, u64::from(tec))?;
    text.push_str(", REC ")?;
    push_decimal(text, u64::from(rec))?;
    text.push_str(", ")?;
    text.push_str(state_word(state))
}

/// Appends the enables of the status interrupt, as they were set.
pub(crate) fn push_control(text: &mut String, sie: bool, eie: bool) -> Result<(), AllocError> {
    text.push_str(" control: SIE ")?;
    text.push_str(if sie { "1" } else { "0" })?;
    text.push_str(", EIE ")?;
    text.push_str(if eie { "1" } else { "0" })
}

/// Appends the controller's state after groups of recessive bits.
pub(crate) fn push_recessive(text: &mut String, state: NodeState) -> Result<(), AllocError> {
    text.push_str(" recessive: the chip is ")?;
    text.push_str(state_word(state))
}

/// Appends that a transfer was given up, and why.
pub(crate) fn push_given_up(
    text: &mut String,
    object: ObjectNo,
    why: &str,
) -> Result<(), AllocError> {
    push_object(text, " transfer", object)?;
    text.push_str(": given up, ")?;
    text.push_str(why)
}

/// Appends the lines of a step: its port and the line's number among those of its port, from 0, and what came of it.
pub fn push_step(text: &mut String, script: &Script, step: &Step) -> Result<(), AllocError> {
    text.push_str(port_word(step.port))?;
    text.push_str("[")?;
    push_decimal(text, step.line as u64)?;
    text.push_str("]")?;
    if let Some((round, report)) = round_of(script, step) {
        return push_round(text, step, round, &report);
    }
    push_words(text, step)?;
    text.push_str("\n")
}
