//! What each answer to a line is called: in a picture, as JSON, and for people. How a run prints it is in `ccan_script`.
use crate::draw::label;
use crate::json_lines::{load_word, push_objects, round_word};
use crate::json_members::{push_number, push_record, push_switch, push_word};
use crate::line_words;
use crate::step::Step;
use crate::words::{flag_name, state_word};
use ccan_script::LineAnswer;
use std::alloc::AllocError;

/// Appends the label of a line by its answer.
pub(crate) fn push_label(text: &mut String, answer: &LineAnswer) -> Result<(), AllocError> {
    match answer {
        LineAnswer::Write(object, _) => label::push_object(text, "write", *object),
        LineAnswer::Read(object, _) => label::push_object(text, "read", *object),
        LineAnswer::Busy(object) => label::push_object(text, "busy", *object),
        LineAnswer::Spent(object) => label::push_object(text, "spent", *object),
        LineAnswer::Until(object, _, shown) => {
            label::push_object(text, "until", *object)?;
            text.push_str(if *shown { ": yes" } else { ": no" })
        }
        LineAnswer::Load(loading) => label::push_load(text, loading),
        LineAnswer::Round(answer) => label::push_end(text, answer),
        LineAnswer::Interrupt(_) => text.push_str("interrupt"),
        LineAnswer::Flags(_, _, _) => text.push_str("flags"),
        LineAnswer::Status(_) => text.push_str("status"),
        LineAnswer::Control(_, _) => text.push_str("control"),
        LineAnswer::Counters { .. } => text.push_str("counters"),
        LineAnswer::Init => text.push_str("init"),
        LineAnswer::Recessive(_) => text.push_str("recessive"),
        LineAnswer::LoopBack(_) => text.push_str("loopback"),
    }
}

/// The name of a line's answer, as a run prints it if it prints a word.
pub(crate) fn answer_word(answer: &LineAnswer) -> &'static str {
    match answer {
        LineAnswer::Write(_, _) => "write",
        LineAnswer::Read(_, _) => "read",
        LineAnswer::Busy(_) => "busy",
        LineAnswer::Spent(_) => "spent",
        LineAnswer::Until(_, _, _) => "until",
        LineAnswer::Interrupt(_) => "interrupt",
        LineAnswer::Flags(_, _, _) => "flags",
        LineAnswer::Load(loading) => load_word(loading),
        LineAnswer::Round(round) => round_word(round),
        LineAnswer::Status(_) => "status",
        LineAnswer::Control(_, _) => "control",
        LineAnswer::Counters { .. } => "counters",
        LineAnswer::Init => "init",
        LineAnswer::Recessive(_) => "recessive",
        LineAnswer::LoopBack(_) => "loopback",
    }
}

/// Appends the members of a line of JSON that have what an answer says besides objects and frames.
pub(crate) fn push_members(text: &mut String, answer: &LineAnswer) -> Result<(), AllocError> {
    match answer {
        LineAnswer::Write(_, shown) => push_record(text, "registers", shown),
        LineAnswer::Read(_, shown) => push_record(text, "registers", shown),
        LineAnswer::Until(_, flag, shown) => {
            push_word(text, "flag", flag_name(*flag))?;
            push_switch(text, "shown", *shown)
        }
        LineAnswer::Interrupt(value) => push_number(text, "value", u64::from(*value)),
        LineAnswer::Flags(flag, word, _) => {
            push_word(text, "flag", flag_name(*flag))?;
            push_objects(text, *word)
        }
        LineAnswer::Status(word) => push_number(text, "value", u64::from(*word)),
        LineAnswer::Control(sie, eie) => {
            push_switch(text, "sie", *sie)?;
            push_switch(text, "eie", *eie)
        }
        LineAnswer::Counters {
            node,
            tec,
            rec,
            state,
        } => {
            push_number(text, "node", u64::from(*node))?;
            push_number(text, "tec", u64::from(*tec))?;
            push_number(text, "rec", u64::from(*rec))?;
            push_word(text, "state", state_word(*state))
        }
        LineAnswer::Recessive(state) => push_word(text, "state", state_word(*state)),
        LineAnswer::LoopBack(on) => push_switch(text, "on", *on),
        LineAnswer::Busy(_)
        | LineAnswer::Spent(_)
        | LineAnswer::Load(_)
        | LineAnswer::Round(_)
        | LineAnswer::Init => Ok(()),
    }
}

/// Appends what people read of the answer to a line that is no round.
pub(crate) fn push_words(text: &mut String, step: &Step) -> Result<(), AllocError> {
    match &step.answer {
        LineAnswer::Write(object, shown) => line_words::push_transfer(
            text, step, " write", *object, shown,
        ),
        LineAnswer::Read(object, shown) => line_words::push_transfer(
            text, step, " read", *object, shown,
        ),
        LineAnswer::Busy(object) => line_words::push_given_up(text, *object, "each try was lost"),
        LineAnswer::Spent(object) => {
            line_words::push_given_up(text, *object, "the quota of changes is used up")
        }
        LineAnswer::Until(object, flag, shown) => line_words::push_until(
            text, *object, *flag, *shown,
        ),
        LineAnswer::Interrupt(value) => line_words::push_interrupt(text, *value),
        LineAnswer::Flags(flag, word, profile) => line_words::push_word(
            text, *flag, *word, *profile,
        ),
        LineAnswer::Load(loading) => line_words::push_load(text, step, loading),
        LineAnswer::Round(_) => text.push_str(" round"),
        LineAnswer::Status(word) => line_words::push_status(text, *word),
        LineAnswer::Control(sie, eie) => line_words::push_control(text, *sie, *eie),
        LineAnswer::Counters {
            node,
            tec,
            rec,
            state,
        } => line_words::push_counters(text, *node, *tec, *rec, *state),
        LineAnswer::Init => text.push_str(" init: cleared"),
        LineAnswer::Recessive(state) => line_words::push_recessive(text, *state),
        LineAnswer::LoopBack(true) => text.push_str(" loopback: on"),
        LineAnswer::LoopBack(false) => text.push_str(" loopback: off"),
    }
}
