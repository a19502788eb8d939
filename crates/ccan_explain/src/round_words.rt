//! A round for people.
ghost use Rattle.std.specs.Prelude.{◌≡◌, ◌++◌, IfSome, OnOk, string_bytes};
ghost use Rattle.ccan_explain.specs.Contest.{winner_in};
ghost use Rattle.ccan_explain.specs.FrameText.{node_text, winner_text};

use crate::contest::{controller_contends, has_lost, is_off, winner_of};
use crate::digits::push_decimal;
use crate::frame_text::push_frame;
use crate::record_words::push_touched;
use crate::step::Step;
use crate::words::fault_word;
use ccan_accept::Frame;
use ccan_bus::{Decision, MemoryStep, RoundAnswer, RoundLine, RoundReport};
use ccan_object::ObjectNo;
use std::alloc::AllocError;

/// Appends which node it is.
#[tactic(auto, unfolding(crate::specs::FrameText::node_text))]
fn push_node(text: &mut String, node: u8) -> Result<(), AllocError>
    ensures { OnOk result (string_bytes text.new ≡ string_bytes text.old ++ node_text node) }
{
    if node == 0 {
        return text.push_str("the chip");
    }
    text.push_str("node ")?;
    push_decimal(text, u64::from(node))
}

/// Appends the frame that was on the bus and its sender: `can0 123#1122 from node 1`. Node 0 is the chip.
#[tactic(auto, unfolding(crate::specs::FrameText::winner_text))]
pub fn push_winner(text: &mut String, winner: u8, frame: &Frame) -> Result<(), AllocError>
    ensures { OnOk result
        (string_bytes text.new ≡ string_bytes text.old ++ winner_text winner frame.now) }
{
    text.push_str("can0 ")?;
    push_frame(text, frame)?;
    text.push_str(" from ")?;
    push_node(text, winner)
}

/// What a round came to, if no frame was on the bus alone.
fn no_winner(report: &RoundReport) -> &'static str {
    match report.decision {
        None => "no frame, the load was given up",
        Some(Decision::Collision) => "no frame, frames with the same arbitration bits collided",
        Some(Decision::Idle)
        | Some(Decision::Fault(_, _))
        | Some(Decision::NoAck(_, _))
        | Some(Decision::Finish(_, _))
        | Some(Decision::Receipt(_, _))
        | Some(Decision::Passed(_, _))
        | Some(Decision::LoopBack(_, _)) => "no frame",
    }
}

/// What came of the frame, apart from its objects.
fn fate(report: &RoundReport) -> &'static str {
    match report.decision {
        Some(Decision::NoAck(_, _)) => ", not acknowledged: no other node is on",
        Some(Decision::Passed(_, _)) => ", not received: the chip is bus off",
        Some(Decision::LoopBack(_, _)) => ", looped back",
        Some(Decision::Fault(_, _)) => ", spoiled by fault ",
        None
        | Some(Decision::Idle)
        | Some(Decision::Collision)
        | Some(Decision::Finish(_, _))
        | Some(Decision::Receipt(_, _)) => "",
    }
}

/// Appends the frame that was on the bus in a round, and its sender, or that there was none.
fn push_sent(text: &mut String, report: &RoundReport) -> Result<(), AllocError>
    ensures { OnOk result (IfSome (winner_in report.now) (λ won.
        string_bytes text.new ≡ string_bytes text.old ++ winner_text won.0 won.1)) }
{
    match winner_of(report) {
        Some((winner, frame)) => push_winner(text, winner, &frame),
        None => text.push_str(no_winner(report)),
    }
}

/// Appends the first line of a round: the frame, its sender and what came of it.
fn push_head(text: &mut String, round: &RoundLine, report: &RoundReport) -> Result<(), AllocError> {
    text.push_str(" round: ")?;
    push_sent(text, report)?;
    text.push_str(fate(report))?;
    if matches!(report.decision, Some(Decision::Fault(_, _))) {
        text.push_str(fault_word(round.fault()))?;
    }
    text.push_str("\n")
}

/// What the frame of a node that did not win came to.
fn loser_word(report: &RoundReport, is_off: bool) -> &'static str {
    if is_off {
        return "  not sent, bus off: ";
    }
    match report.decision {
        None => "  not sent: ",
        Some(Decision::Idle) => "  not heard in loop back mode: ",
        Some(Decision::LoopBack(_, _)) => "  not heard in loop back mode: ",
        Some(Decision::Collision) => "  contended: ",
        Some(Decision::Fault(_, _))
        | Some(Decision::NoAck(_, _))
        | Some(Decision::Finish(_, _))
        | Some(Decision::Receipt(_, _))
        | Some(Decision::Passed(_, _)) => "  lost arbitration: ",
    }
}

/// Whether this node's frame was the one on the bus.
fn has_won(report: &RoundReport, node: u8) -> bool {
    match winner_of(report) {
        Some((winner, _)) => winner == node,
        None => false,
    }
}

/// Appends the frames of the other nodes that were not on the bus alone.
fn push_others(
    text: &mut String,
    step: &Step,
    round: &RoundLine,
    report: &RoundReport,
) -> Result<(), AllocError> {
    for (node, frame) in round.sends() {
        if !has_won(report, *node) {
            text.push_str(loser_word(report, is_off(step, *node)))?;
            push_winner(text, *node, frame)?;
            text.push_str("\n")?;
        }
    }
    Ok(())
}

/// The words for what the object was that the controller was about to send.
fn own_word(report: &RoundReport) -> &'static str {
    match &report.end.answer {
        RoundAnswer::Sent(_, _) => "  sent from",
        RoundAnswer::Looped(_, _, _) => "  sent from",
        RoundAnswer::Idle
        | RoundAnswer::Received(_)
        | RoundAnswer::Passed
        | RoundAnswer::Collision
        | RoundAnswer::NoAck
        | RoundAnswer::Fault
        | RoundAnswer::Busy(_)
        | RoundAnswer::Spent(_) => {
            if controller_contends(report) && has_lost(report, 0) {
                "  lost arbitration, the chip's"
            } else {
                "  the chip's"
            }
        }
    }
}

/// Appends which memory step was given up, if one was, and where.
fn push_given_up(
    text: &mut String,
    refused: Option<MemoryStep>,
    object: ObjectNo,
    why: &str,
) -> Result<(), AllocError> {
    let Some(step) = refused else {
        return Ok(());
    };
    text.push_str(match step {
        MemoryStep::Start => "  start of object ",
        MemoryStep::Finish => "  finish of object ",
        MemoryStep::Store => "  store into object ",
    })?;
    push_decimal(text, u64::from(object.get()))?;
    text.push_str(" given up: ")?;
    text.push_str(why)?;
    text.push_str("\n")
}

/// Appends why no object stored the frame, or which memory step was refused.
fn push_refusal(text: &mut String, report: &RoundReport) -> Result<(), AllocError> {
    let refused = report.end.refused;
    match &report.end.answer {
        RoundAnswer::Received(None) => text.push_str("  stored nowhere: no object accepts it\n"),
        RoundAnswer::Looped(_, _, None) => text.push_str(
            "  stored nowhere: no object accepts it\n",
        ),
        RoundAnswer::Busy(object) => push_given_up(text, refused, *object, "each try was lost"),
        RoundAnswer::Spent(object) => {
            push_given_up(text, refused, *object, "the quota of changes is used up")
        }
        RoundAnswer::Idle
        | RoundAnswer::Sent(_, _)
        | RoundAnswer::Received(Some(_))
        | RoundAnswer::Passed
        | RoundAnswer::Collision
        | RoundAnswer::NoAck
        | RoundAnswer::Fault
        | RoundAnswer::Looped(_, _, Some(_)) => Ok(()),
    }
}

/// Appends a round, whose first line has its name already.
pub(crate) fn push_round(
    text: &mut String,
    step: &Step,
    round: &RoundLine,
    report: &RoundReport,
) -> Result<(), AllocError> {
    push_head(text, round, report)?;
    push_others(text, step, round, report)?;
    if let Some(own) = &step.own {
        push_touched(text, own_word(report), own)?;
        text.push_str("\n")?;
    }
    if let Some(stored) = &step.stored {
        push_touched(text, "  stored in", stored)?;
        text.push_str("\n")?;
    }
    push_refusal(text, report)
}
