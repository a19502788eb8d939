//! Who contended for the bus in a round, by its report and by its line.
ghost use Rattle.std.specs.Prelude.{◌≡◌, IfSome, IsSome, slice_get};
ghost use Rattle.ccan_bus.specs.declared.round_line.RoundLine.{RoundLine};
ghost use Rattle.ccan_line.specs.declared.bus_line.BusLine.TheVariants.{Round};
ghost use Rattle.ccan_explain.specs.Contest.{winner_in};

use crate::step::Step;
use ccan_accept::Frame;
use ccan_bus::{Decision, LoadAnswer, RoundLine, RoundReport};
use ccan_script::Script;

/// The round that a step is, with its report.
pub(crate) fn round_of<'a>(script: &'a Script, step: &Step) -> Option<(&'a RoundLine, RoundReport)>
    ensures report { IfSome result (λ found. step.now.report ≡ Some found.1) }
    ensures line { IfSome result (λ found. slice_get script.now.bus.items step.now.line
        ≡ Some (Round found.0.now)) }
    ensures all { IsSome step.now.report → (round : RoundLine)
        → slice_get script.now.bus.items step.now.line ≡ Some (Round round)
        → IsSome result }
{
    let report = step.report?;
    let round = script.bus.get(step.line)?.round()?;
    Some((round, report))
}

/// The frame that won the bus, and its node; the controller is node 0.
pub(crate) fn winner_of(report: &RoundReport) -> Option<(u8, Frame)>
    ensures { result ≡ winner_in report.now }
{
    match &report.decision {
        Some(decision) => decision.winner(),
        None => None,
    }
}

/// Whether the frames of the other nodes were on the bus: not if the load was refused, and not in loop back mode.
pub(crate) fn are_heard(report: &RoundReport) -> bool {
    match report.decision {
        None | Some(Decision::Idle) | Some(Decision::LoopBack(_, _)) => false,
        Some(Decision::Collision)
        | Some(Decision::Fault(_, _))
        | Some(Decision::NoAck(_, _))
        | Some(Decision::Finish(_, _))
        | Some(Decision::Receipt(_, _))
        | Some(Decision::Passed(_, _)) => true,
    }
}

/// Whether something is loaded after this answer of a load.
fn is_loaded(loading: &LoadAnswer) -> bool {
    match loading {
        LoadAnswer::Loaded(_, _) | LoadAnswer::Held(_) => true,
        LoadAnswer::Nothing | LoadAnswer::Busy(_) | LoadAnswer::Spent(_) => false,
    }
}

/// Whether the controller contended: it had something loaded, and the others' frames were on the bus.
pub(crate) fn controller_contends(report: &RoundReport) -> bool {
    are_heard(report) && is_loaded(&report.loading)
}

/// Whether a node was bus off as the round began.
pub(crate) fn is_off(step: &Step, node: u8) -> bool {
    step.off.get(usize::from(node)).copied().unwrap_or(true)
}

/// Whether a node that sends contended: it was on, and its frame was on the bus.
pub(crate) fn node_contends(step: &Step, report: &RoundReport, node: u8) -> bool {
    are_heard(report) && !is_off(step, node)
}

/// Whether a node that contended lost arbitration to the winner.
pub(crate) fn has_lost(report: &RoundReport, node: u8) -> bool {
    match winner_of(report) {
        Some((winner, _)) => winner != node,
        None => false,
    }
}
