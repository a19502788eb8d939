ghost use Rattle.std.specs.Prelude.{◌≡◌, ◌++◌, OnOk, string_bytes};
ghost use Rattle.ccan_ram.specs.Port.{port_text};
ghost use Rattle.ccan_lab.specs.History.{kind_text, line_name, object_text, step_text};
ghost use Rattle.ccan_lab.specs.Report.{history_text};

use crate::wording::add_number;
use ccan_object::ObjectNo;
use ccan_outcomes::{HistoryKind, HistoryStep};
use ccan_ram::PortName;
use std::alloc::AllocError;

/// The word for a port.
pub fn port_word(port: PortName) -> &'static str
    ensures { result.now ≡ port_text port }
{
    match port {
        PortName::If1 => "if1",
        PortName::If2 => "if2",
        PortName::Bus => "bus",
    }
}

/// The words for what a port did.
pub fn kind_text(kind: HistoryKind) -> &'static str
    ensures { result.now ≡ kind_text kind }
{
    match kind {
        HistoryKind::Reads | HistoryKind::ReadsAndClears => "read",
        HistoryKind::Looks => "look",
        HistoryKind::LooksAgain => "try lost, look",
        HistoryKind::LooksLast => "last look",
        HistoryKind::Writes => "write",
        HistoryKind::Starts => "start",
        HistoryKind::Finishes => "finish",
        HistoryKind::Stores => "store",
        HistoryKind::Resets => "reset",
        HistoryKind::Decides => "decision",
        HistoryKind::IsSpent => "spent",
        HistoryKind::IsBusy => "busy",
    }
}

/// Adds an object in two digits, with a space before it; nothing if there is none.
pub fn add_object(text: &mut String, object: Option<ObjectNo>) -> Result<(), AllocError>
    ensures { OnOk result
        (string_bytes text.new ≡ string_bytes text.old ++ object_text object) }
{
    if let Some(object) = object {
        text.push_str(" ")?;
        add_number(text, usize::from(object.get() / 10))?;
        add_number(text, usize::from(object.get() % 10))?;
    }
    Ok(())
}

/// Adds a port and its line of this number, from 1. It is printed from 0, as jq counts lines and as `ccan` reports faults.
#[tactic(auto, unfolding(crate::specs::History::line_name))]
pub fn add_line_name(text: &mut String, port: PortName, line: usize) -> Result<(), AllocError>
    ensures { OnOk result
        (string_bytes text.new ≡ string_bytes text.old ++ line_name port line) }
{
    text.push_str(port_word(port))?;
    text.push_str("[")?;
    add_number(text, line.saturating_sub(1))?;
    text.push_str("]")?;
    Ok(())
}

/// Adds the line of one step: its number, the port, its line, what it did, and the object in two digits, if it has one.
fn add_step(text: &mut String, number: usize, step: &HistoryStep) -> Result<(), AllocError>
    ensures { OnOk result
        (string_bytes text.new ≡ string_bytes text.old ++ step_text number step.now) }
{
    text.push_str("  ")?;
    add_number(text, number)?;
    text.push_str(" ")?;
    add_line_name(text, step.port, step.line)?;
    text.push_str(" ")?;
    text.push_str(kind_text(step.kind))?;
    add_object(text, step.object)?;
    text.push_str("\n")?;
    Ok(())
}

/// Adds a line for each step.
#[tactic(auto, unfolding(crate::specs::Report::history_text))]
pub fn add_steps(text: &mut String, steps: &[HistoryStep]) -> Result<(), AllocError>
    ensures { OnOk result
        (string_bytes text.new ≡ string_bytes text.old ++ history_text steps.now) }
{
    for (index, step) in steps.iter().enumerate() {
        add_step(text, index + 1, step)?;
    }
    Ok(())
}
