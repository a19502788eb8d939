//! The steps of a history, as a page shows them.
ghost use Rattle.std.specs.Prelude.{◌≡◌, ◌+◌, IfOk, length, map};
ghost use Rattle.ccan_lab.specs.Paging.{line_of, line_stepped};

use crate::history::{add_object, kind_text};
use crate::moved::{Moved, moved_at, winner_at};
use crate::outcome_rows::{add_ended_lines, behind, ends_of, next_line};
use ccan_object::{MOST_OBJECTS, ObjectNo, Record};
use ccan_outcomes::all_ports::AllPorts;
use ccan_outcomes::step::record_of;
use ccan_outcomes::{Ending, HistoryKind, HistoryStep};
use ccan_page as page;
use ccan_page::{Change, ObjectChange, SentFrame};
use ccan_ram::PortName;
use ccan_script::RaceScript;
use std::alloc::{AllocError, Global};

/// A change, if it is one.
fn if_changed(before: Record, after: Record) -> Option<Change> {
    if before == after {
        None
    } else {
        Some(Change { before, after })
    }
}

/// The registers of a step's port before and after it, if they differ.
fn registers_of(moved: &Moved<'_>, port: PortName) -> Option<Change> {
    match port {
        PortName::If1 => if_changed(
            moved.before.if1.registers.buffer(),
            moved.after.if1.registers.buffer(),
        ),
        PortName::If2 => if_changed(
            moved.before.if2.registers.buffer(),
            moved.after.if2.registers.buffer(),
        ),
        PortName::Bus => None,
    }
}

/// The objects that a step changed.
fn objects_of(alloc: Global, moved: &Moved<'_>) -> Result<Vec<ObjectChange>, AllocError> {
    let mut objects = Vec::new(alloc);
    for place in 0..MOST_OBJECTS {
        let object = ObjectNo::new(place as u8 + 1).unwrap();
        let before = record_of(&moved.before.records, object);
        let after = record_of(&moved.after.records, object);
        if let Some(change) = if_changed(before, after) {
            objects.push(ObjectChange { object, change })?;
        }
    }
    Ok(objects)
}

/// The frame that was on the bus in a step: the winner of a decision.
fn frame_of(race: &RaceScript, step: &HistoryStep, moved: &Moved<'_>) -> Option<SentFrame> {
    if step.kind != HistoryKind::Decides {
        return None;
    }
    let (node, frame) = winner_at(race, step.line, moved.before)?;
    Some(SentFrame { node, frame })
}

/// What a step did, and at which object.
fn deed_of(alloc: Global, step: &HistoryStep) -> Result<String, AllocError> {
    let mut deed = String::from_str(alloc, kind_text(step.kind))?;
    add_object(&mut deed, step.object)?;
    Ok(deed)
}

/// What comes after a step: the answer to its line if the step is the last of it, and those to the lines after it that make no
/// step.
fn told_behind(
    alloc: Global,
    step: &HistoryStep,
    later: &[HistoryStep],
    ending: &Ending,
) -> Result<String, AllocError> {
    let ends = ends_of(ending, step.port);
    let mut told = String::new(alloc);
    let to = next_line(later, step.port, ends);
    add_ended_lines(&mut told, step.port, ends, step.line, to)?;
    Ok(told)
}

/// A step of a history, as a page shows it, by the steps after it and the states around it.
fn shown_step(
    alloc: Global,
    race: &RaceScript,
    step: &HistoryStep,
    later: &[HistoryStep],
    moved: &Moved<'_>,
    ending: &Ending,
) -> Result<page::Step, AllocError>
    ensures { IfOk result (λ made. line_of made ≡ line_stepped step.now) }
{
    let deed = deed_of(alloc, step)?;
    let told = told_behind(alloc, step, later, ending)?;
    Ok(page::Step {
        port: step.port,
        line: step.line.saturating_sub(1),
        deed,
        told,
        object: step.object,
        frame: frame_of(race, step, moved),
        registers: registers_of(moved, step.port),
        objects: objects_of(alloc, moved)?,
    })
}

/// The steps of a history, as a page shows them: one for each.
pub(crate) fn shown_history(
    alloc: Global,
    race: &RaceScript,
    steps: &[HistoryStep],
    states: &[AllPorts],
    ending: &Ending,
) -> Result<Vec<page::Step>, AllocError>
    requires { length states.now ≡ length steps.now + 1 }
    ensures { IfOk result (λ made. map line_of made.items ≡ map line_stepped steps.now) }
{
    let mut made = Vec::new(alloc);
    for (place, step) in steps.iter().enumerate() {
        let later = behind(steps, place + 1);
        let moved = moved_at(states, place);
        made.push(shown_step(alloc, race, step, later, &moved, ending)?)?;
    }
    Ok(made)
}

/// The answers to the lines of all ports before their first steps, which are run as the ports begin.
pub(crate) fn opening_of(
    alloc: Global,
    steps: &[HistoryStep],
    ending: &Ending,
) -> Result<String, AllocError> {
    let mut opening = String::new(alloc);
    for port in [PortName::If1, PortName::If2, PortName::Bus] {
        let ends = ends_of(ending, port);
        let to = next_line(steps, port, ends);
        add_ended_lines(&mut opening, port, ends, 1, to)?;
    }
    Ok(opening)
}
