//! Histories in few lines, for `--brief`.
//!
//! ```text
//!   1-32 bus[0] look 01 to 32
//!   33 bus[0] decision: can0 123#2222 from node 1
//!   34-35 if1[0] write 01: id 123 std, receive, valid, EoB, 2 bytes 11 11 | +NewDat
//! ```
//!
//! Looks of one line at one object after the other share a line, and so do the look of an attempt and its change, if no step of
//! another port comes between. After a change is what its object became, and after the decision of a round the frame that was on
//! the bus.
ghost use Rattle.std.specs.Prelude.{◌≡◌, ◌+◌, ◌^◌, ◌<◌, ◌++◌, false, IfOk, OnOk, length, map, string_bytes};
ghost use Rattle.ccan_outcomes.specs.RaceScript.{fields_of};
ghost use Rattle.ccan_lab.specs.Brief.{AreDetails, IsBriefText, IsDetailOf, IsTextOf, IsWinnerText, brief_text};
ghost use Rattle.ccan_lab.specs.Report.{history_text};
ghost use Rattle.ccan_lab.specs.Brief.{changed_text, first_at, goes_on, goes_on_at, group_line, group_text, is_change};
ghost use Rattle.ccan_lab.specs.Brief.{deed_text, label_text};
ghost use Rattle.ccan_lab.specs.Brief.{is_look, is_next, is_same, looked_at, numbers_text, objects_text, winner_shown};

use crate::history::{add_line_name, add_object, add_steps, kind_text};
use crate::history_form::HistoryForm;
use crate::moved::{Moved, moved_at, winner_at};
use crate::wording::add_number;
use ccan_accept::Frame;
use ccan_explain::{push_left, push_winner};
use ccan_object::ObjectNo;
use ccan_outcomes::all_ports::AllPorts;
use ccan_outcomes::step::record_of;
use ccan_outcomes::{History, HistoryKind, HistoryStep};
use ccan_script::RaceScript;
use std::alloc::{AllocError, Global};

/// Whether a step is a look that leaves its line under way.
fn is_look(kind: HistoryKind) -> bool
    ensures { result ≡ is_look kind }
{
    match kind {
        HistoryKind::Looks => true,
        HistoryKind::Reads
        | HistoryKind::LooksAgain
        | HistoryKind::LooksLast
        | HistoryKind::Writes
        | HistoryKind::ReadsAndClears
        | HistoryKind::Starts
        | HistoryKind::Finishes
        | HistoryKind::Stores
        | HistoryKind::Resets
        | HistoryKind::Decides
        | HistoryKind::IsSpent
        | HistoryKind::IsBusy => false,
    }
}

/// Whether a step is a change.
fn is_change(kind: HistoryKind) -> bool
    ensures { result ≡ is_change kind }
{
    match kind {
        HistoryKind::Writes
        | HistoryKind::ReadsAndClears
        | HistoryKind::Starts
        | HistoryKind::Finishes
        | HistoryKind::Stores
        | HistoryKind::Resets => true,
        HistoryKind::Reads
        | HistoryKind::Looks
        | HistoryKind::LooksAgain
        | HistoryKind::LooksLast
        | HistoryKind::Decides
        | HistoryKind::IsSpent
        | HistoryKind::IsBusy => false,
    }
}

/// Whether the second is the object after the first.
fn is_next(object: Option<ObjectNo>, next: Option<ObjectNo>) -> bool
    ensures { result ≡ is_next object next }
{
    match (object, next) {
        (Some(object), Some(next)) => next.get() == object.get() + 1,
        (Some(_), None) | (None, _) => false,
    }
}

/// Whether the two are one object.
fn is_same(object: Option<ObjectNo>, next: Option<ObjectNo>) -> bool
    ensures { result ≡ is_same object next }
{
    match (object, next) {
        (Some(object), Some(next)) => next.get() == object.get(),
        (Some(_), None) | (None, _) => false,
    }
}

/// Whether both steps share a line: a look before a look at the next object, or before a change of the same one.
fn goes_on(step: &HistoryStep, next: &HistoryStep) -> bool
    ensures { result ≡ goes_on step.now next.now }
{
    let looks_on = is_look(next.kind) && is_next(step.object, next.object);
    let changes = is_change(next.kind) && is_same(step.object, next.object);
    is_look(step.kind) && step.port == next.port && step.line == next.line && (looks_on || changes)
}

/// Whether the step of this place shares a line with the next.
#[tactic(auto, unfolding(crate::specs::Brief::goes_on_at))]
fn goes_on_at(steps: &[HistoryStep], place: usize) -> bool
    requires { place < length steps.now }
    ensures { result ≡ goes_on_at steps.now place }
{
    match (steps.get(place), steps.get(place + 1)) {
        (Some(step), Some(next)) => goes_on(step, next),
        (Some(_), None) | (None, _) => false,
    }
}

/// Adds the numbers of steps, from 1, by their places: `7`, or `7-9`.
fn add_numbers(text: &mut String, first: usize, last: usize) -> Result<(), AllocError>
    requires first { first + 1 < 2 ^ 64 }
    requires last { last + 1 < 2 ^ 64 }
    ensures { OnOk result
        (string_bytes text.new ≡ string_bytes text.old ++ numbers_text first last) }
{
    if first == last {
        return add_number(text, last + 1);
    }
    add_number(text, first + 1)?;
    text.push_str("-")?;
    add_number(text, last + 1)
}

/// Adds the objects of looks, of the first and the last: ` 01`, or ` 01 to 32`.
fn add_looked_at(
    text: &mut String,
    begin: &HistoryStep,
    step: &HistoryStep,
) -> Result<(), AllocError>
    ensures { OnOk result (string_bytes text.new
        ≡ string_bytes text.old ++ looked_at begin.now.object step.now.object) }
{
    if !is_same(begin.object, step.object) {
        add_object(text, begin.object)?;
        text.push_str(" to")?;
    }
    add_object(text, step.object)
}

/// Adds the objects of steps, by the first and the last.
fn add_objects(text: &mut String, begin: &HistoryStep, step: &HistoryStep) -> Result<(), AllocError>
    ensures { OnOk result
        (string_bytes text.new ≡ string_bytes text.old ++ objects_text begin.now step.now) }
{
    if is_look(step.kind) {
        add_looked_at(text, begin, step)
    } else {
        add_object(text, step.object)
    }
}

/// Adds the numbers of the steps from one place up to another, and the port and the line of the last.
fn add_label(
    text: &mut String,
    first: usize,
    place: usize,
    step: &HistoryStep,
) -> Result<(), AllocError>
    requires first { first + 1 < 2 ^ 64 }
    requires place { place + 1 < 2 ^ 64 }
    ensures { OnOk result
        (string_bytes text.new ≡ string_bytes text.old ++ label_text first place step.now) }
{
    text.push_str("  ")?;
    add_numbers(text, first, place)?;
    text.push_str(" ")?;
    add_line_name(text, step.port, step.line)?;
    text.push_str(" ")
}

/// Adds what steps did, and their objects, by the first and the last.
fn add_deed(text: &mut String, begin: &HistoryStep, step: &HistoryStep) -> Result<(), AllocError>
    ensures { OnOk result
        (string_bytes text.new ≡ string_bytes text.old ++ deed_text begin.now step.now) }
{
    text.push_str(kind_text(step.kind))?;
    add_objects(text, begin, step)
}

/// Adds the line of the steps from one place up to another, with what is written of the last.
fn add_group_line(
    text: &mut String,
    begin: &HistoryStep,
    first: usize,
    place: usize,
    step: &HistoryStep,
    more: &str,
) -> Result<(), AllocError>
    requires first { first + 1 < 2 ^ 64 }
    requires place { place + 1 < 2 ^ 64 }
    ensures { OnOk result (string_bytes text.new ≡ string_bytes text.old
        ++ group_line begin.now first place step.now more.now) }
{
    add_label(text, first, place, step)?;
    add_deed(text, begin, step)?;
    text.push_str(more)?;
    text.push_str("\n")
}

/// Adds the line of the steps that end with that of this place, by the place of the first.
#[tactic(auto, unfolding(crate::specs::Brief::group_text))]
fn add_group(
    text: &mut String,
    steps: &[HistoryStep],
    details: &[String],
    first: usize,
    place: usize,
) -> Result<(), AllocError>
    requires first { first ≡ first_at steps.now place }
    requires place { place < length steps.now }
    requires last { goes_on_at steps.now place ≡ false }
    requires as_many { length details.now ≡ length steps.now }
    ensures { OnOk result (string_bytes text.new ≡ string_bytes text.old
        ++ group_text steps.now (map string_bytes details.now) place) }
{
    let more = details[place].as_str();
    match (steps.get(first), steps.get(place)) {
        (Some(begin), Some(step)) => add_group_line(text, begin, first, place, step, more),
        (Some(_), None) | (None, _) => Ok(()),
    }
}

/// Adds the lines of a history, with what is written of each step.
fn add_groups(
    text: &mut String,
    steps: &[HistoryStep],
    details: &[String],
) -> Result<(), AllocError>
    requires { length details.now ≡ length steps.now }
    ensures { OnOk result (string_bytes text.new ≡ string_bytes text.old
        ++ brief_text steps.now (map string_bytes details.now)) }
{
    let mut first = 0;
    for place in 0..steps.len() {
        if !goes_on_at(steps, place) {
            add_group(text, steps, details, first, place)?;
            first = place + 1;
        }
    }
    Ok(())
}

/// Adds a frame that was on the bus, and the node that sent it.
fn add_winner(text: &mut String, winner: Option<(u8, Frame)>) -> Result<(), AllocError>
    ensures { OnOk result
        (string_bytes text.new ≡ string_bytes text.old ++ winner_shown winner) }
{
    match winner {
        Some((node, frame)) => {
            text.push_str(": ")?;
            push_winner(text, node, &frame)
        }
        None => Ok(()),
    }
}

/// The frame that is on the bus as a round is decided, by the line's number from 1 and the state before.
fn winner_text(
    alloc: Global,
    race: &RaceScript,
    line: usize,
    before: &AllPorts,
) -> Result<String, AllocError>
    ensures { IfOk result (λ text.
        IsWinnerText (fields_of race.now) line before.now (string_bytes text)) }
{
    let mut text = String::new(alloc);
    add_winner(&mut text, winner_at(race, line, before))?;
    Ok(text)
}

/// What a change made of its object.
fn changed_text(
    alloc: Global,
    object: Option<ObjectNo>,
    moved: &Moved<'_>,
) -> Result<String, AllocError>
    ensures { IfOk result (λ text. string_bytes text
        ≡ changed_text object moved.now.before.now moved.now.after.now) }
{
    let mut text = String::new(alloc);
    if let Some(object) = object {
        let before = record_of(&moved.before.records, object);
        let after = record_of(&moved.after.records, object);
        push_left(&mut text, &before, &after)?;
    }
    Ok(text)
}

/// What is written of a step between these states.
fn detail_between(
    alloc: Global,
    race: &RaceScript,
    step: &HistoryStep,
    moved: &Moved<'_>,
) -> Result<String, AllocError>
    ensures { IfOk result (λ text. IsDetailOf (fields_of race.now) step.now step.now.kind
        moved.now.before.now moved.now.after.now (string_bytes text)) }
{
    match step.kind {
        HistoryKind::Decides => winner_text(alloc, race, step.line, moved.before),
        HistoryKind::Writes
        | HistoryKind::ReadsAndClears
        | HistoryKind::Starts
        | HistoryKind::Finishes
        | HistoryKind::Stores
        | HistoryKind::Resets => changed_text(alloc, step.object, moved),
        HistoryKind::Reads
        | HistoryKind::Looks
        | HistoryKind::LooksAgain
        | HistoryKind::LooksLast
        | HistoryKind::IsSpent
        | HistoryKind::IsBusy => Ok(String::new(alloc)),
    }
}

/// What is written of each step.
fn details_of(
    alloc: Global,
    race: &RaceScript,
    steps: &[HistoryStep],
    states: &[AllPorts],
) -> Result<Vec<String>, AllocError>
    requires { length states.now ≡ length steps.now + 1 }
    ensures { IfOk result (λ details. AreDetails (fields_of race.now) steps.now states.now
        (map string_bytes details.items)) }
{
    let mut details = Vec::new(alloc);
    for (place, step) in steps.iter().enumerate() {
        let moved = moved_at(states, place);
        details.push(detail_between(alloc, race, step, &moved)?)?;
    }
    Ok(details)
}

/// The lines of a history, with what is written of each step.
fn groups_told(
    alloc: Global,
    steps: &[HistoryStep],
    details: &[String],
) -> Result<String, AllocError>
    requires { length details.now ≡ length steps.now }
    ensures { IfOk result (λ text.
        string_bytes text ≡ brief_text steps.now (map string_bytes details.now)) }
{
    let mut text = String::new(alloc);
    add_groups(&mut text, steps, details)?;
    Ok(text)
}

/// A history in few lines.
fn brief_told(alloc: Global, race: &RaceScript, history: &History) -> Result<String, AllocError>
    requires { length history.now.states.items ≡ length history.now.steps.items + 1 }
    ensures { IfOk result (λ text. IsBriefText (fields_of race.now)
        history.now.steps.items history.now.states.items (string_bytes text)) }
{
    let steps = history.steps.as_slice();
    let details = details_of(alloc, race, steps, history.states.as_slice())?;
    groups_told(alloc, steps, details.as_slice())
}

/// A history, a line for each step.
fn steps_told(alloc: Global, history: &History) -> Result<String, AllocError>
    ensures { IfOk result (λ text. string_bytes text ≡ history_text history.now.steps.items) }
{
    let mut text = String::new(alloc);
    add_steps(&mut text, history.steps.as_slice())?;
    Ok(text)
}

/// A history in this form.
pub fn history_told(
    alloc: Global,
    race: &RaceScript,
    form: HistoryForm,
    history: &History,
) -> Result<String, AllocError>
    requires { length history.now.states.items ≡ length history.now.steps.items + 1 }
    ensures { IfOk result (λ text. IsTextOf form (fields_of race.now)
        history.now.steps.items history.now.states.items (string_bytes text)) }
{
    match form {
        HistoryForm::EachStep => steps_told(alloc, history),
        HistoryForm::Brief => brief_told(alloc, race, history),
    }
}
