//! The picture of a history that leads to an outcome.

mod columns;

use crate::history::{add_line_name, add_object, kind_text};
use crate::moved::winner_at;
use crate::outcome_rows::columns::columns_of;
use crate::rows::push_row;
use ccan_accept::Frame;
use ccan_explain::draw::layout::WORDS_GLYPHS;
use ccan_explain::draw::wrapping::wrapped;
use ccan_explain::draw::{Picture, Row};
use ccan_line::LineEnd;
use ccan_outcomes::{Ending, History, HistoryKind, HistoryStep};
use ccan_ram::PortName;
use ccan_script::RaceScript;
use std::alloc::{AllocError, Global};

/// How the lines of a port ended in an outcome.
pub(crate) fn ends_of(ending: &Ending, port: PortName) -> &[LineEnd] {
    match port {
        PortName::If1 => ending.if1.as_slice(),
        PortName::If2 => ending.if2.as_slice(),
        PortName::Bus => ending.bus.as_slice(),
    }
}

/// The line of a port's next step among these, from 1; if it has none, the number after that of its last line.
pub(crate) fn next_line(steps: &[HistoryStep], port: PortName, ends: &[LineEnd]) -> usize {
    for step in steps {
        if step.port == port {
            return step.line;
        }
    }
    ends.len().saturating_add(1)
}

/// Adds how the lines of a port ended, from a line of this number, from 1, up to another: a line each, and one for a reported
/// frame.
pub(crate) fn add_ended_lines(
    text: &mut String,
    port: PortName,
    ends: &[LineEnd],
    from: usize,
    to: usize,
) -> Result<(), AllocError> {
    let count = to.saturating_sub(from);
    for end in ends.iter().skip(from.saturating_sub(1)).take(count) {
        push_row(text, port, end)?;
    }
    Ok(())
}

/// Whether a step is a look of a line that asks for flags, a look of a scan, or the first of a change.
fn is_look(step: &HistoryStep) -> bool {
    step.kind == HistoryKind::Looks || step.kind == HistoryKind::LooksLast
}

/// Whether the step of this place and the next one are looks of one line.
fn goes_on(steps: &[HistoryStep], place: usize) -> bool {
    match (steps.get(place), steps.get(place.saturating_add(1))) {
        (Some(step), Some(next)) => {
            is_look(step) && is_look(next) && step.port == next.port && step.line == next.line
        }
        (Some(_), None) | (None, _) => false,
    }
}

/// Steps of a history that share a row: looks of one line without a break, or one step.
#[derive(Clone, Copy)]
struct Run {
    /// The first of them.
    first: HistoryStep,
    /// The last of them.
    last: HistoryStep,
    /// The number of the first, from 1.
    number: usize,
    /// The number of the last, from 1.
    end: usize,
}

/// The steps from one place up to another, in one row. `None`: there are none.
fn run_between(steps: &[HistoryStep], from: usize, end: usize) -> Option<Run> {
    let first = *steps.get(from)?;
    let last = *steps.get(end.checked_sub(1)?)?;
    Some(Run {
        first,
        last,
        number: from.saturating_add(1),
        end,
    })
}

/// The steps of a history, row by row.
fn runs_of(alloc: Global, steps: &[HistoryStep]) -> Result<Vec<Run>, AllocError> {
    let mut runs = Vec::new(alloc);
    let mut from = 0;
    for place in 0..steps.len() {
        if !goes_on(steps, place) {
            if let Some(run) = run_between(steps, from, place + 1) {
                runs.push(run)?;
            }
            from = place + 1;
        }
    }
    Ok(runs)
}

/// Adds what the steps of a row did, and at which object, or from which object to which other.
fn add_deed(text: &mut String, run: &Run) -> Result<(), AllocError> {
    text.push_str(kind_text(run.first.kind))?;
    add_object(text, run.first.object)?;
    if run.first.object != run.last.object {
        text.push_str(" to")?;
        add_object(text, run.last.object)?;
    }
    Ok(())
}

/// The words beside a row: its port and its line, what it did, and after the last step of a line its answer, and those of the
/// lines after it that make no step.
fn words_of(
    alloc: Global,
    run: &Run,
    later: &[HistoryStep],
    ending: &Ending,
) -> Result<String, AllocError> {
    let port = run.last.port;
    let mut text = String::new(alloc);
    add_line_name(&mut text, port, run.last.line)?;
    text.push_str(" ")?;
    add_deed(&mut text, run)?;
    text.push_str("\n")?;
    let ends = ends_of(ending, port);
    let to = next_line(later, port, ends);
    add_ended_lines(&mut text, port, ends, run.last.line, to)?;
    Ok(text)
}

/// The frame that was on the bus in the last step of a row, if that is the decision of a round.
fn frame_of(race: &RaceScript, history: &History, run: &Run) -> Option<Frame> {
    if run.last.kind != HistoryKind::Decides {
        return None;
    }
    let before = history.states.get(run.end.checked_sub(1)?)?;
    let (_, frame) = winner_at(race, run.last.line, before)?;
    Some(frame)
}

/// A row of a history.
fn row_of(
    alloc: Global,
    race: &RaceScript,
    history: &History,
    run: &Run,
    ending: &Ending,
) -> Result<Row, AllocError> {
    let later = behind(history.steps.as_slice(), run.end);
    let mut label = String::new(alloc);
    add_deed(&mut label, run)?;
    let words = words_of(alloc, run, later, ending)?;
    Ok(Row {
        number: run.number,
        port: run.last.port,
        frame: frame_of(race, history, run),
        label,
        object: run.last.object,
        words: wrapped(alloc, words.as_str(), WORDS_GLYPHS)?,
    })
}

/// The row of a port's lines before its first step, which are run as the ports begin; its number is 0. `None`: it has none.
fn opening_row(
    alloc: Global,
    steps: &[HistoryStep],
    ending: &Ending,
    port: PortName,
) -> Result<Option<Row>, AllocError> {
    let ends = ends_of(ending, port);
    let mut words = String::new(alloc);
    add_ended_lines(&mut words, port, ends, 1, next_line(steps, port, ends))?;
    if words.is_empty() {
        return Ok(None);
    }
    Ok(Some(Row {
        number: 0,
        port,
        frame: None,
        label: String::from_str(alloc, "no step")?,
        object: None,
        words,
    }))
}

/// The rows before the first step.
fn opening_rows(
    alloc: Global,
    steps: &[HistoryStep],
    ending: &Ending,
) -> Result<Vec<Row>, AllocError> {
    let mut rows = Vec::new(alloc);
    for port in [PortName::If1, PortName::If2, PortName::Bus] {
        if let Some(row) = opening_row(alloc, steps, ending, port)? {
            rows.push(row)?;
        }
    }
    Ok(rows)
}

/// The steps from this place on.
pub(crate) fn behind(steps: &[HistoryStep], place: usize) -> &[HistoryStep] {
    steps.get(place..).unwrap_or(&[])
}

/// Adds the rows of a history.
fn add_rows(
    alloc: Global,
    rows: &mut Vec<Row>,
    race: &RaceScript,
    history: &History,
    runs: &[Run],
    ending: &Ending,
) -> Result<(), AllocError> {
    for run in runs {
        rows.push(row_of(alloc, race, history, run, ending)?)?;
    }
    Ok(())
}

/// How many steps there are up to each row: none up to a row before the first step.
fn row_ends(alloc: Global, openings: usize, runs: &[Run]) -> Result<Vec<usize>, AllocError> {
    let mut ends = Vec::new(alloc);
    for _ in 0..openings {
        ends.push(0)?;
    }
    for run in runs {
        ends.push(run.end)?;
    }
    Ok(ends)
}

/// The picture of a history that leads to this outcome.
pub fn picture_of_history(
    alloc: Global,
    race: &RaceScript,
    history: &History,
    ending: &Ending,
) -> Result<Picture, AllocError> {
    let steps = history.steps.as_slice();
    let states = history.states.as_slice();
    let runs = runs_of(alloc, steps)?;
    let mut rows = opening_rows(alloc, steps, ending)?;
    let ends = row_ends(alloc, rows.len(), runs.as_slice())?;
    add_rows(alloc, &mut rows, race, history, runs.as_slice(), ending)?;
    Ok(Picture {
        rows,
        columns: columns_of(alloc, states, runs.as_slice(), ends.as_slice())?,
    })
}
