//! An order of whole lines that leads to an outcome.
ghost use Rattle.std.specs.Prelude.{◌≡◌, IfOk, IfSome, List, length, true};
ghost use Rattle.ccan_ram.specs.History.{leaves};
ghost use Rattle.ccan_ram.specs.declared.event.Event.{Event};
ghost use Rattle.ccan_line.specs.Order.{times};
ghost use Rattle.ccan_outcomes.specs.RaceScript.{fields_of};
ghost use Rattle.ccan_lab.specs.Replay.{Replays, end_of, ends_at, won};

use ccan_accept::Frame;
use ccan_bus::RoundReport;
use ccan_explain::{Step, Told, tell_in};
use ccan_line::LineEnd;
use ccan_object::{ObjectNo, Profile, Record};
use ccan_outcomes::row::Row;
use ccan_outcomes::{Ending, HistoryStep};
use ccan_ram::{Access, Array, PortName};
use ccan_script::{RaceScript, times};
use std::alloc::{AllocError, Global};

/// Names a port until it is named so often.
fn name_up_to(order: &mut Vec<PortName>, port: PortName, lines: usize) -> Result<(), AllocError> {
    let named = times(order.as_slice(), port);
    for _line in named..lines {
        order.push(port)?;
    }
    Ok(())
}

/// Whether none of these steps is of the same line.
fn is_last(step: &HistoryStep, later: &[HistoryStep]) -> bool {
    !later
        .iter()
        .any(|other| other.port == step.port && other.line == step.line)
}

/// The order in which the lines of a history take their last steps, behind those that run before the race. A line without a step of
/// its own, such as `status`, comes right before the next one of its port, or after all if none is left.
pub fn order_of(
    alloc: Global,
    race: &RaceScript,
    steps: &[HistoryStep],
) -> Result<Vec<PortName>, AllocError> {
    let mut order = Vec::from_slice(alloc, race.before.as_slice())?;
    for (place, step) in steps.iter().enumerate() {
        if is_last(step, &steps[place + 1..]) {
            name_up_to(&mut order, step.port, step.line)?;
        }
    }
    name_up_to(&mut order, PortName::If1, race.script.if1.len())?;
    name_up_to(&mut order, PortName::If2, race.script.if2.len())?;
    name_up_to(&mut order, PortName::Bus, race.script.bus.len())?;
    Ok(order)
}

/// Whether the order names each port as often as it has lines.
fn is_order(race: &RaceScript, order: &[PortName]) -> bool
    ensures if1 { result ≡ true
        → times PortName.If1 order.now ≡ length race.now.script.if1.items }
    ensures if2 { result ≡ true
        → times PortName.If2 order.now ≡ length race.now.script.if2.items }
    ensures bus { result ≡ true
        → times PortName.Bus order.now ≡ length race.now.script.bus.items }
{
    times(order, PortName::If1) == race.script.if1.len()
        && times(order, PortName::If2) == race.script.if2.len()
        && times(order, PortName::Bus) == race.script.bus.len()
}

/// The frame that won the bus, by the report of a round.
fn won(report: &Option<RoundReport>) -> Option<Frame>
    ensures { result ≡ won report.now }
{
    let decision = report.as_ref()?.decision?;
    let (_, frame) = decision.winner()?;
    Some(frame)
}

/// How the line of a step ended.
fn end_of(step: &Step) -> LineEnd
    ensures { result ≡ end_of step.now }
{
    LineEnd {
        answer: step.answer,
        frame: won(&step.report),
    }
}

/// How the lines of one port ended, as it is reported.
#[tactic(auto, unfolding(crate::specs::Replay::ends_at))]
fn ends_at(
    alloc: Global,
    frames: bool,
    steps: &[Step],
    port: PortName,
) -> Result<Row<LineEnd>, AllocError>
    ensures { IfOk result (λ ends. ends ≡ ends_at frames port steps.now) }
{
    let mut ends = Vec::new(alloc);
    for step in steps {
        if port.index() == step.port.index() {
            ends.push(end_of(step).told(frames))?;
        }
    }
    Row::from_vec(alloc, ends)
}

/// The records in a memory of this profile, that of object 1 first.
fn records_in(alloc: Global, ram: &Array, profile: Profile) -> Result<Row<Record>, AllocError>
    requires { (⟦<Array as Access>⟧.passes ram.now).terms.profile ≡ profile }
    ensures { IfOk result (λ records. (history : List Event)
        → (⟦<Array as Access>⟧.passes ram.now).has_seen history
        → records ≡ leaves profile history) }
{
    let mut records = Vec::new(alloc);
    for place in 0..profile.objects() {
        let object = ObjectNo::new(place + 1).unwrap();
        records.push(ram.record_of(object))?;
    }
    // The proof reads the contract of the row where it is there.
    let row = Row::from_vec(alloc, records)?;
    Ok(row)
}

/// What is shown of a run over a memory of this profile.
fn ending_of(
    alloc: Global,
    frames: bool,
    told: &Told,
    profile: Profile,
) -> Result<Ending, AllocError>
    requires { (⟦<Array as Access>⟧.passes told.now.ram).terms.profile ≡ profile }
    ensures if1 { IfOk result (λ ending.
        ending.if1 ≡ ends_at frames PortName.If1 told.now.steps.items) }
    ensures if2 { IfOk result (λ ending.
        ending.if2 ≡ ends_at frames PortName.If2 told.now.steps.items) }
    ensures bus { IfOk result (λ ending.
        ending.bus ≡ ends_at frames PortName.Bus told.now.steps.items) }
    ensures records { IfOk result (λ ending. (history : List Event)
        → (⟦<Array as Access>⟧.passes told.now.ram).has_seen history
        → ending.records ≡ leaves profile history) }
{
    let steps = told.steps.as_slice();
    Ok(Ending {
        if1: ends_at(alloc, frames, steps, PortName::If1)?,
        if2: ends_at(alloc, frames, steps, PortName::If2)?,
        bus: ends_at(alloc, frames, steps, PortName::Bus)?,
        records: records_in(alloc, &told.ram, profile)?,
    })
}

/// What is shown of the run of the lines, whole one after another in this order, with the frames that won the bus or without.
/// `None`: it doesn't name each line once.
pub fn ending_in(
    alloc: Global,
    race: &RaceScript,
    frames: bool,
    order: &[PortName],
) -> Result<Option<Ending>, AllocError>
    ensures { IfOk result (λ found. IfSome found (λ ending.
        Replays frames (fields_of race.now) ending order.now)) }
{
    if !is_order(race, order) {
        return Ok(None);
    }
    let told = tell_in(alloc, &race.script, order)?;
    Ok(Some(ending_of(alloc, frames, &told, race.script.profile)?))
}

/// Whether the lines, run whole one after another in this order, have the outcome, as it is reported.
#[tactic(auto, using(crate::proofs::Told::replays_equal))]
fn leads_to(
    alloc: Global,
    race: &RaceScript,
    frames: bool,
    order: &[PortName],
    ending: &Ending,
) -> Result<bool, AllocError>
    ensures { IfOk result (λ leads. leads ≡ true
        → Replays frames (fields_of race.now) ending.now order.now) }
{
    match ending_in(alloc, race, frames, order)? {
        Some(shown) => Ok(*ending == shown),
        None => Ok(false),
    }
}

/// An order of whole lines with which a run of the script has the outcome of this history, if the last steps of the history's
/// lines are in such an order. If the outcome is reported with frames, the run has the same.
pub fn order_to(
    alloc: Global,
    race: &RaceScript,
    frames: bool,
    ending: &Ending,
    steps: &[HistoryStep],
) -> Result<Option<Vec<PortName>>, AllocError>
    ensures { IfOk result (λ found. IfSome found (λ order.
        Replays frames (fields_of race.now) ending.now order.items)) }
{
    let order = order_of(alloc, race, steps)?;
    if leads_to(alloc, race, frames, order.as_slice(), ending)? {
        Ok(Some(order))
    } else {
        Ok(None)
    }
}
