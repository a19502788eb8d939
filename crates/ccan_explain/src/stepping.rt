//! One line after another, and what is kept of each.
ghost use Rattle.std.specs.Prelude.{ℕ, ◌≡◌, ◌≤◌, ◌+◌, ◌<◌, if◌then◌else◌};
ghost use Rattle.ccan_ram.specs.Array.{Leaves};
ghost use Rattle.ccan_ram.specs.Port.{same_port};
ghost use Rattle.ccan_confine.specs.Counters.{is_off};
ghost use Rattle.ccan_bus.specs.Bus.{LedTo};
ghost use Rattle.ccan_bus.specs.Past.{BusPast, levels_at};
ghost use Rattle.ccan_line.specs.Script.{fields_of};
ghost use Rattle.ccan_line.specs.Port.{count_of};
ghost use Rattle.ccan_explain.specs.Bench.{Serves, TakesStep, next_of};
ghost use Rattle.ccan_explain.specs.Step.{AreOff, at_number, object_loaded, object_named, object_storing};
ghost use Rattle.ccan_explain.specs.Step.{own_object, stored_object, touched_of};

use crate::bench::Bench;
use crate::reported::Reported;
use crate::step::{Step, Touched};
use ccan_bus::{Bus, LoadAnswer, RoundAnswer};
use ccan_confine::NodeState;
use ccan_object::{MOST_OBJECTS, ObjectNo, Record};
use ccan_ram::{Access, Array, PortName};
use ccan_script::{LineAnswer, Script};

/// The object that a round or a load was about: what is loaded, or what could not be.
fn object_loaded(loading: &LoadAnswer) -> Option<ObjectNo>
    ensures { result ≡ object_loaded loading.now }
{
    match loading {
        LoadAnswer::Loaded(object, _) => Some(*object),
        LoadAnswer::Held(object) => Some(*object),
        LoadAnswer::Busy(object) => Some(*object),
        LoadAnswer::Spent(object) => Some(*object),
        LoadAnswer::Nothing => None,
    }
}

/// The object that an answer names.
fn object_named(answer: &LineAnswer) -> Option<ObjectNo>
    ensures { result ≡ object_named answer.now }
{
    if let LineAnswer::Load(loading) = answer {
        return object_loaded(loading);
    }
    let (LineAnswer::Write(object, _)
    | LineAnswer::Read(object, _)
    | LineAnswer::Busy(object)
    | LineAnswer::Spent(object)
    | LineAnswer::Until(object, _, _)) = answer
    else {
        return None;
    };
    Some(*object)
}

/// The object that the controller was about to send in a round, or else the one that the line's answer names.
fn own_object(reported: &Reported) -> Option<ObjectNo>
    ensures { result ≡ own_object reported.now.report reported.now.answer }
{
    match &reported.report {
        Some(report) => object_loaded(&report.loading),
        None => object_named(&reported.answer),
    }
}

/// The object that stored the frame of a round.
fn object_storing(answer: &RoundAnswer) -> Option<ObjectNo>
    ensures { result ≡ object_storing answer.now }
{
    match answer {
        RoundAnswer::Received(Some((object, _))) => Some(*object),
        RoundAnswer::Looped(_, _, Some((object, _))) => Some(*object),
        RoundAnswer::Received(None)
        | RoundAnswer::Looped(_, _, None)
        | RoundAnswer::Idle
        | RoundAnswer::Sent(_, _)
        | RoundAnswer::Passed
        | RoundAnswer::Collision
        | RoundAnswer::NoAck
        | RoundAnswer::Fault
        | RoundAnswer::Busy(_)
        | RoundAnswer::Spent(_) => None,
    }
}

/// The object that stored a frame in a line.
fn stored_object(answer: &LineAnswer) -> Option<ObjectNo>
    ensures { result ≡ stored_object answer.now }
{
    let LineAnswer::Round(ended) = answer else {
        return None;
    };
    object_storing(ended)
}

/// How many numbers an array needs that has each object at its own.
const NUMBERS: usize = MOST_OBJECTS + 1;

/// The records of all objects that a memory can have, each at its number; at 0 there is zero.
type Records = [Record; NUMBERS];

/// The records of a memory, and zero for the objects that it doesn't have.
fn all_records(ram: &Array) -> Records
    ensures { (object : ℕ) → Leaves (⟦<Array as Access>⟧.passes ram.now) object
        (at_number result object) }
{
    let mut records = [Record::zero(); NUMBERS];
    for number in 1..NUMBERS {
        let object = ObjectNo::new(number as u8).unwrap();
        records[number] = record_of(ram, object);
    }
    records
}

/// The record of an object among all.
fn record_in(records: &Records, object: ObjectNo) -> Record
    ensures { result ≡ at_number records.now object }
{
    records[usize::from(object.get())]
}

/// An object with its records in both.
fn touched(before: &Records, after: &Records, object: Option<ObjectNo>) -> Option<Touched>
    ensures { result ≡ touched_of (at_number before.now) (at_number after.now) object }
{
    match object {
        Some(object) => Some(Touched {
            object,
            before: record_in(before, object),
            after: record_in(after, object),
        }),
        None => None,
    }
}

/// The record of an object in a memory; zero if the memory has no such object.
pub(crate) fn record_of(ram: &Array, object: ObjectNo) -> Record
    ensures { Leaves (⟦<Array as Access>⟧.passes ram.now) object result }
{
    if ram.profile().holds(object) {
        ram.record_of(object)
    } else {
        Record::zero()
    }
}

/// Whether a node of a bus is bus off.
fn is_node_off(bus: &Bus, node: u8) -> bool
    requires { node ≤ bus.now.others }
    ensures { (past : BusPast) → LedTo past bus.now → result ≡ is_off (levels_at past node) }
{
    match bus.counters(node).state() {
        NodeState::Off => true,
        NodeState::Active | NodeState::Passive => false,
    }
}

/// Which nodes of a bus are bus off.
fn nodes_off(bus: &Bus) -> [bool; 9]
    ensures { (past : BusPast) → LedTo past bus.now → AreOff past result }
{
    let mut off = [false; 9];
    for node in 0..bus.others() + 1 {
        off[usize::from(node)] = is_node_off(bus, node);
    }
    off
}

/// Runs the next line of a port, and keeps what came of it.
pub(crate) fn step_on(bench: &mut Bench, script: &Script, port: PortName) -> Step
    requires left { next_of bench.old port < count_of (fields_of script.now) port }
    requires serves { Serves (⟦<Array as Access>⟧.passes bench.old.ram).terms
        (fields_of script.now) bench.old }
    ensures serves { Serves (⟦<Array as Access>⟧.passes bench.new.ram).terms
        (fields_of script.now) bench.new }
    ensures next { (name : PortName) → next_of bench.new name
        ≡ next_of bench.old name + (if same_port name port then 1 else 0) }
    ensures port { result.port ≡ port }
    ensures runs { TakesStep (⟦<Array as Access>⟧.passes bench.old.ram)
        (⟦<Array as Access>⟧.passes bench.new.ram) (fields_of script.now)
        bench.old bench.new result }
{
    let before = all_records(&bench.ram);
    let off = nodes_off(&bench.bus);
    let line = bench.lines_run(port);
    let reported = bench.turn(script, port);
    let after = all_records(&bench.ram);
    Step {
        port,
        line,
        answer: reported.answer,
        report: reported.report,
        off,
        own: touched(&before, &after, own_object(&reported)),
        stored: touched(&before, &after, stored_object(&reported.answer)),
    }
}
