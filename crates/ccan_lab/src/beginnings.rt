//! Which texts a printed line of a script can begin with.
ghost use Rattle.std.specs.Prelude.{◌≡◌, ◌==◌, IfOk, codes};
ghost use Rattle.std.specs.List.{before_first, list_any};
ghost use Rattle.ccan_outcomes.specs.RaceScript.{fields_of};
ghost use Rattle.ccan_lab.specs.Beginnings.{can_begin, can_begin_among, has_transfer_of, is_transfer_of};
ghost use Rattle.ccan_lab.specs.Beginnings.{transferred_objects};
ghost use Rattle.ccan_lab.specs.BusForms.{bus_begins};
ghost use Rattle.ccan_lab.specs.Forms.{begins, host_begins, shown_form};
ghost use Rattle.ccan_lab.specs.Rows.{star};

use crate::bus_forms::bus_begins;
use crate::forms::{host_begins, shown_begins};
use crate::history::add_object;
use ccan_object::{ObjectNo, Profile};
use ccan_ram::PortName;
use ccan_script::{BusLine, HostLine, RaceScript};
use std::alloc::{AllocError, Global};

/// Whether a line of a host is a transfer of this object.
fn is_transfer_of(profile: Profile, object: ObjectNo, line: &HostLine) -> bool
    ensures { result ≡ is_transfer_of profile object line.now }
{
    match line {
        HostLine::Transfer { request, .. } => ObjectNo::from_request(profile, *request) == object,
        HostLine::Until { .. } | HostLine::Interrupt | HostLine::Flags(_) => false,
    }
}

/// Whether one of these lines is a transfer of this object.
fn any_transfer_of(profile: Profile, object: ObjectNo, lines: &[HostLine]) -> bool
    ensures { result ≡ list_any (is_transfer_of profile object) lines.now }
{
    lines
        .iter()
        .any(|line| is_transfer_of(profile, object, line))
}

/// Whether a host has a transfer of this object.
fn has_transfer_of(race: &RaceScript, object: ObjectNo) -> bool
    ensures { result ≡ has_transfer_of (fields_of race.now) object }
{
    any_transfer_of(race.script.profile, object, race.script.if1.as_slice())
        || any_transfer_of(race.script.profile, object, race.script.if2.as_slice())
}

/// The objects that transfers name, each once.
#[tactic(auto, unfolding(crate::specs::Beginnings::transferred_objects))]
fn transferred_objects(alloc: Global, race: &RaceScript) -> Result<Vec<ObjectNo>, AllocError>
    ensures { IfOk result
        (λ objects. objects.items ≡ transferred_objects (fields_of race.now)) }
{
    let mut objects = Vec::new(alloc);
    for index in 0..race.script.profile.objects() {
        let object = ObjectNo::new(index + 1).unwrap();
        if has_transfer_of(race, object) {
            objects.push(object)?;
        }
    }
    Ok(objects)
}

/// Whether an answer of a host can begin so.
fn any_host_begins(text: &str, port: PortName, profile: Profile, lines: &[HostLine]) -> bool
    ensures { result ≡ list_any (host_begins text.now port profile) lines.now }
{
    lines
        .iter()
        .any(|line| host_begins(text, port, profile, line))
}

/// Whether an answer of the bus can begin so.
fn any_bus_begins(text: &str, profile: Profile, objects: &[ObjectNo], lines: &[BusLine]) -> bool
    ensures { result ≡ list_any (bus_begins text.now profile objects.now) lines.now }
{
    lines
        .iter()
        .any(|line| bus_begins(text, profile, objects, line))
}

/// Whether the line of one of these objects at the end can begin so.
fn finals_begin(text: &str, objects: &[ObjectNo]) -> bool
    ensures { result ≡ list_any
        (λ object. begins text.now (shown_form (codes "final") object)) objects.now }
{
    objects
        .iter()
        .any(|object| shown_begins(text, "", "final", *object))
}

/// Whether a printed line of a script can begin so, if its transfers name these objects.
#[tactic(auto, unfolding(crate::specs::Beginnings::can_begin_among))]
fn can_begin_among(race: &RaceScript, objects: &[ObjectNo], text: &str) -> bool
    ensures { result ≡ can_begin_among (fields_of race.now) objects.now text.now }
{
    any_host_begins(
        text,
        PortName::If1,
        race.script.profile,
        race.script.if1.as_slice(),
    ) || any_host_begins(
        text,
        PortName::If2,
        race.script.profile,
        race.script.if2.as_slice(),
    ) || any_bus_begins(
        text,
        race.script.profile,
        objects,
        race.script.bus.as_slice(),
    ) || finals_begin(text, objects)
}

/// What comes before the first `*` of a text.
fn before_star(text: &str) -> &str
    ensures { result.now ≡ before_first (λ byte. byte == star) text.now }
{
    match text.split_once('*') {
        Some((before, _)) => before,
        None => text,
    }
}

/// Whether a printed line of a script can begin with the text: an answer of a port, the frame of a round, or an object at the end.
pub fn can_begin(alloc: Global, race: &RaceScript, text: &str) -> Result<bool, AllocError>
    ensures { IfOk result (λ can. can ≡ can_begin (fields_of race.now) text.now) }
{
    let objects = transferred_objects(alloc, race)?;
    Ok(can_begin_among(race, objects.as_slice(), before_star(text)))
}

/// Beginnings of lines, each of a kind of its own.
const KINDS: [&str; 36] = [
    "if1 write",
    "if1 read",
    "if1 busy",
    "if1 spent",
    "if1 until",
    "if1 interrupt",
    "if1 flags",
    "if2 write",
    "if2 read",
    "if2 busy",
    "if2 spent",
    "if2 until",
    "if2 interrupt",
    "if2 flags",
    "bus loaded",
    "bus held",
    "bus idle",
    "bus sent",
    "bus received",
    "bus passed",
    "bus collision",
    "bus ack",
    "bus fault",
    "bus looped",
    "bus busy",
    "bus spent",
    "bus status",
    "bus control",
    "bus interrupt",
    "bus flags",
    "bus counters",
    "bus init",
    "bus recessive",
    "bus loopback",
    "can0",
    "final",
];

/// Adds the kinds of lines that a script can print, in quotes, if its transfers name these objects.
fn add_kinds(text: &mut String, race: &RaceScript, objects: &[ObjectNo]) -> Result<(), AllocError> {
    for kind in KINDS {
        if can_begin_among(race, objects, kind) {
            text.push_str(" \"")?;
            text.push_str(kind)?;
            text.push_str("\"")?;
        }
    }
    Ok(())
}

/// Adds objects in two digits, each after a space.
fn add_objects(text: &mut String, objects: &[ObjectNo]) -> Result<(), AllocError> {
    for object in objects {
        add_object(text, Some(*object))?;
    }
    Ok(())
}

/// Adds what lines begin with, if transfers name these objects.
fn add_beginnings(
    text: &mut String,
    race: &RaceScript,
    objects: &[ObjectNo],
) -> Result<(), AllocError> {
    text.push_str("ccan-lab: outcomes: lines of this script begin with:")?;
    add_kinds(text, race, objects)?;
    text.push_str("; objects:")?;
    add_objects(text, objects)?;
    text.push_str("; hexadecimal digits are in lower case, in frames in upper case: can0 123#1A2B")
}

/// What the printed lines of a script begin with, in words.
pub fn beginnings_text(alloc: Global, race: &RaceScript) -> Result<String, AllocError> {
    let objects = transferred_objects(alloc, race)?;
    let mut text = String::new(alloc);
    add_beginnings(&mut text, race, objects.as_slice())?;
    Ok(text)
}
