//! The places of an outcome's lines, by name: `if1[1]`, `bus[0]`, `final 01`. Lines are named from 0.
ghost use Rattle.std.specs.Prelude.{◌≡◌, ◌+◌, ◌^◌, ◌<◌, ◌++◌, OnOk, length, string_bytes};
ghost use Rattle.ccan_lab.specs.Place.{final_name, late_kind, late_name, place_kind, place_name};

use crate::history::{add_line_name, port_word};
use crate::wording::add_number;
use ccan_line::PerPort;
use ccan_ram::PortName;
use ccan_script::RaceScript;
use std::alloc::AllocError;

/// How many lines each port of a script has. The places of an outcome are those of IF1's lines, of IF2's, of the bus's, and then
/// a place for each object.
pub fn counts_of(race: &RaceScript) -> PerPort<usize>
    ensures if1 { result.if1 ≡ length race.now.script.if1.items }
    ensures if2 { result.if2 ≡ length race.now.script.if2.items }
    ensures bus { result.bus ≡ length race.now.script.bus.items }
{
    PerPort {
        if1: race.script.if1.len(),
        if2: race.script.if2.len(),
        bus: race.script.bus.len(),
    }
}

/// Adds the name of an object at the end: `final 01`.
fn add_final_name(text: &mut String, object: usize) -> Result<(), AllocError>
    ensures { OnOk result (string_bytes text.new ≡ string_bytes text.old ++ final_name object) }
{
    text.push_str("final ")?;
    add_number(text, object / 10)?;
    add_number(text, object % 10)?;
    Ok(())
}

/// Adds the name of a place after the answers of the hosts, if the bus has so many lines.
fn add_late_name(text: &mut String, bus: usize, place: usize) -> Result<(), AllocError>
    requires { place + 1 < 2 ^ 64 }
    ensures { OnOk result
        (string_bytes text.new ≡ string_bytes text.old ++ late_name bus place) }
{
    if place < bus {
        add_line_name(text, PortName::Bus, place + 1)
    } else {
        add_final_name(text, place - bus + 1)
    }
}

/// Adds the name of a place.
pub fn add_place_name(
    text: &mut String,
    counts: &PerPort<usize>,
    place: usize,
) -> Result<(), AllocError>
    requires { place + 1 < 2 ^ 64 }
    ensures { OnOk result (string_bytes text.new ≡ string_bytes text.old
        ++ place_name counts.now.if1 counts.now.if2 counts.now.bus place) }
{
    if place < counts.if1 {
        add_line_name(text, PortName::If1, place + 1)
    } else if place - counts.if1 < counts.if2 {
        add_line_name(text, PortName::If2, place - counts.if1 + 1)
    } else {
        add_late_name(text, counts.bus, place - counts.if1 - counts.if2)
    }
}

/// Whose place it is after the answers of the hosts, if the bus has so many lines.
fn late_kind(bus: usize, place: usize) -> &'static str
    ensures { result.now ≡ late_kind bus place }
{
    if place < bus {
        port_word(PortName::Bus)
    } else {
        "final"
    }
}

/// Whose place it is: a port's, or `final`, if it is an object's.
pub fn place_kind(counts: &PerPort<usize>, place: usize) -> &'static str
    ensures { result.now ≡ place_kind counts.now.if1 counts.now.if2 counts.now.bus place }
{
    if place < counts.if1 {
        port_word(PortName::If1)
    } else if place - counts.if1 < counts.if2 {
        port_word(PortName::If2)
    } else {
        late_kind(counts.bus, place - counts.if1 - counts.if2)
    }
}
