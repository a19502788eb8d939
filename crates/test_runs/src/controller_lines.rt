//! Lines of the bus that make no step of the memory. Each runs on a bus as it opens: the Status register is 0 after a reset, and no
//! error has happened.
use crate::expect::{holds, same};
use arrayvec::ArrayVec;
use ccan_bus::{Bus, Fault, RoundLine};
use ccan_confine::NodeState;
use ccan_line::{BusLine, ControllerLine, LineAnswer};
use ccan_object::Profile;
use std::process::Abort;

#[test]
fn the_status_register_is_read(rt: HostRuntime) {
    let mut bus = Bus::new(Profile::One, 1);
    same(
        &rt,
        ControllerLine::Status.run(&mut bus),
        LineAnswer::Status(0),
    );
}

#[test]
fn enables_are_set(rt: HostRuntime) {
    let mut bus = Bus::new(Profile::One, 1);
    let line = ControllerLine::Control {
        sie: true,
        eie: false,
    };
    same(&rt, line.run(&mut bus), LineAnswer::Control(true, false));
}

#[test]
fn counters_are_shown(rt: HostRuntime) {
    let mut bus = Bus::new(Profile::One, 1);
    let none = LineAnswer::Counters {
        node: 1,
        tec: 0,
        rec: 0,
        state: NodeState::Active,
    };
    same(&rt, ControllerLine::Counters(1).run(&mut bus), none);
}

#[test]
fn recessive_bits_leave_the_controller_active(rt: HostRuntime) {
    let mut bus = Bus::new(Profile::One, 1);
    let active = LineAnswer::Recessive(NodeState::Active);
    same(&rt, ControllerLine::Recessive(1).run(&mut bus), active);
}

#[test]
fn lines_say_what_they_show(rt: HostRuntime) {
    holds(&rt, ControllerLine::Status.shows_status());
    holds(&rt, !ControllerLine::Init.shows_status());
    holds(&rt, ControllerLine::Counters(0).shows_counters());
    holds(&rt, !ControllerLine::Status.shows_counters());
}

/// A round in which no other node sends.
fn empty_round(rt: &impl Abort) -> RoundLine {
    let Some(line) = RoundLine::new(1, ArrayVec::new(), Fault::Quiet) else {
        panic!(rt; "no round")
    };
    line
}

#[test]
fn rounds_are_known_from_other_lines(rt: HostRuntime) {
    holds(&rt, BusLine::Round(empty_round(&rt)).round().is_some());
    holds(&rt, BusLine::Load.round().is_none());
    holds(
        &rt,
        BusLine::Controller(ControllerLine::Init).round().is_none(),
    );
}
