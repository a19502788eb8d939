//! The engine of lines, over a plain memory as it opens: all objects are zero, and nothing has happened to the bus. A line that it
//! makes act by act answers as one that runs by calls.
ghost use Rattle.ccan_line.specs.BusLine.{BusFits};
ghost use Rattle.ccan_line.specs.HostLine.{HostFits};

use crate::expect::{holds, same};
use arrayvec::ArrayVec;
use ccan_accept::Frame;
use ccan_bus::{Bus, Decision, Fault, LoadAnswer, RoundAnswer, RoundLine};
use ccan_line::asking::{most_looks, place_of, word_fits};
use ccan_line::bus_course::{after_attempt, after_decision};
use ccan_line::bus_engine::{ask_course, change_of_aim, change_of_job, seek_course};
use ccan_line::bus_enter::enter;
use ccan_line::host_engine::{asked, change_of, moved, set_registers, transferred};
use ccan_line::{
    Aim, AttemptEnd, BusLine, BusPoint, Course, Engine, HostLine, HostPoint, Job, LineAnswer,
    LineEnd, NextAct, RegisterSet, Side, drive, run_bus_line,
};
use ccan_object::{Iface, ObjectNo, Profile, Record, Reg};
use ccan_ram::{Array, Change, Flag, Tries};
use std::process::Abort;

/// One try of a change.
fn one_try(rt: &impl Abort) -> Tries {
    let Some(tries) = Tries::new(1) else {
        panic!(rt; "no try")
    };
    tries
}

/// A transfer that reads mask, arbitration and control of object 1, and clears nothing.
fn pure_read() -> HostLine
    ensures { HostFits Profile.One result }
{
    let mut set = RegisterSet::new();
    set.push((Reg::CMask, 0x0070));
    HostLine::Transfer { request: 1, set }
}

/// What a host's line answers act by act.
fn driven(rt: &impl Abort, line: &HostLine) -> LineAnswer
    requires { HostFits Profile.One line.now }
{
    let mut ram = Array::new(Profile::One, 1);
    drive(&mut Iface::new(), &mut ram, line, one_try(rt))
}

/// What it answers as it runs in order.
fn run(rt: &impl Abort, line: &HostLine) -> LineAnswer
    requires { HostFits Profile.One line.now }
{
    let mut ram = Array::new(Profile::One, 1);
    Iface::new().run_line(&mut ram, line, one_try(rt))
}

/// A line answers so both ways.
fn answers(rt: &impl Abort, line: &HostLine, answer: &LineAnswer)
    requires { HostFits Profile.One line.now }
{
    holds(rt, driven(rt, line) == *answer);
    holds(rt, run(rt, line) == *answer);
}

#[test]
fn hosts_lines_are_driven(rt: HostRuntime) {
    let object = ObjectNo::from_request(Profile::One, 1);
    let read = LineAnswer::Read(object, Record::zero());
    answers(&rt, &pure_read(), &read);
    answers(&rt, &HostLine::Interrupt, &LineAnswer::Interrupt(0));
    let word = LineAnswer::Flags(Flag::MsgVal, 0, Profile::One);
    answers(&rt, &HostLine::Flags(Flag::MsgVal), &word);
}

#[test]
fn a_wait_goes_on_until_its_last_look(rt: HostRuntime) {
    let profile = Profile::One;
    let line = HostLine::Until {
        object: ObjectNo::from_request(profile, 1),
        flag: Flag::NewDat,
        turns: 2,
    };
    let none = Record::zero();
    let mut host = Iface::new();
    let first = host.enter(profile, &line);
    let Course::At(point) = first else {
        panic!(&rt; "no look")
    };
    holds(&rt, point == HostPoint::Asking { looks: 0, word: 0 });
    let act = host.next(profile, &line, &point);
    holds(
        &rt,
        matches!(act, NextAct::Look(object) if object.get() == 1),
    );
    same(&rt, most_looks(profile, &line), 2);
    holds(
        &rt,
        asked(profile, &line, 0, 0, &none) == Course::At((1, 0)),
    );
    let last = asked(profile, &line, 1, 0, &none);
    holds(
        &rt,
        matches!(
            last,
            Course::Ended(LineAnswer::Until(_, Flag::NewDat, false))
        ),
    );
}

#[test]
fn a_word_has_a_bit_for_each_look(rt: HostRuntime) {
    let profile = Profile::One;
    let line = HostLine::Flags(Flag::MsgVal);
    let mut shown = Record::zero();
    shown.valid = true;
    holds(&rt, word_fits(profile, &line, 1, 1));
    holds(&rt, !word_fits(profile, &line, 1, 2));
    same(&rt, place_of(profile, &line, 1).get(), 2);
    holds(
        &rt,
        asked(profile, &line, 0, 0, &shown) == Course::At((1, 1)),
    );
}

#[test]
fn a_transfer_sets_registers_and_is_a_change(rt: HostRuntime) {
    let mut host = Iface::new();
    set_registers(&mut host, &[(Reg::CMask, 0x0080)]);
    holds(&rt, matches!(change_of(&host), Change::Write(_, _)));
    let object = ObjectNo::from_request(Profile::One, 1);
    let answer = moved(&mut host, object, &Record::zero());
    same(&rt, answer, LineAnswer::Write(object, Record::zero()));
    let spent = transferred(&mut host, object, &AttemptEnd::WasSpent);
    same(&rt, spent, LineAnswer::Spent(object));
}

// ---- the bus

/// How a line ends on a bus as it opens, with one node beside the controller.
fn on_the_bus(rt: &impl Abort, line: &BusLine) -> LineEnd
    requires { BusFits 1 line.now }
{
    let mut ram = Array::new(Profile::One, 1);
    drive(&mut Bus::new(Profile::One, 1), &mut ram, line, one_try(rt))
}

#[test]
fn lines_of_the_bus_are_driven(rt: HostRuntime) {
    let nothing = LineAnswer::Load(LoadAnswer::Nothing);
    same(
        &rt,
        on_the_bus(&rt, &BusLine::Load),
        LineEnd::unframed(nothing),
    );
    let none = LineAnswer::Interrupt(0);
    same(
        &rt,
        on_the_bus(&rt, &BusLine::Interrupt),
        LineEnd::unframed(none),
    );
}

#[test]
fn a_driven_round_reports_its_frame(rt: HostRuntime) {
    let Ok(sent) = Frame::new(0x123, false, false, 0, [0; 8]) else {
        panic!(&rt; "no frame")
    };
    let mut sends = ArrayVec::new();
    sends.push((1, sent));
    let Some(round) = RoundLine::new(1, sends, Fault::Quiet) else {
        panic!(&rt; "no round")
    };
    let mut ram = Array::new(Profile::One, 1);
    let line = BusLine::Round(round);
    let end = drive(
        &mut Bus::new(Profile::One, 1),
        &mut ram,
        &line,
        one_try(&rt),
    );
    holds(
        &rt,
        end.answer == LineAnswer::Round(RoundAnswer::Received(None)),
    );
    holds(&rt, end.frame == Some(sent));
}

#[test]
fn a_bus_that_chooses_at_one_moment_runs_its_lines(rt: HostRuntime) {
    let mut ram = Array::new(Profile::One, 1);
    let mut bus = Bus::choosing_at_once(Profile::One, 1);
    let answer = run_bus_line(&mut bus, &mut ram, &BusLine::Load, one_try(&rt));
    same(&rt, answer, LineAnswer::Load(LoadAnswer::Nothing));
}

#[test]
fn a_load_begins_with_a_scan_for_a_start(rt: HostRuntime) {
    let mut bus = Bus::new(Profile::One, 1);
    let Course::At(BusPoint::Seeking { aim, object }) = enter(
        &mut bus,
        Profile::One,
        &BusLine::Load,
    ) else {
        panic!(&rt; "no scan")
    };
    same(&rt, aim, Aim::Start);
    same(&rt, object.get(), 1);
    same(&rt, change_of_aim(&aim), Change::Start);
    same(&rt, change_of_job(&Job::Scan(aim)), Change::Start);
}

#[test]
fn a_look_that_shows_an_interrupt_ends_the_line(rt: HostRuntime) {
    let mut shown = Record::zero();
    shown.intpnd = true;
    let course = ask_course(Profile::One, &BusLine::Interrupt, 2, 0, &shown);
    let third = LineEnd::unframed(LineAnswer::Interrupt(3));
    holds(&rt, course == Course::Ended(third));
}

#[test]
fn a_scan_goes_on_from_an_object_that_does_not_fit(rt: HostRuntime) {
    let mut bus = Bus::new(Profile::One, 1);
    let first = ObjectNo::from_request(Profile::One, 1);
    let none = Record::zero();
    let course = seek_course(
        &mut bus,
        Profile::One,
        &BusLine::Load,
        &Aim::Start,
        first,
        &none,
    );
    let Course::At(BusPoint::Seeking { aim, object }) = course else {
        panic!(&rt; "no scan")
    };
    same(&rt, aim, Aim::Start);
    same(&rt, object.get(), 2);
}

#[test]
fn a_scan_that_gives_up_ends_the_load(rt: HostRuntime) {
    let mut bus = Bus::new(Profile::One, 1);
    let object = ObjectNo::from_request(Profile::One, 1);
    let job = Job::Scan(Aim::Start);
    let end = AttemptEnd::GaveUp;
    let course = after_attempt(&mut bus, Profile::One, &BusLine::Load, job, object, end);
    let busy = LineEnd::unframed(LineAnswer::Load(LoadAnswer::Busy(object)));
    holds(&rt, course == Course::Ended(busy));
}

#[test]
fn a_round_without_a_sender_is_idle(rt: HostRuntime) {
    let course = after_decision(Profile::One, &BusLine::Load, &Decision::Idle);
    let idle = LineEnd::unframed(LineAnswer::Round(RoundAnswer::Idle));
    holds(&rt, course == Course::Ended(idle));
}
