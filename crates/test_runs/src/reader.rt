//! The reader of scripts and the texts of answers, each call once, with what no run in an order shows: there no try is lost, so
//! neither how many there are nor Busy is seen, and another look finds nothing new, so how often a wait looks isn't seen.
use crate::expect::{holds, same};
use crate::runs::{object_no, read};
use ccan_bus::{LoadAnswer, RoundAnswer};
use ccan_object::{DataLength, Identifier, ObjectNo, Profile, Record};
use ccan_outcomes::looking_once;
use ccan_ram::{Flag, PortName};
use ccan_script::{HostLine, LineAnswer, PrintedLine, RaceScript, Script, print_final, print_line};
use std::alloc::Global;
use std::process::Abort;

/// The numbers at the top of a script.
fn numbers(script: &Script) -> (Profile, u64, u16, u8) {
    (
        script.profile,
        script.quota,
        script.tries.get(),
        script.nodes,
    )
}

/// What IF2 waits for in its first line, and for how many turns.
fn wait(script: &Script) -> Option<(ObjectNo, Flag, u32)> {
    match script.if2.first() {
        Some(
            HostLine::Until {
                object,
                flag,
                turns,
            },
        ) => Some((*object, *flag, *turns)),
        _ => None,
    }
}

/// The greatest numbers.
const MOST: &str = r#"{"nodes":8,"tries":1000,"quota":4096,"profile":2,
    "if2":[{"op":"until","object":33,"flag":"msglst","turns":1000000}]}"#;

/// The same script with waits that look once.
fn looks_once(rt: &impl Abort, alloc: Global, script: Script) -> Script {
    match looking_once(alloc, RaceScript::at_once(alloc, script)) {
        Ok(race) => race.script,
        Err(_) => panic!(rt; "no memory"),
    }
}

#[test]
fn reads_numbers(rt: HostRuntime) {
    let least = read(&rt, rt.alloc(), "{}");
    same(&rt, numbers(&least), (Profile::One, 64, 100, 0));
    same(&rt, wait(&least), None);
    let most = read(&rt, rt.alloc(), MOST);
    same(&rt, numbers(&most), (Profile::Two, 4096, 1000, 8));
    let object = object_no(&rt, 33);
    same(&rt, wait(&most), Some((object, Flag::MsgLst, 1_000_000)));
    let once = looks_once(&rt, rt.alloc(), most);
    same(&rt, wait(&once), Some((object, Flag::MsgLst, 1)));
}

/// A message of identifier 0x123 with eight bytes, sent by the controller.
fn message() -> Record {
    Record {
        valid: true,
        dir: true,
        id: Identifier::of(0x123 << 18),
        eob: true,
        dlc: DataLength::of(8),
        bytes: [0x11, 0x22, 0x33, 0x44, 0x55, 0x66, 0x77, 0x88],
        ..Record::zero()
    }
}

/// The line of an answer.
fn line(port: PortName, answer: &LineAnswer) -> PrintedLine {
    print_line(port, answer)
}

/// The line of an object at the end.
fn last_line(object: ObjectNo, left: &Record) -> Option<PrintedLine> {
    print_final(object, left)
}

#[test]
fn prints_lines(rt: HostRuntime) {
    let two = object_no(&rt, 2);
    for (port, answer, want) in [
        (
            PortName::If1,
            LineAnswer::Write(object_no(&rt, 64), message()),
            "if1 write 64 a48c0000 00000000 0088 1122334455667788\n",
        ),
        (PortName::If2, LineAnswer::Busy(two), "if2 busy 02\n"),
        (
            PortName::Bus,
            LineAnswer::Load(LoadAnswer::Busy(two)),
            "bus busy 02\n",
        ),
        (
            PortName::Bus,
            LineAnswer::Round(RoundAnswer::Busy(two)),
            "bus busy 02\n",
        ),
    ] {
        same(&rt, line(port, &answer).as_str(), want);
    }
}

#[test]
fn prints_what_is_left(rt: HostRuntime) {
    let two = object_no(&rt, 2);
    let Some(line) = last_line(two, &message()) else {
        panic!(rt; "no line")
    };
    let want = "final 02 a48c0000 00000000 0088 1122334455667788\n";
    same(&rt, line.as_str(), want);
    holds(&rt, last_line(two, &Record::zero()).is_none());
}
