//! The words of the command line, and the text and the status of each fault.
use crate::expect::same;
use ccan_ram::PortName;
use ccan_run::{CliError, RunError, RunMode, mode};
use ccan_script::{ListName, ScriptError};
use std::alloc::{AllocError, Global};
use std::fmt::Display;
use std::process::Abort;

/// Holds what words of the command line mean to what was wanted.
fn mean(rt: &impl Abort, alloc: Global, words: &[&str], want: Result<RunMode, CliError>) {
    same(rt, (words.len(), mode(alloc, words)), (words.len(), want));
}

#[test]
fn takes_the_name_of_a_mode(rt: HostRuntime) {
    let refused = Err(CliError::Words);
    mean(&rt, rt.alloc(), &["ccan"], Ok(RunMode::Run));
    mean(&rt, rt.alloc(), &["ccan", "run"], Ok(RunMode::Run));
    mean(&rt, rt.alloc(), &["ccan", "threads"], Ok(RunMode::Threads));
    mean(&rt, rt.alloc(), &["ccan", ""], refused);
    mean(&rt, rt.alloc(), &["ccan", "run", "threads"], refused);
    mean(&rt, rt.alloc(), &["threads"; 1000], refused);
}

/// What a value shows of itself.
fn shown<T: Display>(alloc: Global, value: &T) -> Result<String, AllocError> {
    format!(in alloc; "{value}")
}

/// Holds what a value shows of itself to a text.
fn shows<T: Display>(rt: &impl Abort, alloc: Global, value: &T, want: &str) {
    match shown(alloc, value) {
        Ok(text) => same(rt, text.as_str(), want),
        Err(_) => panic!(rt; "no memory"),
    }
}

/// Holds what a fault of a run shows of itself, and its status, to these.
fn tells(rt: &impl Abort, alloc: Global, fault: RunError, want: &str, status: u8) {
    shows(rt, alloc, &fault, want);
    same(rt, (want, fault.status()), (want, status));
}

/// The faults of a run.
const RUNS: [(RunError, &str, u8); 7] = [
    (RunError::Read, "ccan: input could not be read", 4),
    (RunError::TooLong, "ccan: input too long", 1),
    (RunError::Memory, "ccan: out of memory", 3),
    (RunError::Write, "ccan: output could not be written", 4),
    (RunError::Quota, "ccan: quota out of range", 1),
    (RunError::Spawn, "ccan: threads could not be started", 4),
    (
        RunError::Held {
            port: PortName::If2,
            line: 31,
        },
        "ccan: held, if2 31",
        4,
    ),
];

/// The faults of a script. Each list is named once.
const SCRIPTS: [(ScriptError, &str, u8); 10] = [
    (ScriptError::NotJson, "ccan: script: not JSON", 1),
    (
        ScriptError::Shape {
            list: ListName::If1,
            index: 12,
        },
        "ccan: script: shape, if1 12",
        1,
    ),
    (
        ScriptError::Shape {
            list: ListName::If2,
            index: 1999,
        },
        "ccan: script: shape, if2 1999",
        1,
    ),
    (
        ScriptError::Range {
            list: ListName::Top,
            index: 0,
        },
        "ccan: script: range, top 0",
        1,
    ),
    (
        ScriptError::Range {
            list: ListName::Bus,
            index: 7,
        },
        "ccan: script: range, bus 7",
        1,
    ),
    (
        ScriptError::TooMany {
            list: ListName::Order,
        },
        "ccan: script: too many, order",
        1,
    ),
    (
        ScriptError::Order {
            port: PortName::Bus,
        },
        "ccan: script: order, bus",
        1,
    ),
    (
        ScriptError::TooMany {
            list: ListName::Before,
        },
        "ccan: script: too many, before",
        1,
    ),
    (
        ScriptError::Before {
            port: PortName::If1,
        },
        "ccan: script: before, if1",
        1,
    ),
    (ScriptError::Memory, "ccan: out of memory", 3),
];

/// Holds what each fault shows of itself, and its status, to what was wanted.
fn tell(
    rt: &impl Abort,
    alloc: Global,
    runs: &[(RunError, &str, u8)],
    scripts: &[(ScriptError, &str, u8)],
) {
    for (fault, want, status) in runs {
        tells(rt, alloc, *fault, want, *status);
    }
    for (fault, want, status) in scripts {
        tells(rt, alloc, RunError::Script(*fault), want, *status);
    }
}

#[test]
fn tells_each_fault(rt: HostRuntime) {
    tell(&rt, rt.alloc(), &RUNS, &SCRIPTS);
}

#[test]
fn tells_each_fault_of_a_command_line(rt: HostRuntime) {
    for (fault, want, status) in [
        (CliError::Words, "ccan: command line", 2),
        (CliError::Memory, "ccan: out of memory", 3),
    ] {
        shows(&rt, rt.alloc(), &fault, want);
        same(&rt, (want, fault.status()), (want, status));
    }
}
