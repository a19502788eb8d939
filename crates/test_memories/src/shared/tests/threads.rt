//! Ports in threads of their own.

use super::*;
use crate::expect::{same, tries};
use crate::shared::rivals::{Plan, Seen, Task, three_at_work};
use ccan_ram::Final;
use std::thread::Threads;

/// What three ports that work on the objects of these requests see, and what they leave.
fn worked<R: SharedRam + Sync, T: Abort + Threads + Sync>(
    rt: &T,
    alloc: Global,
    requests: [u16; 3],
    quota: u64,
    turns: u16,
    most: Tries,
) -> ([Seen; 3], Final) {
    let Ok((ram, if1, if2, bus)) = R::open_ram(alloc, Profile::One, quota) else {
        panic!(rt; "no memory")
    };
    let [a, b, c] = requests;
    let plan = Plan {
        objects: [
            ObjectNo::from_request(ram.profile(), a),
            ObjectNo::from_request(ram.profile(), b),
            ObjectNo::from_request(ram.profile(), c),
        ],
        tasks: [Task::Masks, Task::Bytes, Task::Finishes],
        turns,
        tries: most,
    };
    three_at_work(rt, ram, if1, if2, bus, plan)
}

/// Each port made so many changes, each in turn, and what two of them counted is in these records.
fn counted(rt: &impl Abort, seen: &[Seen; 3], turns: u16, masks: &Record, bytes: &Record) {
    for port in seen {
        same(
            rt,
            (port.made, port.own_in_turn, port.others_rise),
            (turns, true, true),
        );
    }
    same(rt, Task::Masks.count_in(masks), u32::from(turns));
    same(rt, Task::Bytes.count_in(bytes), u32::from(turns));
}

/// No port was busy.
fn never_busy(rt: &impl Abort, seen: &[Seen; 3]) {
    for port in seen {
        same(rt, port.busy, 0);
    }
}

#[test]
fn other_objects_never_cost_a_try(rt: HostRuntime) {
    let (seen, last) = worked::<WordRam, HostRuntime>(
        &rt,
        rt.alloc(),
        [1, 2, 3],
        1000,
        1000,
        tries(1),
    );
    counted(&rt, &seen, 1000, &last.records[0], &last.records[1]);
    never_busy(&rt, &seen);
}

#[test]
fn three_threads_count_in_one_object(rt: HostRuntime) {
    let (seen, last) = worked::<WordRam, HostRuntime>(
        &rt,
        rt.alloc(),
        [1, 1, 1],
        1000,
        1000,
        tries(1000),
    );
    counted(&rt, &seen, 1000, &last.records[0], &last.records[0]);
    let (seen, last) = worked::<EndlessRam, HostRuntime>(
        &rt,
        rt.alloc(),
        [1, 1, 1],
        65_535,
        65_535,
        tries(1000),
    );
    counted(&rt, &seen, 65_535, &last.records[0], &last.records[0]);
}

#[test]
fn three_threads_count_behind_one_word(rt: HostRuntime) {
    let (seen, last) = worked::<RootRam, HostRuntime>(
        &rt,
        rt.alloc(),
        [1, 1, 2],
        64,
        64,
        tries(200),
    );
    counted(&rt, &seen, 64, &last.records[0], &last.records[0]);
    never_busy(&rt, &seen);
}
