//! Rounds step by step.

ghost use Rattle.std.specs.Prelude.{◌≤◌};
ghost use Rattle.ccan_ram.specs.Port.{IsQuota};

use super::bench::{Bench, object};
use crate::expect::{BYTES, MESSAGE, empty_frame, frame, holds, same};
use ccan_accept::Frame;
use ccan_bus::{Bus, Choice, Decision, Fault, LoadAnswer, MemoryStep};
use ccan_confine::NodeState;
use ccan_object::Reg;

/// The frame of the message.
fn own() -> Frame {
    frame(0x123, false, false, 8, BYTES)
}

/// A memory and a bus with so many other nodes; the message waits in object 1.
fn bench(nodes: u8, quota: u64) -> Bench
    requires nodes { nodes ≤ 8 }
    requires quota { IsQuota quota }
{
    let mut bench = Bench::new(nodes, quota);
    let _made = bench.transfer(0x0001, &MESSAGE, &[(Reg::Ctrl, 0x0188)]);
    bench
}

#[test]
fn decides_by_the_frames(rt: HostRuntime) {
    let lower = empty_frame(0x100);
    let equal = frame(0x123, false, false, 8, [0; 8]);
    let higher = empty_frame(0x124);
    let rows = [
        (lower, Fault::Quiet, Decision::Receipt(1, lower)),
        (lower, Fault::Crc, Decision::Fault(1, lower)),
        (equal, Fault::Quiet, Decision::Collision),
        (higher, Fault::Quiet, Decision::Finish(object(1), own())),
        (higher, Fault::Form, Decision::Fault(0, own())),
    ];
    for (theirs, fault, decided) in rows {
        let mut whole = bench(1, 64);
        holds(&rt, whole.decides(&[(1, theirs)], fault) == Some(decided));
        let mut again = bench(1, 64);
        let mut parted = bench(1, 64);
        holds(&rt, again.is_parted(&mut parted, &[(1, theirs)], fault));
        same(&rt, parted.counters(0), again.counters(0));
    }
    // nobody acknowledges the only node
    let mut alone = bench(0, 64);
    let decided = Some(Decision::NoAck(0, own()));
    holds(&rt, alone.decides(&[], Fault::Quiet) == decided);
}

/// What the Status register reads and the controller's TEC.
fn status_and_tec(bus: Bus) -> (u16, u16) {
    let mut bus = bus;
    (bus.status_read(), bus.counters(0).tec())
}

#[test]
fn a_part_of_the_bus_is_renewed(rt: HostRuntime) {
    let mut spoiled = bench(1, 64);
    for _ in 0..3 {
        let _fault = spoiled.round(&[], Fault::Crc);
    }
    let bus = spoiled.bus();
    // LEC 6, and 8 for each error of a sender
    same(&rt, status_and_tec(bus), (0x0006, 24));
    let status = bus.with_new_status();
    same(&rt, status_and_tec(status), (0x0000, 24));
    let counters = bus.with_new_counters();
    same(&rt, status_and_tec(counters), (0x0006, 0));
    same(
        &rt,
        (status.loaded(), counters.loaded()),
        (bus.loaded(), bus.loaded()),
    );
    // 28 rounds more bring TEC to at most 248, and 29 may bring it to 256, which is off
    holds(&rt, bus.are_low(28) && !bus.are_low(29));
    holds(&rt, counters.are_low(31) && !counters.are_low(32));
    holds(&rt, !counters.are_low(u64::MAX));
}

#[test]
fn holds_what_it_loaded_or_noted(rt: HostRuntime) {
    let mut loading = Bench::choosing_at_once(1, 64);
    same(&rt, loading.choice(), Choice::AtOnce);
    holds(
        &rt,
        loading.transfer(0x0001, &MESSAGE, &[(Reg::Ctrl, 0x0188)]),
    );
    let _loaded = loading.load();
    holds(&rt, loading.load() == LoadAnswer::Held(object(1)));
    // a start that was made outside of a load, and noted
    let mut noted = bench(1, 64);
    holds(&rt, noted.controller_is_on());
    holds(&rt, noted.start(0x0001));
    holds(&rt, noted.loaded() == Some((object(1), noted.record(1))));
    holds(&rt, noted.load() == LoadAnswer::Held(object(1)));
}

#[test]
fn tells_which_step_was_refused(rt: HostRuntime) {
    let mut bench = bench(1, 1);
    let _loaded = bench.load();
    let held = (Some(LoadAnswer::Held(object(1))), Some(MemoryStep::Finish));
    holds(&rt, bench.refused_step() == held);
    let spent = (Some(LoadAnswer::Spent(object(1))), Some(MemoryStep::Start));
    holds(&rt, bench.refused_step() == spent);
    same(&rt, bench.loaded(), None);
}

#[test]
fn sends_to_itself_in_loop_back_mode(rt: HostRuntime) {
    let mut bench = bench(1, 64);
    bench.loop_back(true);
    let decided = Decision::LoopBack(object(1), own());
    holds(
        &rt,
        bench.decides(&[(1, empty_frame(0x100))], Fault::Crc) == Some(decided),
    );
    same(&rt, decided.winner(), Some((0, own())));
}

#[test]
fn interrupts_and_comes_back(rt: HostRuntime) {
    let mut bench = bench(2, 64);
    for _ in 0..32 {
        let _fault = bench.round(&[], Fault::Crc);
    }
    let want = [NodeState::Off, NodeState::Off, NodeState::Active];
    same(&rt, bench.comes_back(), want);
    let mut other = Bench::new(1, 64);
    let heard = other.interrupts(&[(1, empty_frame(0x7ff))]);
    same(&rt, heard, (true, 0x0010, false));
}
