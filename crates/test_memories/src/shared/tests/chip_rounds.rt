//! Rounds of a chip whose controller's registers the host reads and writes: worked examples from the C_CAN User's Manual 1.2 and
//! CAN Specification 2.0, "Fault Confinement". And ports that change the controller at once, in threads of their own.
use super::*;
use crate::expect::{empty_frame, holds, same, tries};
use crate::shared::chip_bench::{ChipBench, line_of};
use crate::shared::chip_threads::rounds_beside_a_host;
use crate::shared::chips::{Counted, three_at_the_controller};
use ccan_bus::{Fault, LoadAnswer, RoundAnswer, RoundLine};
use ccan_chip::laws;
use ccan_confine::NodeState;

/// A round in which nobody else sends.
fn silent(rt: &impl Abort, fault: Fault) -> RoundLine {
    line_of(rt, None, fault)
}

/// A round in which node 1 sends the frame 0x100 without bytes.
fn heard(rt: &impl Abort, fault: Fault) -> RoundLine {
    line_of(rt, Some(empty_frame(0x100)), fault)
}

#[test]
fn takes_part_while_init_is_clear(rt: HostRuntime) {
    let mut bench = ChipBench::open(&rt, rt.alloc());
    let opened = bench.controller();
    same(
        &rt,
        (opened.control.word(), opened.timing.register()),
        (0x0001, 0x2301),
    );
    holds(&rt, bench.object(&message(0x0188)));
    let (loading, answer) = bench.round(&silent(&rt, Fault::Quiet));
    same(
        &rt,
        (loading, answer),
        (LoadAnswer::Nothing, RoundAnswer::Idle),
    );
    holds(&rt, bench.write_control(false, true));
    let (init, answer) = bench.load();
    holds(&rt, !init && matches!(answer, LoadAnswer::Loaded(_, _)));
    same(&rt, bench.loaded(), Some(32));
    let (loading, answer) = bench.round(&silent(&rt, Fault::Quiet));
    holds(&rt, matches!(loading, LoadAnswer::Held(_)));
    holds(&rt, matches!(answer, RoundAnswer::Sent(_, _)));
    same(&rt, bench.read_status(), (true, false));
    // TxOk, and LEC 0.
    same(&rt, bench.close(&rt).controller.status_word(), 0x0008);
    laws::rounds_find_their_counters();
}

#[test]
fn goes_off_and_comes_back_by_its_host(rt: HostRuntime) {
    let mut bench = ChipBench::open(&rt, rt.alloc());
    holds(&rt, bench.write_control(false, false));
    holds(&rt, bench.object(&message(0x0188)));
    for _ in 0..32 {
        let (_, answer) = bench.round(&silent(&rt, Fault::Crc));
        same(&rt, answer, RoundAnswer::Fault);
    }
    // BOff, EWarn, EPass and LEC 6; going off sets Init.
    let off = bench.controller();
    same(
        &rt,
        (off.status_word(), off.control.word()),
        (0x00e6, 0x0001),
    );
    let (_, answer) = bench.round(&heard(&rt, Fault::Quiet));
    same(&rt, answer, RoundAnswer::Passed);
    same(&rt, bench.recessive(500), Some(NodeState::Off));
    holds(&rt, bench.write_control(false, false));
    same(&rt, bench.recessive(127), Some(NodeState::Off));
    same(&rt, bench.recessive(1), Some(NodeState::Active));
    // What was to be sent is loaded again, and then it hears another node.
    let (loading, _) = bench.round(&silent(&rt, Fault::Quiet));
    holds(&rt, matches!(loading, LoadAnswer::Loaded(_, _)));
    let (_, answer) = bench.round(&heard(&rt, Fault::Quiet));
    same(&rt, answer, RoundAnswer::Received(None));
    // TxOk, RxOk, and LEC 0.
    same(&rt, bench.controller().status_word(), 0x0018);
    same(&rt, bench.others(), (2, true));
}

#[test]
fn no_event_is_lost_while_a_host_writes(rt: HostRuntime) {
    let Ok((ram, host, other, port)) = EndlessRam::open_ram(rt.alloc(), Profile::One, 64) else {
        panic!(&rt; "no memory")
    };
    let lines = [heard(&rt, Fault::Crc), heard(&rt, Fault::Quiet)];
    let (at_work, last) = rounds_beside_a_host(
        &rt,
        rt.alloc(),
        ram,
        (host, other, port),
        &lines,
        20_000,
        tries(1000),
    );
    // In how many rounds the controller takes part depends on the schedule: if the host sleeps while Init is set, in none.
    holds(&rt, at_work.all_noted);
    let controller = last.controller;
    same(&rt, at_work.counters, controller.counters);
    let left = u32::from(controller.transfer_pending);
    same(&rt, at_work.raised, at_work.read.saturating_add(left));
}

/// Holds a port to all its changes, each in turn.
fn made_in_turn(rt: &impl Abort, counted: Counted) {
    same(rt, (counted.made, counted.own_in_turn), (100_000, true));
}

#[test]
fn no_event_of_the_controller_is_lost(rt: HostRuntime) {
    let Ok((ram, if1, if2, bus)) = EndlessRam::open_ram(rt.alloc(), Profile::One, 64) else {
        panic!(&rt; "no memory")
    };
    let ([writer, reader, sender], last) = three_at_the_controller(
        &rt,
        ram,
        if1,
        if2,
        bus,
        100_000,
        tries(1000),
    );
    made_in_turn(&rt, writer);
    made_in_turn(&rt, reader);
    made_in_turn(&rt, sender);
    // The last writes are those of the turn 99,999, and so many receive faults as good frames were received.
    let controller = last.controller;
    let control = controller.control;
    same(&rt, (control.init, control.sie), (false, true));
    same(&rt, controller.counters.rec(), 0);
    let left = u32::from(controller.transfer_pending);
    same(&rt, sender.pending, reader.pending.saturating_add(left));
}
