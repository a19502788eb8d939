//! Worked examples of fault confinement, with numbers from the rules and not from the program.

use crate::expect::{holds, same};
use ccan_confine::{BusEvent, Counters, NodeState, Status, StatusEvent, laws};

/// The counters after so many equal events.
fn repeated(counters: Counters, event: BusEvent, times: u16) -> Counters {
    let mut counters = counters;
    for _ in 0..times {
        counters = counters.after(event);
    }
    counters
}

/// TEC, REC, the state, and whether the node counts groups to return.
fn shown(counters: &Counters) -> (u16, u8, NodeState, bool) {
    (
        counters.tec(),
        counters.rec(),
        counters.state(),
        counters.recovering(),
    )
}

#[test]
fn counters_follow_the_table(rt: HostRuntime) {
    use BusEvent::{ReceiveFault, Received, SendFault, SendNoAck, Sent};
    use NodeState::{Active, Off, Passive};

    for (first, firsts, second, seconds, want) in [
        (ReceiveFault, 130, Received, 0, (0, 130, Passive, false)),
        (ReceiveFault, 130, Received, 1, (0, 119, Active, false)),
        (ReceiveFault, 127, Received, 1, (0, 126, Active, false)),
        (ReceiveFault, 128, Received, 1, (0, 119, Active, false)),
        (ReceiveFault, 300, Received, 0, (0, 255, Passive, false)),
        (ReceiveFault, 32, Received, 1, (0, 31, Active, false)),
        (SendNoAck, 16, Sent, 0, (128, 0, Passive, false)),
        (SendNoAck, 17, Sent, 0, (128, 0, Passive, false)),
        (SendFault, 31, SendNoAck, 9, (248, 0, Passive, false)),
        (SendFault, 15, Sent, 0, (120, 0, Active, false)),
        (SendFault, 1, Sent, 1, (7, 0, Active, false)),
        (SendFault, 1, Sent, 9, (0, 0, Active, false)),
        (SendFault, 1, Received, 1, (8, 0, Active, false)),
        (SendFault, 33, Sent, 0, (256, 0, Off, true)),
        (SendFault, 32, Received, 1, (256, 0, Off, true)),
        (SendFault, 32, ReceiveFault, 1, (256, 0, Off, true)),
    ] {
        let before = repeated(Counters::new(false), first, firsts);
        let after = repeated(before, second, seconds);
        same(&rt, (first, firsts, shown(&after)), (first, firsts, want));
    }
    holds(&rt, Active < Passive && Passive < Off);
    same(&rt, NodeState::default(), Active);
}

#[test]
fn a_controller_comes_back_and_recovery_sets_the_code(rt: HostRuntime) {
    let off = repeated(Counters::new(true), BusEvent::SendFault, 33);
    same(&rt, shown(&off), (256, 0, NodeState::Off, false));
    same(&rt, off.recessive_groups(500), off);
    let mut status = Status::new();
    status.after(StatusEvent::Fault(6), &off);
    let begun = off.clear_init();
    status.enable(true, true);
    status.after(StatusEvent::Level, &begun);
    let waits = begun.recessive_groups(127);
    same(&rt, shown(&waits), (256, 0, NodeState::Off, true));
    status.after(StatusEvent::Recovery, &waits);
    holds(&rt, !status.pending());
    let back = waits.recessive_groups(1);
    same(&rt, shown(&back), (0, 0, NodeState::Active, false));
    status.after(StatusEvent::Recovery, &back);
    holds(&rt, status.pending());
    same(&rt, (status.lec(), status.read(&back)), (5, 0x0005));
    holds(&rt, !status.pending());
}

/// The laws do nothing: they are called so that each is seen to hold.
#[test]
fn laws_stand(_rt: HostRuntime) {
    laws::counters_are_bounded();
    laws::off_nodes_keep_their_counters();
    laws::only_send_faults_lead_off();
    laws::on_without_send_faults();
    laws::not_back_before_the_groups();
    laws::not_back_before_init();
    laws::not_back_before_the_groups_after_init();
    laws::back_with_the_groups();
    laws::back_with_the_groups_after_init();
    laws::groups_count_only_while_recovering();
    laws::only_the_first_clearing_counts();
    laws::reads_clear();
    laws::enabling_makes_nothing_pending();
    laws::causes_make_pending();
    laws::passive_makes_nothing_pending();
}
