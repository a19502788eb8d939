//! Worked examples of the message handler, over a plain memory.
use crate::expect::{
    BYTES, CONTROL, MESSAGE, RECEIVER, change_of, found, frame, holds, same, shown,
};
use crate::plain::Plain;
use ccan_handler::{ScanRefused, laws};
use ccan_object::{Profile, Reg};
use ccan_ram::{Flag, PortName, Refused, Sending};

#[test]
fn reads_flags_and_interrupt_value(rt: HostRuntime) {
    let mut ram = Plain::new(Profile::One, 64);
    same(&rt, ram.interrupt(false), [0, 0]);
    holds(&rt, ram.write(7, &CONTROL, &[(Reg::Ctrl, 0x2080)]));
    holds(&rt, ram.write(0, &CONTROL, &[(Reg::Ctrl, 0x6100)]));
    for (flag, word) in [
        (Flag::IntPnd, 0x8000_0040),
        (Flag::TxRqst, 0x8000_0000),
        (Flag::MsgLst, 0x8000_0000),
        (Flag::NewDat, 0),
        (Flag::MsgVal, 0),
    ] {
        same(&rt, (flag, ram.flags(flag)), (flag, [word, word]));
    }
    same(&rt, ram.interrupt(false), [0x0007, 0x0007]);
    same(&rt, ram.interrupt(true), [0x8000, 0x8000]);
    holds(&rt, !ram.shows_within(2, Flag::TxRqst, 1));
    holds(&rt, ram.shows_within(0, Flag::TxRqst, 1));
    holds(&rt, !ram.shows_within(0, Flag::TxRqst, 0));
}

#[test]
fn receives_where_the_filter_accepts(rt: HostRuntime) {
    let mut ram = Plain::new(Profile::One, 64);
    holds(&rt, ram.write(2, &RECEIVER, &[(Reg::Ctrl, 0x8488)]));
    let received = frame(0x123, false, false, 3, [1, 2, 3, 0, 0, 0, 0, 0]);
    let stored = found(&rt, ram.receive(&received));
    same(&rt, stored.object.get(), 2);
    same(&rt, shown(&stored.before), (0x848c0000, 0, 0x8488, [0; 8]));
    same(
        &rt,
        shown(&stored.after),
        (0x848c0000, 0, 0xe483, [1, 2, 3, 0, 0, 0, 0, 0]),
    );
    same(&rt, ram.receive_from(&received, 3), Ok(None));
}

#[test]
fn chooses_until_the_quota_is_spent(rt: HostRuntime) {
    let mut ram = Plain::new(Profile::Two, 1);
    same(&rt, ram.choose_at_once(Sending::UntilSent), Ok(None));
    holds(&rt, ram.write(0, &MESSAGE, &[(Reg::Ctrl, 0x8188)]));
    let ready = change_of(&MESSAGE, &[(Reg::Ctrl, 0x0188)]);
    holds(&rt, ram.change(PortName::If2, 5, &ready).is_ok());
    let (chosen, started) = found(&rt, ram.choose());
    same(&rt, chosen.get(), 5);
    same(&rt, shown(&started), (0xa48c0000, 0, 0x0188, BYTES));
    let why = Refused::Spent;
    let (fifth, last) = (ram.object(5), ram.object(0));
    same(&rt, ram.choose(), Err(ScanRefused { at: fifth, why }));
    same(&rt, ram.choose_from(6), Err(ScanRefused { at: last, why }));
    same(
        &rt,
        ram.choose_at_once(Sending::UntilSent),
        Err(ScanRefused { at: fifth, why }),
    );
}

#[test]
fn chooses_once_with_dar(rt: HostRuntime) {
    let mut ram = Plain::new(Profile::One, 4);
    let ready = change_of(&MESSAGE, &[(Reg::Ctrl, 0x8188)]);
    holds(&rt, ram.change(PortName::If2, 5, &ready).is_ok());
    let (chosen, started) = found(&rt, ram.choose_at_once(Sending::Once));
    same(&rt, chosen.get(), 5);
    same(&rt, shown(&started), (0xa48c0000, 0, 0x8088, BYTES));
    same(&rt, ram.choose_at_once(Sending::UntilSent), Ok(None));
}

#[test]
fn holds_by_its_laws() {
    laws::fitting_is_not_passed_over();
    laws::nothing_found_looks_everywhere();
    laws::scans_change_what_fits();
    laws::chosen_is_ready();
    laws::scans_leave_out_what_is_before();
    laws::scans_are_bounded();
    laws::waiting_answers_yes_at_its_last_look();
    laws::waiting_answers_no_after_all_turns();
    laws::interrupts_are_bounded();
    laws::flags_take_one_look_each();
    laws::each_flag_is_shown();
    laws::flags_are_of_one_moment();
    laws::interrupt_is_of_one_moment();
    laws::choice_is_of_one_moment();
}
