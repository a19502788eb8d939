//! The controller's registers as one value and as one word: worked examples from the C_CAN User's Manual 1.2.

ghost use Rattle.ccan_confine.specs.Controller.{CanMake};

use crate::expect::{holds, same};
use ccan_confine::ControllerChange::{
    Frame, Join, PowerDown, ReadAndClearStatus, ReadStatus, Recessive, Reset, ResetDcan,
    WriteBitTiming, WriteControl, WriteControlBits, WriteExtension, WriteStatus, WriteTest,
    WriteTiming,
};
use ccan_confine::{
    BitTiming, BusEvent, ControlRegister, Controller, ControllerChange, NodeState, StatusEvent,
    StatusFlags, TestRegister, laws,
};
use std::process::Abort;

/// A controller after a change, with no promise.
fn after(controller: Controller, change: ControllerChange) -> Controller
    requires { CanMake change }
{
    controller.after(&change)
}

/// A controller whose Control register was written: Init 0, IE 1, SIE 2, EIE 3, DAR 5, CCE 6, Test 7.
fn controlled(controller: Controller, word: u32) -> Controller {
    controller.after(&WriteControl(ControlRegister::of_word(word)))
}

/// A controller as it opens, with Test of the Control register and these bits of the Test register: Basic 2, Silent 3, LBack 4.
fn testing(word: u16) -> Controller {
    let opened = controlled(Controller::new(), 0x80);
    opened.after(&WriteTest(TestRegister::of_word(word)))
}

/// A controller as it opens, after a write of its Control, Bit Timing and BRP Extension registers, in this order.
fn timed(word: u32, register: u16, extension: u16) -> Controller {
    let opened = controlled(Controller::new(), word);
    let written = opened.after(&WriteBitTiming(register));
    written.after(&WriteExtension(extension))
}

/// A controller as it opens, after so many errors in its own frames, with the code of bit 1.
fn after_send_faults(times: u16) -> Controller {
    let mut controller = Controller::new();
    for _ in 0..times {
        controller = controller.after(&Frame(BusEvent::SendFault, StatusEvent::Fault(4)));
    }
    controller
}

/// The words of the Control, Status and Error Counter registers.
fn words(controller: &Controller) -> (u16, u16, u16) {
    (
        controller.control.word(),
        controller.status_word(),
        controller.error_counter_word(),
    )
}

/// The words of its Bit Timing and its BRP Extension registers.
fn timing_of(controller: &Controller) -> (u16, u16) {
    (controller.timing.register(), controller.timing.extension())
}

#[test]
fn goes_off_and_comes_back(rt: HostRuntime) {
    // EWarn, EPass and LEC 4, and TEC; then BOff and Init beside them, and TEC 256, which shows as 255.
    same(&rt, words(&after_send_faults(31)), (0x0000, 0x0064, 0x00f8));
    let off = after(after_send_faults(32), Recessive(500));
    same(&rt, words(&off), (0x0001, 0x00e4, 0x00ff));
    // A host may set Init again meanwhile: the count goes on. A group on the way back sets LEC to 5.
    let begun = after(controlled(off, 0x00), Recessive(127));
    let waits = controlled(begun, 0x01);
    same(&rt, waits.counters.state(), NodeState::Off);
    let back = after(waits, Recessive(1));
    same(&rt, back.counters.state(), NodeState::Active);
    same(&rt, words(&back), (0x0001, 0x0005, 0x0000));
    // RP at bit 15 if REC is 128 or more.
    let mut heard = after_send_faults(2);
    for (times, word) in [(127, 0x7f10), (1, 0x8010)] {
        for _ in 0..times {
            let fault = StatusEvent::Fault(1);
            heard = after(heard, Frame(BusEvent::ReceiveFault, fault));
        }
        same(&rt, heard.error_counter_word(), word);
    }
}

#[test]
fn status_may_be_written_and_read(rt: HostRuntime) {
    let opened = Controller::new();
    let received = after(opened, Frame(BusEvent::Received, StatusEvent::Received));
    same(&rt, received.status_word(), 0x0010);
    // A host clears RxOk and writes LEC 7, to see whether an event sets LEC after that.
    let written = after(received, WriteStatus(StatusFlags::new(false, false, 7)));
    same(&rt, written.status_word(), 0x0007);
    let sent = after(written, Frame(BusEvent::Sent, StatusEvent::Sent));
    same(&rt, sent.status_word(), 0x0008);
    same(&rt, after(sent, ReadStatus).status_word(), 0x0008);
    let cleared = after(sent, ReadAndClearStatus);
    same(&rt, cleared.status_word(), 0x0007);
    let flags = sent.status;
    holds(&rt, flags.tx_ok() && !flags.rx_ok());
    same(&rt, flags.lec(), 0);
}

/// Whether a controller shows a status interrupt.
fn shows(rt: &impl Abort, controller: Controller, want: bool) {
    let got = controller.shows_status_interrupt();
    same(rt, (controller, got), (controller, want));
}

#[test]
fn masks_hide_what_is_pending(rt: HostRuntime) {
    let event = Frame(BusEvent::Received, StatusEvent::Received);
    let received = after(Controller::new(), event);
    holds(&rt, received.transfer_pending && !received.level_pending);
    shows(&rt, received, false);
    // SIE, written after the frame, shows it; EIE does not.
    let with_sie = controlled(received, 0x04);
    shows(&rt, with_sie, true);
    shows(&rt, controlled(received, 0x08), false);
    shows(&rt, after(with_sie, ReadStatus), false);
    shows(&rt, after(with_sie, ReadAndClearStatus), false);
    // Twelve errors make TEC 96: EWarn changes, and EIE shows that.
    shows(&rt, controlled(after_send_faults(12), 0x08), true);
    shows(&rt, controlled(after_send_faults(11), 0x08), false);
}

#[test]
fn some_registers_are_written_where_others_let(rt: HostRuntime) {
    // Bit timing needs Init and CCE, and drops the reserved bits.
    for (word, timing) in [
        (0x01, (0, 0)),
        (0x40, (0, 0)),
        (0xbe, (0, 0)),
        (0x41, (0x2301, 3)),
    ] {
        let written = timed(word, 0xa301, 0xfff3);
        same(&rt, (word, timing_of(&written)), (word, timing));
    }
    // So do both of its registers at once.
    for (word, timing) in [(0x01, (0, 0)), (0x40, (0, 0)), (0x41, (0x2301, 3))] {
        let written = after(
            controlled(Controller::new(), word),
            WriteTiming(0xa301, 0xfff3),
        );
        same(&rt, (word, timing_of(&written)), (word, timing));
    }
    let timing = BitTiming::new(0x2301, 3);
    same(&rt, timing.with_register(0x8014).register(), 0x0014);
    same(&rt, timing.with_extension(0x0010).extension(), 0);
    // The Test register needs its bit.
    let test = WriteTest(TestRegister::of_word(0x10));
    holds(&rt, !after(Controller::default(), test).test.lback);
    holds(&rt, testing(0x10).test.lback);
}

#[test]
fn control_is_written_bit_by_bit(rt: HostRuntime) {
    // IE and SIE are set, EIE and CCE cleared; DAR and Init stay.
    let bits = ControlRegister::of_word(0x4e);
    let values = ControlRegister::of_word(0xa6);
    let written = controlled(Controller::new(), 0x69);
    let changed = after(written, WriteControlBits(bits, values));
    same(&rt, changed.control.word(), 0x0027);
    // If the bits clear Init of a controller that is off, the way back begins.
    let init = ControlRegister::of_word(0x01);
    let clear = WriteControlBits(init, ControlRegister::of_word(0x00));
    let begun = after(after_send_faults(32), clear);
    holds(&rt, begun.counters.recovering() && !begun.control.init);
}

#[test]
fn init_that_was_set_is_remembered_until_the_handler_joins(rt: HostRuntime) {
    let opened = Controller::new();
    holds(&rt, !opened.has_left);
    let set = controlled(opened, 0x01);
    // The handler joins nobody while Init is 1.
    holds(&rt, set.has_left && after(set, Join).has_left);
    let cleared = controlled(set, 0x00);
    holds(&rt, cleared.has_left);
    holds(&rt, !after(cleared, Join).has_left);
    holds(&rt, after(opened, Reset).has_left);
    holds(&rt, after_send_faults(32).has_left);
}

#[test]
fn a_reset_gives_the_values_of_the_manual(rt: HostRuntime) {
    let busy = after(
        controlled(after_send_faults(32), 0xff),
        WriteBitTiming(0x1234),
    );
    let reset = after(busy, Reset);
    same(&rt, words(&reset), (0x0001, 0x0000, 0x0000));
    same(&rt, timing_of(&reset), (0x2301, 0x0000));
    same(&rt, reset.test.word(), 0x0000);
    same(&rt, reset.pack(), LEFT + (0x2301 << 42) + (1 << 32));
}

/// The same except for LEC, which is 7 in a D_CAN.
#[test]
fn a_reset_of_a_dcan_sets_the_last_error_code(rt: HostRuntime) {
    let busy = controlled(after_send_faults(32), 0xff);
    let reset = after(busy, ResetDcan);
    same(&rt, words(&reset), (0x0001, 0x0007, 0x0000));
    same(&rt, timing_of(&reset), (0x2301, 0x0000));
    same(&rt, reset.has_left, true);
}

#[test]
fn registers_have_their_words(rt: HostRuntime) {
    let none = ControlRegister::default();
    for (word, register) in [
        (0x01, ControlRegister { init: true, ..none }),
        (0x02, ControlRegister { ie: true, ..none }),
        (0x04, ControlRegister { sie: true, ..none }),
        (0x08, ControlRegister { eie: true, ..none }),
        (0x20, ControlRegister { dar: true, ..none }),
        (0x40, ControlRegister { cce: true, ..none }),
        (0x80, ControlRegister { test: true, ..none }),
    ] {
        same(&rt, ControlRegister::of_word(word), register);
        same(&rt, u32::from(register.word()), word);
    }
    // PDR, bit 24 of a D_CAN's, is not in the low half.
    let asks = ControlRegister { pdr: true, ..none };
    same(&rt, ControlRegister::of_word(0x0100_0000), asks);
    same(&rt, asks.word(), 0);
    let off = TestRegister::default();
    for (word, register) in [
        (0x04, TestRegister { basic: true, ..off }),
        (
            0x08,
            TestRegister {
                silent: true,
                ..off
            },
        ),
        (0x10, TestRegister { lback: true, ..off }),
    ] {
        same(&rt, TestRegister::of_word(word), register);
        same(&rt, register.word(), word);
    }
    // Reserved bits, and those of the pins, are dropped.
    same(&rt, ControlRegister::of_word(0xfeff_ff10), none);
    same(&rt, TestRegister::of_word(0xffe3), off);
    for (word, flags) in [
        (0x0008, StatusFlags::new(true, false, 0)),
        (0x0010, StatusFlags::new(false, true, 0)),
        (0xffe7, StatusFlags::new(false, false, 7)),
    ] {
        same(&rt, (word, StatusFlags::of_word(word)), (word, flags));
    }
}

/// That the controller has left the bus, at bit 61.
const LEFT: u64 = 1 << 61;

/// A controller is this word.
fn packs(rt: &impl Abort, controller: Controller, word: u64) {
    same(rt, controller.pack(), word);
    same(rt, Controller::unpack(word), controller);
}

#[test]
fn each_register_has_its_bits_of_the_word(rt: HostRuntime) {
    // If Init is 1, the controller has left the bus.
    for (bits, word) in [
        (0x01, LEFT + (1 << 32)),
        (0x02, 1 << 33),
        (0x04, 1 << 34),
        (0x08, 1 << 35),
        (0x20, 1 << 36),
        (0x40, 1 << 37),
        (0x80, 1 << 38),
        (0x0100_0000, 1 << 62),
    ] {
        packs(&rt, controlled(Controller::new(), bits), word);
    }
    // Basic at bit 39, Silent at 40, LBack at 41, beside Test at 38.
    for (bits, word) in [
        (0x04, (1 << 39) + (1 << 38)),
        (0x08, (1 << 40) + (1 << 38)),
        (0x10, (1 << 41) + (1 << 38)),
    ] {
        packs(&rt, testing(bits), word);
    }
    // Bit Timing from bit 42 on, BRP Extension from bit 57 on, beside Init and CCE.
    for (register, extension, word) in [
        (0x7fff, 0, LEFT + (0x7fff << 42) + (0x21 << 32)),
        (0, 0x000f, LEFT + (15 << 57) + (0x21 << 32)),
    ] {
        packs(&rt, timed(0x41, register, extension), word);
    }
    let all = WriteStatus(StatusFlags::new(true, true, 7));
    packs(
        &rt,
        after(Controller::new(), all),
        (1 << 28) + (1 << 27) + (7 << 24),
    );
    // TEC 8 from bit 8 on, LEC 4 from bit 24 on, and the transfer pending at bit 29.
    packs(&rt, after_send_faults(1), (1 << 29) + (4 << 24) + (8 << 8));
    // TEC 256, 100 groups, LEC 5, both interrupts pending, Init cleared, every bit of Control except Init, and left.
    let begun = controlled(after_send_faults(32), 0xee);
    let word = LEFT + (0x7e << 32) + (0b111 << 29) + (5 << 24) + (100 << 17) + (256 << 8);
    packs(&rt, after(begun, Recessive(100)), word);
}

/// PDR asks for local power down, and PDA shows it once Init is 1 (AM335x manual, Local Power-Down Mode).
#[test]
fn a_controller_powers_down_if_it_is_asked_to(rt: HostRuntime) {
    let awake = controlled(Controller::new(), 0x0000_0002);
    let still = after(awake, PowerDown);
    let asked = controlled(awake, 0x0100_0002);
    let down = after(asked, PowerDown);
    let woken = controlled(down, 0x0000_0003);
    holds(&rt, still == awake);
    same(&rt, asked.is_powered_down(), false);
    same(&rt, down.is_powered_down(), true);
    same(&rt, words(&down).0, 0x0003);
    same(&rt, down.has_left, true);
    same(&rt, woken.is_powered_down(), false);
}

/// The laws do nothing: they are called so that each is seen to hold.
#[test]
fn laws_of_the_controller_stand(_rt: HostRuntime) {
    laws::one_word_tells_its_controller();
    laws::counters_are_as_defined();
    laws::hosts_leave_the_counters();
    laws::going_off_sets_init();
    laws::status_reads_clear();
    laws::masks_lose_nothing();
    laws::flags_are_given_last();
    laws::has_left_until_joining();
}
