//! What the calls of C come to, each once. `tools/test/c/calls.c` has more of them, from C, with ranges and refusals.
use super::calls::{
    bus_flags, bus_interrupt, bus_line, bus_read8, bus_read16, bus_read32, bus_write8, bus_write16,
    bus_write32, clear_objects, control, counters, end, flags, init, interrupt, is_open, load,
    loop_back, meet, open, open_reset, opened, peek, powers_down, pulls, read8, read32, reads,
    reads_byte, recessive, request, reset, reset_in_place, restore, round, save, set, set_all,
    shown, status, until, write_all, write_bytes, write8, write32,
};
use crate::expect::{holds, same};
use ccan_bus::LoadAnswer;
use ccan_c::{
    BusHandle, Chip, HostHandle, NoteHandle, Offer, SavedChip, ShownCounters, ShownFinal,
    ShownFrame, ShownLoad, ShownOutcome, ShownRecord, ccan_bus_heed, ccan_bus_tell, ccan_forget,
    ccan_heed, ccan_request, ccan_set, ccan_tell,
};
use ccan_object::Record;
use std::process::Abort;

/// A record with no bit set.
fn no_record() -> ShownRecord {
    ShownRecord::of(&Record::zero())
}

/// A place for final records.
fn nothing() -> ShownFinal {
    ShownFinal {
        objects: 0,
        records: [no_record(); 64],
    }
}

#[test]
fn a_chip_opens_and_ends(rt: HostRuntime) {
    let alloc = rt.alloc();
    let mut chip = Chip::closed(alloc);
    let mut last = nothing();
    same(&rt, end(alloc, &mut chip, &mut last), 1);
    same(&rt, open(alloc, &mut chip, 3, 0, 100), 6);
    same(&rt, open(alloc, &mut chip, 1, 9, 100), 7);
    same(&rt, open(alloc, &mut chip, 2, 8, 0), 9);
    holds(&rt, !is_open(&chip));
    same(&rt, open(alloc, &mut chip, 2, 8, 1000), 0);
    holds(&rt, is_open(&chip));
    same(&rt, end(alloc, &mut chip, &mut last), 0);
    same(&rt, last.objects, 64);
    holds(&rt, !is_open(&chip));
}

/// Writes object 5: what its arbitration, its control and its first two bytes are set to.
const MESSAGE: [(u32, u16); 4] = [(0, 0x00f3), (4, 0xa48c), (5, 0x2088), (6, 0x2211)];

#[test]
fn what_one_host_writes_the_other_reads(rt: HostRuntime) {
    let mut chip = opened(&rt, rt.alloc(), 1, 0);
    set_all(&rt, &mut chip.if1, &MESSAGE);
    same(&rt, request(&mut chip.if1, 5), 0);
    same(&rt, set(&mut chip.if2, 0, 0x007f), 0);
    same(&rt, request(&mut chip.if2, 5), 0);
    same(&rt, shown(&rt, &mut chip.if2, 4), 0xa48c);
    same(&rt, shown(&rt, &mut chip.if2, 6), 0x2211);
}

/// The other host has read object 5 and cleared its IntPnd, which was the only one.
#[test]
fn a_host_sees_flags_and_waits(rt: HostRuntime) {
    let mut chip = opened(&rt, rt.alloc(), 1, 0);
    set_all(&rt, &mut chip.if1, &MESSAGE);
    same(&rt, request(&mut chip.if1, 5), 0);
    same(&rt, set(&mut chip.if2, 0, 0x007f), 0);
    same(&rt, request(&mut chip.if2, 5), 0);
    let mut word = 0;
    same(&rt, flags(&mut chip.if1, 4, &mut word), 0);
    same(&rt, word, 0x10);
    same(&rt, flags(&mut chip.if1, 5, &mut word), 12);
    let mut value = 7;
    same(&rt, interrupt(&mut chip.if2, &mut value), 0);
    same(&rt, value, 0);
    let mut shows = 7;
    same(&rt, until(&mut chip.if2, 5, 4, 1, &mut shows), 0);
    same(&rt, shows, 1);
    same(&rt, until(&mut chip.if2, 33, 4, 1, &mut shows), 11);
    same(&rt, until(&mut chip.if2, 5, 4, 0, &mut shows), 13);
}

#[test]
fn a_look_shows_the_record_and_leaves_the_registers(rt: HostRuntime) {
    let mut closed = Chip::closed(rt.alloc());
    let mut seen = no_record();
    same(&rt, peek(&mut closed.if1, 5, &mut seen), 1);
    let mut chip = opened(&rt, rt.alloc(), 1, 0);
    let settings = [(0, 0x00f3), (4, 0xa48c), (6, 0x2211)];
    set_all(&rt, &mut chip.if1, &settings);
    same(&rt, request(&mut chip.if1, 5), 0);
    same(&rt, peek(&mut chip.if2, 33, &mut seen), 11);
    same(&rt, seen.arbitration, 0);
    same(&rt, peek(&mut chip.if2, 5, &mut seen), 0);
    same(&rt, seen.arbitration, 0xa48c0000);
    same(&rt, seen.bytes[0], 0x11);
    same(&rt, shown(&rt, &mut chip.if2, 4), 0);
}

/// Here the chip as a whole is called after its handles, so what those calls promise of them has to be known.
#[test]
fn the_ports_of_a_chip_meet(rt: HostRuntime) {
    let alloc = rt.alloc();
    let mut chip = Chip::closed(alloc);
    same(&rt, meet(alloc, &mut chip), 1);
    same(&rt, open(alloc, &mut chip, 1, 0, 100), 0);
    same(&rt, ccan_set(&mut chip.if1, 0, 0x0090), 0);
    same(&rt, ccan_set(&mut chip.if1, 5, 0x8000), 0);
    same(&rt, ccan_request(&mut chip.if1, 5), 0);
    same(&rt, meet(alloc, &mut chip), 0);
    holds(&rt, is_open(&chip));
    let mut word = 0;
    same(&rt, bus_flags(&mut chip.bus, 0, &mut word), 0);
    same(&rt, word, 0x10);
    same(&rt, shown(&rt, &mut chip.if1, 5), 0x8000);
}

/// `tools/test/c/calls.c` tries what one handle reports to another.
#[test]
fn a_host_tells_and_heeds(rt: HostRuntime) {
    let alloc = rt.alloc();
    let mut chip = opened(&rt, alloc, 1, 0);
    let mut note = NoteHandle::empty(alloc);
    let told = ccan_tell(alloc, &mut chip.if1, &mut note);
    same(&rt, told, 0);
    if told == 0 {
        same(&rt, ccan_heed(alloc, &mut chip.if1, &mut note), 0);
    }
}

#[test]
fn the_bus_tells_and_heeds(rt: HostRuntime) {
    let alloc = rt.alloc();
    let mut chip = opened(&rt, alloc, 1, 0);
    let mut note = NoteHandle::empty(alloc);
    let told = ccan_bus_tell(alloc, &mut chip.bus, &mut note);
    same(&rt, told, 0);
    if told == 0 {
        same(&rt, ccan_bus_heed(alloc, &mut chip.bus, &mut note), 0);
    }
    same(&rt, ccan_forget(alloc, &mut note), 0);
}

/// The frame 0x123 with two bytes, from a node.
fn offer(node: u8) -> Offer {
    Offer {
        id: 0x123,
        node,
        xtd: 0,
        rtr: 0,
        dlc: 2,
        bytes: [0x11, 0x22, 0, 0, 0, 0, 0, 0],
    }
}

/// A place for an outcome.
fn no_outcome() -> ShownOutcome {
    ShownOutcome {
        kind: 77,
        object: 0,
        finished: no_record(),
        stored: 0,
        stored_record: no_record(),
        loaded: 77,
        refused: 77,
        winner: 77,
        frame: ShownFrame::of(&None),
    }
}

/// What comes of a round with these frames and this fault. No step of it is refused: that takes another port at the same
/// object meanwhile, which one thread can't have.
fn played(rt: &impl Abort, bus: &mut BusHandle, offers: &[Offer], fault: u32) -> ShownOutcome {
    let mut outcome = no_outcome();
    same(rt, round(bus, offers, fault, &mut outcome), 0);
    outcome
}

/// Receives frames 0x123 in object 5, with RxIE.
fn receives(rt: &impl Abort, host: &mut HostHandle) {
    set_all(rt, host, &[(0, 0x00f3), (4, 0x848c), (5, 0x0488)]);
    same(rt, request(host, 5), 0);
}

#[test]
fn a_frame_is_stored(rt: HostRuntime) {
    let mut chip = opened(&rt, rt.alloc(), 1, 1);
    receives(&rt, &mut chip.if1);
    let outcome = played(&rt, &mut chip.bus, &[offer(1)], 0);
    same(&rt, outcome.kind, 2);
    same(&rt, outcome.stored, 5);
    same(&rt, outcome.stored_record.control, 0xa482);
    let mut word = 0;
    same(&rt, status(&mut chip.bus, &mut word), 0);
    same(&rt, word, 0x0010);
    same(&rt, bus_interrupt(&mut chip.bus, &mut word), 0);
    same(&rt, word, 5);
    let mut newdat = 0;
    same(&rt, bus_flags(&mut chip.bus, 0, &mut newdat), 0);
    same(&rt, newdat, 0x10);
}

#[test]
fn a_frame_is_stored_and_one_is_sent(rt: HostRuntime) {
    let mut chip = opened(&rt, rt.alloc(), 1, 1);
    receives(&rt, &mut chip.if1);
    same(&rt, played(&rt, &mut chip.bus, &[offer(1)], 0).stored, 5);
    set_all(&rt, &mut chip.if2, &[(0, 0x00f3), (4, 0xa400), (5, 0x0981)]);
    same(&rt, request(&mut chip.if2, 2), 0);
    let mut loaded = ShownLoad::of(&LoadAnswer::Nothing, &None);
    same(&rt, load(&mut chip.bus, &mut loaded), 0);
    same(&rt, loaded.kind, 1);
    same(&rt, loaded.object, 2);
    same(&rt, loaded.frame.id, 0x100);
    let outcome = played(&rt, &mut chip.bus, &[], 0);
    same(&rt, outcome.kind, 1);
    same(&rt, outcome.object, 2);
    same(&rt, outcome.finished.control, 0x2881);
}

/// Asks for the frame 0x100 with one byte to be sent, in object 2.
fn asks_to_send(rt: &impl Abort, host: &mut HostHandle) {
    let settings = [(0, 0x00f3), (4, 0xa400), (5, 0x0981), (6, 0x0077)];
    set_all(rt, host, &settings);
    same(rt, request(host, 2), 0);
}

/// The load of the controller's next frame.
fn loads(rt: &impl Abort, bus: &mut BusHandle) -> u32 {
    let mut loaded = ShownLoad::of(&LoadAnswer::Nothing, &None);
    same(rt, load(bus, &mut loaded), 0);
    loaded.object
}

/// What an outcome reports besides its kind: the object that the round itself loaded, the step that was refused, and the node
/// whose frame was on the bus.
fn beside(outcome: &ShownOutcome) -> (u32, u32, u32) {
    (outcome.loaded, outcome.refused, outcome.winner)
}

#[test]
fn a_round_tells_that_the_controllers_frame_was_on_the_bus(rt: HostRuntime) {
    let mut chip = opened(&rt, rt.alloc(), 1, 1);
    asks_to_send(&rt, &mut chip.if1);
    // Spoiled, and loaded by the round itself.
    let spoiled = played(&rt, &mut chip.bus, &[offer(1)], 1);
    same(&rt, spoiled.kind, 6);
    same(&rt, beside(&spoiled), (2, 0, 0));
    same(&rt, spoiled.frame.id, 0x100);
    same(&rt, spoiled.frame.dlc, 1);
    same(&rt, spoiled.frame.bytes, [0x77, 0, 0, 0, 0, 0, 0, 0]);
    // Sent, and loaded by an earlier load.
    same(&rt, loads(&rt, &mut chip.bus), 2);
    let sent = played(&rt, &mut chip.bus, &[], 0);
    same(&rt, sent.kind, 1);
    same(&rt, beside(&sent), (0, 0, 0));
    same(&rt, sent.frame.id, 0x100);
}

// ---- registers by their offsets

/// Control, Bit Timing, and of IF1 Command Request and both masks, whose reserved bit reads 0.
#[test]
fn a_chip_opens_as_after_a_reset(rt: HostRuntime) {
    let alloc = rt.alloc();
    let mut chip = Chip::closed(alloc);
    same(&rt, open_reset(alloc, &mut chip, 1, 1, 0, 3), 9);
    same(&rt, open_reset(alloc, &mut chip, 1, 1, 100, 3), 22);
    holds(&rt, !is_open(&chip));
    let mut chip = reset(&rt, alloc, 0);
    same(&rt, reads(&rt, &mut chip.if1, 0x00), 0x0001);
    same(&rt, reads(&rt, &mut chip.if1, 0x06), 0x2301);
    same(&rt, reads(&rt, &mut chip.if1, 0x10), 0x0001);
    same(&rt, reads(&rt, &mut chip.if1, 0x14), 0xffff);
    same(&rt, reads(&rt, &mut chip.if1, 0x16), 0xdfff);
}

/// Receives frames 0x123 in object 5, with RxIE.
const RECEIVES: [(u32, u16); 4] = [(0x12, 0x00f3), (0x1a, 0x848c), (0x1c, 0x0488), (0x10, 5)];

/// Sets object 5 up, and starts with IE, SIE and EIE.
fn starts(rt: &impl Abort, host: &mut HostHandle) {
    write_all(rt, host, &RECEIVES);
    write_all(rt, host, &[(0x00, 0x000e)]);
}

#[test]
fn a_frame_is_received_by_interrupt(rt: HostRuntime) {
    let mut chip = reset(&rt, rt.alloc(), 0);
    starts(&rt, &mut chip.if1);
    same(&rt, pulls(&rt, &mut chip.if1), 0);
    same(&rt, played(&rt, &mut chip.bus, &[offer(1)], 0).stored, 5);
    same(&rt, pulls(&rt, &mut chip.if1), 1);
    same(&rt, reads(&rt, &mut chip.if1, 0x08), 0x8000);
    same(&rt, reads(&rt, &mut chip.if1, 0x02), 0x0010);
    same(&rt, reads(&rt, &mut chip.if1, 0x08), 5);
    same(&rt, reads(&rt, &mut chip.if2, 0xa0), 0x0010);
    write_all(&rt, &mut chip.if1, &[(0x12, 0x007f), (0x10, 5)]);
    same(&rt, reads(&rt, &mut chip.if1, 0x1e), 0x2211);
    same(&rt, pulls(&rt, &mut chip.if1), 0);
}

/// While Init is 1 nobody acknowledges what node 1 sends.
#[test]
fn the_bus_reads_and_writes_registers(rt: HostRuntime) {
    let mut chip = reset(&rt, rt.alloc(), 0);
    let mut value = 7;
    same(&rt, bus_read16(&mut chip.bus, 0x00, &mut value), 0);
    same(&rt, value, 0x0001);
    same(&rt, played(&rt, &mut chip.bus, &[offer(1)], 0).kind, 5);
    same(&rt, bus_write16(&mut chip.bus, 0x00, 0x0006), 0);
    let mut pulled = 7;
    same(&rt, bus_line(&mut chip.bus, &mut pulled), 0);
    same(&rt, pulled, 0);
    same(&rt, played(&rt, &mut chip.bus, &[offer(1)], 0).kind, 2);
    same(&rt, bus_line(&mut chip.bus, &mut pulled), 0);
    same(&rt, pulled, 1);
}

/// Receives frames 0x123 in object 5 of a D_CAN: Arbitration, Message Control, and the command with its mask above.
const RECEIVES_32: [(u32, u32); 4] = [
    (0x108, 0x848c_0000),
    (0x10c, 0x0000_0488),
    (0x100, 0x00f3_0005),
    (0x000, 0),
];

#[test]
fn a_frame_is_received_by_words_of_32_bits(rt: HostRuntime) {
    let mut chip = reset(&rt, rt.alloc(), 2);
    for (offset, value) in &RECEIVES_32 {
        same(&rt, write32(&mut chip.if1, *offset, *value), 0);
    }
    same(&rt, played(&rt, &mut chip.bus, &[offer(1)], 0).stored, 5);
    same(&rt, write32(&mut chip.if1, 0x100, 0x007f_0005), 0);
    let mut word = 7;
    same(&rt, read32(&mut chip.if1, 0x110, &mut word), 0);
    same(&rt, word, 0x0000_2211);
}

/// Bit Timing is the lower half of its word, and BRP Extension the upper one.
#[test]
fn the_bus_reads_and_writes_words_of_32_bits(rt: HostRuntime) {
    let mut chip = reset(&rt, rt.alloc(), 2);
    let mut word = 7;
    // Without CCE neither changes.
    same(&rt, bus_write32(&mut chip.bus, 0x00c, 0x0005_1c00), 0);
    same(&rt, bus_read32(&mut chip.bus, 0x00c, &mut word), 0);
    same(&rt, word, 0x0000_2301);
    same(&rt, bus_write32(&mut chip.bus, 0x000, 0xffff_0041), 0);
    same(&rt, bus_read32(&mut chip.bus, 0x000, &mut word), 0);
    same(&rt, word, 0x0100_1441);
    same(&rt, bus_write32(&mut chip.bus, 0x00c, 0x0005_1c00), 0);
    same(&rt, bus_read32(&mut chip.bus, 0x00c, &mut word), 0);
    same(&rt, word, 0x0005_1c00);
}

/// Bits 7 to 0 of a register are at the offset where it begins, and bits 15 to 8 at the next one. Bit Timing is 0x2301.
#[test]
fn a_byte_is_half_of_a_register(rt: HostRuntime) {
    let mut chip = reset(&rt, rt.alloc(), 1);
    same(&rt, reads_byte(&rt, &mut chip.if1, 0x0c), 0x01);
    same(&rt, reads_byte(&rt, &mut chip.if1, 0x0d), 0x23);
    let mut byte = 7;
    same(&rt, read8(&mut chip.if1, 0x0e, &mut byte), 20);
    same(&rt, write8(&mut chip.if1, 0x0f, 0), 20);
    same(&rt, read8(&mut chip.if1, 0x80, &mut byte), 21);
    same(&rt, write8(&mut chip.if1, 0x81, 0), 21);
    same(&rt, byte, 7);
}

/// Receives frames 0x123 in object 5, as `RECEIVES` by bytes; but the upper byte of Command Request starts nothing.
const RECEIVES_8: [(u32, u8); 6] = [
    (0x12, 0xf3),
    (0x1a, 0x8c),
    (0x1b, 0x84),
    (0x1c, 0x88),
    (0x1d, 0x04),
    (0x11, 0x05),
];

#[test]
fn a_frame_is_received_by_bytes(rt: HostRuntime) {
    let mut chip = reset(&rt, rt.alloc(), 0);
    write_bytes(&rt, &mut chip.if1, &RECEIVES_8);
    same(&rt, reads(&rt, &mut chip.if1, 0x1a), 0x848c);
    same(&rt, reads(&rt, &mut chip.if1, 0x10), 1);
    same(&rt, reads(&rt, &mut chip.if1, 0xb0), 0);
    write_bytes(&rt, &mut chip.if1, &[(0x10, 5), (0x01, 0xff), (0x00, 0)]);
    same(&rt, played(&rt, &mut chip.bus, &[offer(1)], 0).stored, 5);
    write_bytes(&rt, &mut chip.if1, &[(0x12, 0x7f), (0x10, 5)]);
    same(&rt, reads_byte(&rt, &mut chip.if1, 0x1e), 0x11);
    same(&rt, reads_byte(&rt, &mut chip.if1, 0x1f), 0x22);
}

/// A byte of Bit Timing leaves the other one, and is dropped without CCE.
#[test]
fn the_bus_reads_and_writes_bytes(rt: HostRuntime) {
    let mut chip = reset(&rt, rt.alloc(), 0);
    let mut byte = 7;
    same(&rt, bus_write8(&mut chip.bus, 0x07, 0x1c), 0);
    same(&rt, bus_read8(&mut chip.bus, 0x07, &mut byte), 0);
    same(&rt, byte, 0x23);
    same(&rt, bus_write8(&mut chip.bus, 0x00, 0x41), 0);
    same(&rt, bus_write8(&mut chip.bus, 0x07, 0x1c), 0);
    same(&rt, reads(&rt, &mut chip.if1, 0x06), 0x1c01);
    same(&rt, bus_write8(&mut chip.bus, 0x06, 0x05), 0);
    same(&rt, reads(&rt, &mut chip.if1, 0x06), 0x1c05);
}

/// SWR is bit 7 of the upper byte of Control of a D_CAN: it resets the chip while Init is 1, and is dropped while it is 0.
#[test]
fn a_dcan_is_reset_by_a_byte(rt: HostRuntime) {
    let mut chip = reset(&rt, rt.alloc(), 2);
    write_bytes(
        &rt,
        &mut chip.if1,
        &[(0x00, 0x41), (0x0d, 0x1c), (0x00, 0x40), (0x01, 0x80)],
    );
    same(&rt, reads(&rt, &mut chip.if1, 0x0c), 0x1c01);
    write_bytes(&rt, &mut chip.if1, &[(0x00, 0x41), (0x01, 0x7f)]);
    same(&rt, reads(&rt, &mut chip.if1, 0x0c), 0x1c01);
    write_bytes(&rt, &mut chip.if1, &[(0x01, 0x80)]);
    same(&rt, reads(&rt, &mut chip.if1, 0x0c), 0x2301);
    same(&rt, reads(&rt, &mut chip.if1, 0x00), 0x1401);
}

/// A word of 32 bits, as the bus's thread reads it.
fn bus_word(rt: &impl Abort, bus: &mut BusHandle, offset: u32) -> u32 {
    let mut word = 7;
    same(rt, bus_read32(bus, offset, &mut word), 0);
    word
}

/// PDR is bit 24 of CAN Control, and PDA bit 10 of Error and Status, where LEC is 7 after a reset and after each read (AM335x
/// manual, Local Power-Down Mode). A write of the low half of Control leaves PDR.
#[test]
fn a_dcan_powers_down_and_wakes(rt: HostRuntime) {
    let mut chip = reset(&rt, rt.alloc(), 2);
    same(&rt, bus_word(&rt, &mut chip.bus, 0x000), 0x0000_1401);
    same(&rt, write32(&mut chip.if1, 0x000, 0x0100_0000), 0);
    write_all(&rt, &mut chip.if1, &[(0x00, 0x0002)]);
    same(&rt, reads(&rt, &mut chip.if1, 0x02), 0x0100);
    same(&rt, bus_word(&rt, &mut chip.bus, 0x004), 0x0000_0007);
    same(&rt, powers_down(&rt, &mut chip.bus), 1);
    same(&rt, bus_word(&rt, &mut chip.bus, 0x000), 0x0100_1403);
    same(&rt, bus_word(&rt, &mut chip.bus, 0x004), 0x0000_0407);
    same(&rt, powers_down(&rt, &mut chip.bus), 1);
    // The driver clears PDR, and then Init.
    write_all(&rt, &mut chip.if1, &[(0x02, 0x0000)]);
    same(&rt, bus_word(&rt, &mut chip.bus, 0x004), 0x0000_0007);
    write_all(&rt, &mut chip.if1, &[(0x00, 0x0002)]);
    same(&rt, bus_word(&rt, &mut chip.bus, 0x000), 0x0000_1402);
    same(&rt, powers_down(&rt, &mut chip.bus), 0);
}

/// PDR is bit 0 of the byte at 0x03. What is requested is sent first.
#[test]
fn a_dcan_sends_before_it_powers_down(rt: HostRuntime) {
    let mut chip = reset(&rt, rt.alloc(), 2);
    write_all(&rt, &mut chip.if1, &SENDS_OF_DCAN);
    write_bytes(
        &rt,
        &mut chip.if1,
        &[(0x02, 0xff), (0x03, 0x01), (0x00, 0x02)],
    );
    same(&rt, reads_byte(&rt, &mut chip.if1, 0x03), 0x01);
    same(&rt, powers_down(&rt, &mut chip.bus), 0);
    same(&rt, played(&rt, &mut chip.bus, &[], 0).kind, 1);
    same(&rt, powers_down(&rt, &mut chip.bus), 1);
    same(&rt, reads(&rt, &mut chip.if1, 0x00), 0x1403);
}

/// A C_CAN has no PDR: bit 8 of Control and the upper half of its word are dropped.
#[test]
fn a_c_can_never_powers_down(rt: HostRuntime) {
    let mut chip = reset(&rt, rt.alloc(), 1);
    write_all(&rt, &mut chip.if1, &[(0x00, 0x0100)]);
    same(&rt, write32(&mut chip.if1, 0x000, 0x0100_0000), 0);
    same(&rt, bus_word(&rt, &mut chip.bus, 0x000), 0);
    same(&rt, powers_down(&rt, &mut chip.bus), 0);
}

/// Object 2 of a D_CAN sends 0x100 with a byte: Arbitration 2, Message Control, Data A1, the command and its request.
const SENDS_OF_DCAN: [(u32, u16); 6] = [
    (0x10a, 0xa400),
    (0x10c, 0x0081),
    (0x110, 0x0011),
    (0x102, 0x00b6),
    (0x100, 2),
    (0x000, 0),
];

/// New data for a frame on its way, by a command with WR/RD, TxRqst/NewDat and Data A: it is sent after that frame (AM335x
/// manual, IF1 Command Register: the bit sets TxRqst and NewDat).
#[test]
fn a_command_of_a_dcan_sends_new_data(rt: HostRuntime) {
    let mut chip = reset(&rt, rt.alloc(), 2);
    write_all(&rt, &mut chip.if1, &SENDS_OF_DCAN);
    same(&rt, reads(&rt, &mut chip.if1, 0x9c), 0x0002);
    same(&rt, loads(&rt, &mut chip.bus), 2);
    same(&rt, reads(&rt, &mut chip.if1, 0x9c), 0);
    write_all(
        &rt,
        &mut chip.if1,
        &[(0x110, 0x0022), (0x102, 0x0086), (0x100, 2)],
    );
    same(&rt, reads(&rt, &mut chip.if1, 0x9c), 0x0002);
    same(&rt, reads(&rt, &mut chip.if1, 0x10c), 0x8181);
    same(&rt, played(&rt, &mut chip.bus, &[], 0).frame.bytes[0], 0x11);
    same(&rt, played(&rt, &mut chip.bus, &[], 0).frame.bytes[0], 0x22);
    same(&rt, played(&rt, &mut chip.bus, &[], 0).kind, 0);
}

/// A request of a D_CAN has eight bits, and 0 and 33 are not among the 32 objects: nothing happens.
#[test]
fn a_request_of_a_dcan_may_name_no_object(rt: HostRuntime) {
    let mut chip = reset(&rt, rt.alloc(), 2);
    for number in &[0_u16, 0x21, 0x42, 0x80] {
        write_all(
            &rt,
            &mut chip.if1,
            &[(0x10a, 0xa400), (0x102, 0x00b6), (0x100, *number)],
        );
        same(&rt, reads(&rt, &mut chip.if1, 0x100), 1);
        same(&rt, reads(&rt, &mut chip.if1, 0xc4), 0);
        same(&rt, reads(&rt, &mut chip.if1, 0xc6), 0);
    }
}

/// What a D_CAN reads after a reset, by the AM335x manual: Control 0x1401, and LEC 7. Status can only be read. Rx of Test is 1.
#[test]
fn a_dcan_opens_with_its_own_reset_values(rt: HostRuntime) {
    let mut chip = reset(&rt, rt.alloc(), 2);
    same(&rt, reads(&rt, &mut chip.if1, 0x00), 0x1401);
    same(&rt, reads(&rt, &mut chip.if1, 0x04), 0x0007);
    write_all(
        &rt,
        &mut chip.if1,
        &[(0x04, 0), (0x00, 0x0080), (0x14, 0x001c)],
    );
    same(&rt, reads(&rt, &mut chip.if1, 0x04), 0x0007);
    same(&rt, reads(&rt, &mut chip.if1, 0x14), 0x0098);
}

/// SWR with Init resets a D_CAN: its counters too, and what was loaded is dropped. SWR without Init is dropped.
#[test]
fn a_dcan_is_reset_by_software(rt: HostRuntime) {
    let mut chip = reset(&rt, rt.alloc(), 2);
    write_all(&rt, &mut chip.if1, &[(0x00, 0x0041), (0x0c, 0x1c00)]);
    write_all(&rt, &mut chip.if1, &SENDS_OF_DCAN);
    same(&rt, played(&rt, &mut chip.bus, &[], 3).kind, 6);
    same(&rt, loads(&rt, &mut chip.bus), 2);
    write_all(&rt, &mut chip.if1, &[(0x00, 0x8000)]);
    same(&rt, reads(&rt, &mut chip.if1, 0x08), 0x0008);
    same(&rt, reads(&rt, &mut chip.if1, 0x00), 0x1400);
    write_all(&rt, &mut chip.if1, &[(0x00, 0x8001)]);
    same(&rt, reads(&rt, &mut chip.if1, 0x00), 0x1401);
    same(&rt, reads(&rt, &mut chip.if1, 0x04), 0x0007);
    same(&rt, reads(&rt, &mut chip.if1, 0x08), 0);
    same(&rt, reads(&rt, &mut chip.if1, 0x0c), 0x2301);
    same(&rt, reads(&rt, &mut chip.if1, 0xc4), 0);
    write_all(&rt, &mut chip.if1, &[(0x00, 0)]);
    same(&rt, played(&rt, &mut chip.bus, &[], 0).kind, 0);
}

/// Object 5 has bits in Arbitration, Message Control and Data; each object is of zeros afterwards, and the interface registers
/// stay.
#[test]
fn all_objects_are_cleared(rt: HostRuntime) {
    let mut closed = Chip::closed(rt.alloc());
    same(&rt, clear_objects(&mut closed.if1), 1);
    let mut chip = opened(&rt, rt.alloc(), 1, 0);
    let settings = [
        (0, 0x00f3),
        (1, 0x1234),
        (4, 0xa48c),
        (5, 0x8188),
        (6, 0x2211),
    ];
    set_all(&rt, &mut chip.if1, &settings);
    same(&rt, request(&mut chip.if1, 5), 0);
    same(&rt, clear_objects(&mut chip.if1), 0);
    let mut seen = no_record();
    same(&rt, peek(&mut chip.if2, 5, &mut seen), 0);
    same(&rt, seen, no_record());
    same(&rt, shown(&rt, &mut chip.if1, 4), 0xa48c);
}

/// SIE is set once the frame was there: the status interrupt was raised all the same.
#[test]
fn an_enable_shows_what_was_raised(rt: HostRuntime) {
    let mut chip = opened(&rt, rt.alloc(), 1, 1);
    same(&rt, played(&rt, &mut chip.bus, &[offer(1)], 0).kind, 2);
    let mut word = 7;
    same(&rt, bus_interrupt(&mut chip.bus, &mut word), 0);
    same(&rt, word, 0);
    same(&rt, control(&mut chip.bus, 1, 0), 0);
    same(&rt, reads(&rt, &mut chip.if1, 0x00), 0x0004);
    same(&rt, bus_interrupt(&mut chip.bus, &mut word), 0);
    same(&rt, word, 0x8000);
    same(&rt, status(&mut chip.bus, &mut word), 0);
    same(&rt, bus_interrupt(&mut chip.bus, &mut word), 0);
    same(&rt, word, 0);
}

#[test]
fn loop_back_mode_is_in_the_registers(rt: HostRuntime) {
    let mut chip = opened(&rt, rt.alloc(), 1, 0);
    asks_to_send(&rt, &mut chip.if1);
    same(&rt, loop_back(&mut chip.bus, 1), 0);
    same(&rt, reads(&rt, &mut chip.if2, 0x00), 0x0080);
    same(&rt, reads(&rt, &mut chip.if2, 0x0a), 0x0090);
    same(&rt, played(&rt, &mut chip.bus, &[], 0).kind, 7);
    same(&rt, loop_back(&mut chip.bus, 0), 0);
    same(&rt, reads(&rt, &mut chip.if2, 0x00), 0);
    same(&rt, played(&rt, &mut chip.bus, &[], 0).kind, 0);
}

/// Init is set while an object is loaded: it is dropped, and sent once Init is cleared.
#[test]
fn init_keeps_the_controller_out(rt: HostRuntime) {
    let mut chip = opened(&rt, rt.alloc(), 1, 1);
    asks_to_send(&rt, &mut chip.if1);
    same(&rt, loads(&rt, &mut chip.bus), 2);
    write_all(&rt, &mut chip.if1, &[(0x00, 0x0001)]);
    same(&rt, loads(&rt, &mut chip.bus), 0);
    same(&rt, played(&rt, &mut chip.bus, &[], 0).kind, 0);
    same(&rt, init(&mut chip.bus), 0);
    same(&rt, reads(&rt, &mut chip.if1, 0x00), 0);
    same(&rt, loads(&rt, &mut chip.bus), 2);
    same(&rt, played(&rt, &mut chip.bus, &[], 0).kind, 1);
}

/// The controller's frames are spoiled 32 times, 8 for TEC each time: 256, bus off.
fn goes_off(rt: &impl Abort, bus: &mut BusHandle) {
    for _ in 0..32 {
        same(rt, played(rt, bus, &[], 3).kind, 6);
    }
}

/// The controller's state after 128 groups of recessive bits.
fn after_groups(rt: &impl Abort, bus: &mut BusHandle) -> u32 {
    let mut state = 9;
    same(rt, recessive(bus, 128, &mut state), 0);
    state
}

#[test]
fn going_off_sets_init(rt: HostRuntime) {
    let mut chip = opened(&rt, rt.alloc(), 1, 1);
    asks_to_send(&rt, &mut chip.if1);
    goes_off(&rt, &mut chip.bus);
    same(&rt, reads(&rt, &mut chip.if2, 0x00), 0x0001);
    same(&rt, reads(&rt, &mut chip.if2, 0x04), 0x00ff);
    let mut counts = ShownCounters {
        tec: 9,
        rec: 9,
        state: 9,
    };
    same(&rt, counters(&mut chip.bus, 0, &mut counts), 0);
    same(&rt, (counts.tec, counts.rec, counts.state), (256, 0, 2));
    same(&rt, after_groups(&rt, &mut chip.bus), 2);
    write_all(&rt, &mut chip.if2, &[(0x00, 0)]);
    same(&rt, after_groups(&rt, &mut chip.bus), 0);
}

/// IF1's host sets an interface register.
fn sets_by_if1(rt: &impl Abort, chip: &mut Chip, number: u32, value: u16) {
    same(rt, ccan_set(&mut chip.if1, number, value), 0);
}

/// IF1's host writes the Command Request register.
fn requests_by_if1(rt: &impl Abort, chip: &mut Chip, request: u16) {
    same(rt, ccan_request(&mut chip.if1, request), 0);
}

/// A chip is saved and opened again from its bytes. Other bytes are refused, and leave the place as it is.
#[test]
fn a_saved_chip_opens_again(rt: HostRuntime) {
    let alloc = rt.alloc();
    let mut chip = opened(&rt, alloc, 1, 1);
    let mut text = SavedChip { bytes: [7; 1672] };
    let mut other = Chip::closed(alloc);
    same(&rt, save(alloc, &mut other, &mut text), 1);
    same(&rt, restore(alloc, &mut other, &text), 23);
    sets_by_if1(&rt, &mut chip, 0, 0x00f3);
    sets_by_if1(&rt, &mut chip, 4, 0xa400);
    sets_by_if1(&rt, &mut chip, 5, 0x0981);
    requests_by_if1(&rt, &mut chip, 2);
    same(&rt, save(alloc, &mut chip, &mut text), 0);
    let mut later = text;
    later.bytes[8] = 3;
    same(&rt, restore(alloc, &mut other, &later), 23);
    holds(&rt, !is_open(&other));
    same(&rt, restore(alloc, &mut other, &text), 0);
    same(&rt, shown(&rt, &mut other.if1, 4), 0xa400);
    same(&rt, loads(&rt, &mut other.bus), 2);
    same(&rt, played(&rt, &mut other.bus, &[], 0).kind, 1);
}

/// The registers have the values of a reset, and of object 2 MsgVal, NewDat, IntPnd and TxRqst are 0; MsgLst, TxIE, EoB and the
/// length are as they were written.
#[test]
fn a_reset_clears_four_flags_of_an_object(rt: HostRuntime) {
    let alloc = rt.alloc();
    let mut chip = Chip::closed(alloc);
    same(&rt, reset_in_place(alloc, &mut chip), 1);
    chip = opened(&rt, alloc, 1, 1);
    same(&rt, ccan_set(&mut chip.if1, 0, 0x00f3), 0);
    same(&rt, ccan_set(&mut chip.if1, 4, 0xa400), 0);
    same(&rt, ccan_set(&mut chip.if1, 5, 0xe981), 0);
    same(&rt, ccan_request(&mut chip.if1, 2), 0);
    same(&rt, reset_in_place(alloc, &mut chip), 0);
    same(&rt, shown(&rt, &mut chip.if1, 4), 0);
    same(&rt, reads(&rt, &mut chip.if1, 0x00), 0x0001);
    same(&rt, reads(&rt, &mut chip.if2, 0x44), 0xffff);
    let mut seen = no_record();
    same(&rt, peek(&mut chip.if2, 2, &mut seen), 0);
    same(&rt, seen.arbitration, 0x24000000);
    same(&rt, seen.control, 0x4881);
}

#[test]
fn laws_hold() {
    ccan_c::handles_may_cross();
    ccan_c::notes_may_cross();
    ccan_c::laws::calls_keep_the_choice();
    ccan_c::laws::calls_fit_one_history();
    ccan_c::laws::turns_run_in_order();
}
