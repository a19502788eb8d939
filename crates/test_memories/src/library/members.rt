//! The calls of C for several chips on one bus, each once, and what each refuses. Worked rounds of them are in
//! `tools/test/c/network.c`.
use super::calls::{
    begin, bit_time, bus_write16, counters, decide, decide_again, finish, frame_bits, node_begin,
    node_finish, node_recessive, opened, powers_down, request, reset, retry_event, set_all, stay,
    write_all,
};
use crate::expect::same;
use ccan_c::{
    BusHandle, Chip, HostHandle, ShownCounters, ShownFinished, ShownFrame, ShownMember, ShownNode,
    ShownRecord, ShownWire,
};
use ccan_object::Record;
use std::alloc::Global;
use std::process::Abort;

/// The frame 0x100 with this one byte.
fn frame(byte: u8) -> ShownFrame {
    ShownFrame {
        id: 0x100,
        xtd: 0,
        rtr: 0,
        dlc: 1,
        bytes: [byte, 0, 0, 0, 0, 0, 0, 0],
    }
}

/// A member with this role, which finds this error and sends nothing.
pub fn listens(role: u32, fault: u32) -> ShownMember {
    ShownMember {
        role,
        fault,
        sends: 0,
        frame: frame(0),
    }
}

/// A member that does nothing on the bus.
pub fn nobody() -> ShownMember {
    listens(0, 0)
}

/// A member with this role, which finds this error and sends the frame 0x100 with this byte.
pub fn sends(role: u32, fault: u32, byte: u8) -> ShownMember {
    ShownMember {
        role,
        fault,
        sends: 1,
        frame: frame(byte),
    }
}

/// A place for what is on the bus: no kind has this number.
fn no_wire() -> ShownWire {
    ShownWire {
        kind: 77,
        flagged: 0,
        frame: frame(0),
        part: [0; 32],
    }
}

/// A place for the end of a frame: no event has this number.
fn not_finished() -> ShownFinished {
    let none = ShownRecord::of(&Record::zero());
    ShownFinished {
        event: 77,
        code: 0,
        counts: 0,
        object: 0,
        finished: none,
        stored: 0,
        stored_record: none,
        refused: 0,
    }
}

/// What these members put on the bus.
pub fn wire(rt: &impl Abort, members: &[ShownMember]) -> ShownWire {
    let mut wire = no_wire();
    same(rt, decide(members, &mut wire), 0);
    wire
}

/// What a chip is to the bus at the start of a frame.
pub fn member(rt: &impl Abort, bus: &mut BusHandle) -> ShownMember {
    let mut member = nobody();
    same(rt, begin(bus, &mut member), 0);
    member
}

/// Asks for the frame 0x100 with the byte 1 to be sent, in object 2.
fn asks_to_send(rt: &impl Abort, host: &mut HostHandle) {
    let settings = [(0, 0x00f3), (4, 0xa400), (5, 0x0981), (6, 0x0001)];
    set_all(rt, host, &settings);
    same(rt, request(host, 2), 0);
}

/// The end of a frame at a chip.
fn end_of(
    rt: &impl Abort,
    bus: &mut BusHandle,
    wire: &ShownWire,
    place: u32,
    fault: u32,
) -> ShownFinished {
    let mut finished = not_finished();
    same(rt, finish(bus, wire, place, fault, &mut finished), 0);
    finished
}

/// What a frame is to a chip with this word of Test, which asks to send or doesn't, while this other member is there.
pub fn ended(
    rt: &impl Abort,
    alloc: Global,
    test: u16,
    asks: bool,
    other: ShownMember,
) -> ShownFinished {
    let mut chip = opened(rt, alloc, 1, 0);
    if asks {
        asks_to_send(rt, &mut chip.if1);
    }
    same(rt, bus_write16(&mut chip.bus, 0, 0x0080), 0);
    same(rt, bus_write16(&mut chip.bus, 10, test), 0);
    let own = member(rt, &mut chip.bus);
    let on = wire(rt, &[own, other]);
    end_of(rt, &mut chip.bus, &on, 0, 0)
}

#[test]
fn a_closed_chip_has_no_part_in_a_frame(rt: HostRuntime) {
    let mut chip = Chip::closed(rt.alloc());
    let mut own = listens(77, 0);
    let mut finished = not_finished();
    same(&rt, begin(&mut chip.bus, &mut own), 1);
    same(&rt, stay(&mut chip.bus, &mut own), 1);
    same(&rt, own.role, 77);
    same(
        &rt,
        finish(&mut chip.bus, &no_wire(), 0, 0, &mut finished),
        1,
    );
    same(&rt, retry_event(&mut chip.bus, &finished), 1);
    same(&rt, finished.event, 77);
}

/// From the start of a frame to its end a D_CAN whose driver has set PDR takes part; after it, it powers down.
#[test]
fn a_chip_powers_down_between_frames(rt: HostRuntime) {
    let mut chip = reset(&rt, rt.alloc(), 2);
    write_all(&rt, &mut chip.if1, &[(0x00, 0), (0x02, 0x0100)]);
    let own = member(&rt, &mut chip.bus);
    same(&rt, own.role, 4);
    same(&rt, powers_down(&rt, &mut chip.bus), 0);
    let on = wire(&rt, &[own, sends(4, 0, 1)]);
    same(&rt, end_of(&rt, &mut chip.bus, &on, 0, 0).refused, 0);
    same(&rt, powers_down(&rt, &mut chip.bus), 1);
    same(&rt, member(&rt, &mut chip.bus).role, 0);
}

/// The chip is at position 0, and an active member at position 1 acknowledges: TxIE of the object sets IntPnd.
#[test]
fn a_chip_sends_on_a_bus_of_several(rt: HostRuntime) {
    let mut chip = opened(&rt, rt.alloc(), 1, 0);
    asks_to_send(&rt, &mut chip.if1);
    let own = member(&rt, &mut chip.bus);
    same(&rt, own, sends(4, 0, 1));
    let start = wire(&rt, &[own, listens(4, 0)]);
    let mut still = nobody();
    same(&rt, stay(&mut chip.bus, &mut still), 0);
    same(&rt, still, own);
    let mut on = no_wire();
    same(
        &rt,
        decide_again(&start, &[still, listens(4, 0)], &mut on),
        0,
    );
    same(&rt, on, start);
    let finished = end_of(&rt, &mut chip.bus, &on, 0, 0);
    same(&rt, finished.event, 1);
    same(&rt, finished.object, 2);
    same(&rt, finished.finished.control, 0x2881);
    same(&rt, finished.refused, 0);
}

/// Init was set while the frame was sent, and is 0 again: the frame is broken, and the chip has no event of it.
#[test]
fn a_chip_that_leaves_has_no_event(rt: HostRuntime) {
    let mut chip = opened(&rt, rt.alloc(), 1, 0);
    asks_to_send(&rt, &mut chip.if1);
    let own = member(&rt, &mut chip.bus);
    let start = wire(&rt, &[own, listens(4, 0)]);
    same(&rt, bus_write16(&mut chip.bus, 0, 0x0001), 0);
    same(&rt, bus_write16(&mut chip.bus, 0, 0x0000), 0);
    let mut gone = own;
    same(&rt, stay(&mut chip.bus, &mut gone), 0);
    same(&rt, gone.role, 0);
    let mut on = no_wire();
    same(
        &rt,
        decide_again(&start, &[gone, listens(4, 0)], &mut on),
        0,
    );
    same(&rt, on.kind, 2);
    same(&rt, end_of(&rt, &mut chip.bus, &on, 0, 0).event, 0);
    same(&rt, member(&rt, &mut chip.bus), own);
}

/// The event that is made again is one more error of a sender: TEC grows by 8 each time.
#[test]
fn an_event_is_made_again(rt: HostRuntime) {
    let mut chip = opened(&rt, rt.alloc(), 1, 0);
    asks_to_send(&rt, &mut chip.if1);
    let own = member(&rt, &mut chip.bus);
    let on = wire(&rt, &[own, listens(4, 1)]);
    let lost = end_of(&rt, &mut chip.bus, &on, 0, 0);
    same(&rt, lost.code, 4);
    same(&rt, retry_event(&mut chip.bus, &lost), 0);
    let mut counts = ShownCounters {
        tec: 9,
        rec: 9,
        state: 9,
    };
    same(&rt, counters(&mut chip.bus, 0, &mut counts), 0);
    same(&rt, counts.tec, 16);
    let mut none = lost;
    none.event = 0;
    same(&rt, retry_event(&mut chip.bus, &none), 30);
}

#[test]
fn ends_out_of_range_are_refused(rt: HostRuntime) {
    let mut chip = opened(&rt, rt.alloc(), 1, 0);
    let on = wire(&rt, &[sends(4, 0, 1), listens(4, 0)]);
    let mut finished = not_finished();
    same(
        &rt,
        finish(&mut chip.bus, &no_wire(), 32, 6, &mut finished),
        28,
    );
    same(&rt, finish(&mut chip.bus, &on, 32, 6, &mut finished), 29);
    same(&rt, finish(&mut chip.bus, &on, 31, 6, &mut finished), 18);
    same(&rt, finished.event, 77);
}

#[test]
fn members_out_of_range_are_refused(rt: HostRuntime) {
    let mut on = no_wire();
    let start = wire(&rt, &[]);
    same(&rt, start.kind, 0);
    same(&rt, decide(&[nobody(); 33], &mut on), 26);
    same(&rt, decide(&[listens(6, 0)], &mut on), 27);
    same(&rt, decide(&[listens(4, 6)], &mut on), 27);
    same(&rt, decide_again(&no_wire(), &[nobody(); 33], &mut on), 28);
    same(&rt, decide_again(&start, &[nobody(); 33], &mut on), 26);
    same(&rt, decide_again(&start, &[listens(6, 0)], &mut on), 27);
    let mut wide = sends(4, 0, 1);
    wide.frame.id = 0x800;
    same(&rt, decide(&[wide], &mut on), 27);
    same(&rt, on.kind, 77);
}

fn node(tec: u32, rec: u32, groups: u32) -> ShownNode {
    ShownNode { tec, rec, groups }
}

/// A node receives what another sends, and one that is bus off comes back with the last of 128 groups.
#[test]
fn a_node_takes_part(rt: HostRuntime) {
    let mut hears = node(0, 5, 0);
    let mut own = nobody();
    same(&rt, node_begin(&hears, 0, &frame(1), &mut own), 0);
    same(&rt, own.role, 4);
    let on = wire(&rt, &[sends(4, 0, 1), own]);
    let mut event = 77;
    same(&rt, node_finish(&mut hears, &on, 1, &own, &mut event), 0);
    same(&rt, event, 2);
    same(&rt, hears, node(0, 4, 0));
    let mut off = node(256, 0, 0);
    same(&rt, node_recessive(&mut off, 127), 0);
    same(&rt, off.groups, 127);
    same(&rt, node_recessive(&mut off, 1), 0);
    same(&rt, off, node(0, 0, 0));
}

#[test]
fn nodes_out_of_range_are_refused(rt: HostRuntime) {
    let mut wrong = node(264, 0, 0);
    let mut right = node(0, 0, 0);
    let mut own = listens(77, 0);
    let mut wide = frame(1);
    wide.dlc = 16;
    same(&rt, node_begin(&wrong, 1, &wide, &mut own), 31);
    same(&rt, node_begin(&right, 1, &wide, &mut own), 17);
    same(&rt, own.role, 77);
    same(&rt, node_begin(&right, 0, &wide, &mut own), 0);
    let mut event = 77;
    let on = wire(&rt, &[]);
    same(&rt, node_finish(&mut wrong, &on, 0, &own, &mut event), 31);
    same(
        &rt,
        node_finish(&mut right, &no_wire(), 32, &own, &mut event),
        28,
    );
    same(
        &rt,
        node_finish(&mut right, &on, 32, &listens(6, 0), &mut event),
        29,
    );
    same(
        &rt,
        node_finish(&mut right, &on, 0, &listens(6, 0), &mut event),
        27,
    );
    same(&rt, event, 77);
    same(&rt, node_recessive(&mut wrong, 0), 31);
    same(&rt, node_recessive(&mut right, 0), 15);
    same(&rt, node_recessive(&mut right, 10_001), 15);
}

/// The frame 123#11 has 53 bits, by `canframelen`; and 0x2301 is two clock periods a quantum, and eight quanta a bit.
#[test]
fn frames_and_bits_have_lengths(rt: HostRuntime) {
    let mut shown = frame(0x11);
    shown.id = 0x123;
    let mut bits = 77;
    same(&rt, frame_bits(&shown, &mut bits), 0);
    same(&rt, bits, 53);
    shown.id = 0x800;
    same(&rt, frame_bits(&shown, &mut bits), 17);
    same(&rt, bits, 53);
    same(&rt, bit_time(0x2301, 0), 16);
}
