//! Worked rounds of several members on one bus, with events from CAN Specification 2.0 and not from the program.

use crate::expect::{frame, same};
use ccan_confine::{BusEvent, StatusEvent};
use ccan_wire::{Flaw, Member, Role, Wire, decide, decide_again};

/// A member: its role, the identifier and the one data byte of the frame that it starts, and the error that it finds.
type Row = (Role, Option<(u8, u8)>, Option<Flaw>);

type Event = Option<(BusEvent, StatusEvent)>;

const SENT: Event = Some((BusEvent::Sent, StatusEvent::Sent));

const RECEIVED: Event = Some((BusEvent::Received, StatusEvent::Received));

const LOOPED: Event = Some((BusEvent::Sent, StatusEvent::Looped));

const NO_ACK: Event = Some((BusEvent::SendNoAck, StatusEvent::Fault(3)));

fn send_fault(code: u8) -> Event {
    Some((BusEvent::SendFault, StatusEvent::Fault(code)))
}

fn receive_fault(code: u8) -> Event {
    Some((BusEvent::ReceiveFault, StatusEvent::Fault(code)))
}

fn member(row: Row) -> Member {
    let (role, starts, flaw) = row;
    let frame = match starts {
        Some((id, byte)) => Some(frame(
            u32::from(id),
            false,
            false,
            1,
            [byte, 0, 0, 0, 0, 0, 0, 0],
        )),
        None => None,
    };
    Member { role, frame, flaw }
}

fn members(rows: [Row; 3]) -> [Member; 3] {
    [member(rows[0]), member(rows[1]), member(rows[2])]
}

/// What is on the bus, to each of three members.
fn events(wire: &Wire, members: &[Member; 3]) -> [Event; 3] {
    [
        wire.event(0, &members[0]),
        wire.event(1, &members[1]),
        wire.event(2, &members[2]),
    ]
}

#[test]
fn rounds_come_to_each_member_as_it_sees_them(rt: HostRuntime) {
    use Flaw::{Bit0, Bit1, Crc, Form, Stuff};
    use Role::{Absent, Active, Alone, Passive, Silent};
    let one = Some((5, 1));
    let absent = (Absent, None, None);
    let listener = (Active, None, None);
    let sender = (Active, one, None);
    let rounds = [
        // acknowledged, and arbitration
        (
            [sender, listener, (Passive, None, None)],
            [SENT, RECEIVED, RECEIVED],
        ),
        (
            [(Active, Some((6, 0)), None), sender, listener],
            [RECEIVED, SENT, RECEIVED],
        ),
        (
            [listener, (Silent, one, None), (Alone, None, None)],
            [None, None, None],
        ),
        // nobody acknowledges
        (
            [(Passive, one, None), absent, (Silent, None, None)],
            [NO_ACK, None, RECEIVED],
        ),
        (
            [sender, (Silent, None, None), (Alone, one, None)],
            [NO_ACK, receive_fault(2), LOOPED],
        ),
        (
            [sender, (Passive, None, Some(Crc)), absent],
            [NO_ACK, receive_fault(6), None],
        ),
        (
            [sender, (Active, None, Some(Crc)), absent],
            [NO_ACK, receive_fault(6), None],
        ),
        (
            [(Passive, one, None), (Active, None, Some(Crc)), absent],
            [send_fault(3), receive_fault(6), None],
        ),
        // several senders
        (
            [sender, (Active, Some((5, 2)), None), listener],
            [send_fault(4), send_fault(4), receive_fault(1)],
        ),
        (
            [(Passive, one, None), (Active, Some((5, 2)), None), listener],
            [send_fault(4), send_fault(4), receive_fault(1)],
        ),
        (
            [sender, (Passive, Some((5, 2)), None), listener],
            [SENT, send_fault(4), RECEIVED],
        ),
        (
            [
                (Passive, Some((5, 2)), None),
                (Passive, one, None),
                listener,
            ],
            [send_fault(4), SENT, RECEIVED],
        ),
        (
            [sender, (Passive, Some((5, 2)), None), (Silent, None, None)],
            [NO_ACK, send_fault(4), receive_fault(2)],
        ),
        (
            [sender, (Passive, one, None), listener],
            [SENT, SENT, RECEIVED],
        ),
        (
            [sender, (Passive, one, None), (Silent, None, None)],
            [NO_ACK, send_fault(3), receive_fault(2)],
        ),
        (
            [sender, (Passive, one, Some(Bit1)), listener],
            [SENT, send_fault(4), RECEIVED],
        ),
        // errors of listeners
        (
            [sender, (Passive, None, Some(Stuff)), listener],
            [SENT, receive_fault(1), RECEIVED],
        ),
        (
            [sender, (Silent, None, Some(Stuff)), listener],
            [SENT, receive_fault(1), RECEIVED],
        ),
        (
            [sender, (Active, None, Some(Stuff)), listener],
            [send_fault(4), receive_fault(1), receive_fault(1)],
        ),
        (
            [sender, (Active, None, Some(Crc)), listener],
            [send_fault(2), receive_fault(6), receive_fault(2)],
        ),
        (
            [sender, (Active, None, Some(Form)), absent],
            [send_fault(2), receive_fault(2), None],
        ),
        (
            [sender, (Active, None, Some(Bit0)), listener],
            [send_fault(2), receive_fault(5), receive_fault(2)],
        ),
        // errors of senders
        (
            [(Active, one, Some(Bit0)), listener, listener],
            [send_fault(5), receive_fault(1), receive_fault(1)],
        ),
        (
            [(Passive, one, Some(Bit0)), listener, absent],
            [send_fault(5), receive_fault(1), None],
        ),
        (
            [(Passive, one, Some(Form)), listener, absent],
            [send_fault(2), RECEIVED, None],
        ),
    ];
    for (rows, want) in rounds {
        let members = members(rows);
        let got = events(&decide(&members), &members);
        same(&rt, (rows, got), (rows, want));
    }

    // what the first three start, what is left of them at the end, and what that is to them
    let again = [
        (
            [sender, listener, (Active, Some((6, 0)), None)],
            absent,
            [None, receive_fault(1), receive_fault(1)],
        ),
        (
            [sender, (Active, Some((5, 2)), None), listener],
            absent,
            [None, send_fault(4), receive_fault(1)],
        ),
        ([sender, sender, listener], absent, [None, SENT, RECEIVED]),
        (
            [sender, listener, listener],
            (Active, one, Some(Bit1)),
            [send_fault(4), receive_fault(1), receive_fault(1)],
        ),
    ];
    for (rows, first, want) in again {
        let start = decide(&members(rows));
        let members = members([first, rows[1], rows[2]]);
        let got = events(&decide_again(&start, &members), &members);
        same(&rt, (rows, first, got), (rows, first, want));
    }
}

/// A frame in loop back mode, of identifier 5 with the byte 1 unless stated otherwise. Its sender never stops, whatever is on the
/// bus, and acknowledges nothing.
#[test]
fn loop_back_frames_are_on_the_bus_without_silent(rt: HostRuntime) {
    use Flaw::{Bit0, Crc, Stuff};
    use Role::{Absent, Active, Alone, Looped, Passive, Silent};
    let one = Some((5, 1));
    let absent = (Absent, None, None);
    let listener = (Active, None, None);
    let looped = (Looped, one, None);
    let rounds = [
        // the others hear it, and nobody needs to acknowledge it
        (
            [looped, listener, (Silent, None, None)],
            [LOOPED, RECEIVED, RECEIVED],
        ),
        (
            [looped, (Silent, None, None), absent],
            [LOOPED, RECEIVED, None],
        ),
        ([(Alone, one, None), listener, absent], [LOOPED, None, None]),
        (
            [(Looped, one, Some(Bit0)), listener, absent],
            [LOOPED, RECEIVED, None],
        ),
        // it acknowledges nothing
        (
            [(Active, one, None), (Looped, None, None), absent],
            [NO_ACK, None, None],
        ),
        // errors of listeners spoil it for the others
        (
            [looped, (Active, None, Some(Stuff)), listener],
            [LOOPED, receive_fault(1), receive_fault(1)],
        ),
        (
            [looped, (Active, None, Some(Crc)), listener],
            [LOOPED, receive_fault(6), receive_fault(2)],
        ),
        (
            [looped, (Active, None, Some(Crc)), absent],
            [LOOPED, receive_fault(6), None],
        ),
        // it wins the arbitration, or loses it and disturbs the frame that won
        (
            [looped, (Active, Some((6, 0)), None), listener],
            [LOOPED, RECEIVED, RECEIVED],
        ),
        (
            [(Looped, Some((6, 0)), None), (Active, one, None), listener],
            [LOOPED, send_fault(4), receive_fault(1)],
        ),
        (
            [looped, (Looped, Some((6, 0)), None), listener],
            [LOOPED, LOOPED, receive_fault(1)],
        ),
        // the same identifier: 1 has a dominant bit where 2 has its first recessive one that differs
        (
            [looped, (Passive, Some((5, 2)), None), listener],
            [LOOPED, send_fault(4), RECEIVED],
        ),
        (
            [looped, (Active, Some((5, 2)), None), listener],
            [LOOPED, send_fault(4), receive_fault(1)],
        ),
        (
            [(Looped, Some((5, 2)), None), (Passive, one, None), listener],
            [LOOPED, send_fault(4), receive_fault(1)],
        ),
        // the same frame is one on the bus, and the other sender needs an acknowledgement of it
        (
            [looped, (Active, one, None), listener],
            [LOOPED, SENT, RECEIVED],
        ),
        (
            [looped, (Active, one, None), absent],
            [LOOPED, NO_ACK, None],
        ),
    ];
    for (rows, want) in rounds {
        let members = members(rows);
        let got = events(&decide(&members), &members);
        same(&rt, (rows, got), (rows, want));
    }

    // its sender leaves, and nobody sends it any more
    let start = decide(&members([looped, listener, listener]));
    let left = members([absent, listener, listener]);
    let got = events(&decide_again(&start, &left), &left);
    same(&rt, got, [None, receive_fault(1), receive_fault(1)]);
}

#[test]
fn laws_hold() {
    ccan_wire::laws::each_round_has_one_wire();
    ccan_wire::laws::decided_again_as_at_first();
    ccan_wire::laws::sent_is_heard();
    ccan_wire::laws::at_most_one_frame_is_sent();
    ccan_wire::laws::listeners_change_nothing();
    ccan_wire::laws::nobody_hears_a_lone_sender();
    ccan_wire::laws::unheard_senders_stay_on();
    ccan_wire::laws::winners_are_settled_at_the_start();
    ccan_wire::laws::loop_back_disregards_the_bus();
    ccan_wire::laws::lone_frames_are_received();
    ccan_wire::laws::loop_back_frames_go_on_or_spoil();
}
