//! Bit lists and arbitrations, with expected values from the standard, and the lines that rounds take.

use crate::expect::{empty_frame, frame, holds, same};
use arrayvec::ArrayVec;
use ccan_accept::Frame;
use ccan_bus::{Fault, Outcome, RoundLine, arbitrate, arbitration_bits, laws};
use std::process::Abort;

/// Whether a frame's arbitration field is these bits, the first one first.
fn sends(frame: &Frame, field: &str) -> bool {
    let bits = arbitration_bits(frame);
    let same = |(bit, byte): (&bool, u8)| *bit == (byte == b'1');
    bits.len() == field.len() && bits.iter().zip(field.bytes()).all(same)
}

// Eleven bits of 0x123, then RTR and IDE; and of 0x48c0001, whose upper eleven bits are those, SRR, IDE, eighteen more and RTR.
#[test]
fn sends_the_bits_in_order(rt: HostRuntime) {
    let data = frame(0x123, false, false, 0, [0; 8]);
    holds(&rt, sends(&data, "0010010001100"));
    let remote = frame(0x123, false, true, 0, [0; 8]);
    holds(&rt, sends(&remote, "0010010001110"));
    let data = frame(0x48c0001, true, false, 0, [0; 8]);
    holds(&rt, sends(&data, "00100100011110000000000000000010"));
    let remote = frame(0x48c0001, true, true, 0, [0; 8]);
    holds(&rt, sends(&remote, "00100100011110000000000000000011"));
}

/// Frames of the four kinds with the same upper eleven bits, and an extended one below and above those.
#[derive(Clone, Copy)]
enum Kind {
    StandardData,
    StandardRemote,
    ExtendedData,
    ExtendedRemote,
    NextData,
    BeforeRemote,
}

use Kind::*;

/// The frame of a kind.
fn of_kind(kind: Kind) -> Frame {
    match kind {
        StandardData => frame(0x123, false, false, 0, [0; 8]),
        StandardRemote => frame(0x123, false, true, 0, [0; 8]),
        ExtendedData => frame(0x48c0000, true, false, 0, [0; 8]),
        ExtendedRemote => frame(0x48c0000, true, true, 0, [0; 8]),
        NextData => frame(0x48c0001, true, false, 0, [0; 8]),
        BeforeRemote => frame(0x48bffff, true, true, 0, [0; 8]),
    }
}

/// What comes of frames of these kinds.
fn outcome(rt: &impl Abort, kinds: &[Kind]) -> Outcome {
    let mut frames: ArrayVec<Frame, 8> = ArrayVec::new();
    for kind in kinds {
        let _full = frames.try_push(of_kind(*kind));
    }
    let frames = frames.as_slice();
    assert!(rt; frames.len() >= 1);
    arbitrate(frames)
}

#[test]
fn arbitrates_across_the_four_kinds(rt: HostRuntime) {
    for (kinds, winner) in [
        ([StandardData, StandardRemote], 0),
        ([StandardRemote, StandardData], 1),
        ([ExtendedData, StandardRemote], 1),
        ([ExtendedData, StandardData], 1),
        ([ExtendedRemote, ExtendedData], 1),
        ([ExtendedRemote, StandardRemote], 1),
        ([NextData, ExtendedData], 1),
        ([NextData, ExtendedRemote], 1),
        ([StandardData, BeforeRemote], 1),
    ] {
        holds(&rt, outcome(&rt, &kinds) == Outcome::Winner(winner));
    }
    let four = [ExtendedRemote, ExtendedData, StandardRemote, StandardData];
    holds(&rt, outcome(&rt, &four) == Outcome::Winner(3));
    holds(&rt, outcome(&rt, &four[..1]) == Outcome::Winner(0));
    // frames with the same bits collide, if none beats them
    let three = [ExtendedData, BeforeRemote, ExtendedData];
    holds(&rt, outcome(&rt, &three) == Outcome::Winner(1));
    let three = [ExtendedData, StandardData, StandardData];
    holds(&rt, outcome(&rt, &three) == Outcome::Collision);
}

#[test]
fn takes_lines_with_each_node_once(rt: HostRuntime) {
    for (nodes, senders, taken) in [
        (2, [1, 2], true),
        (2, [2, 1], true),
        (2, [1, 1], false),
        (2, [0, 1], false),
        (2, [1, 3], false),
        (8, [8, 3], true),
        (0, [1, 2], false),
    ] {
        let mut send = ArrayVec::new();
        for node in senders {
            let _full = send.try_push((node, empty_frame(0x100)));
        }
        match RoundLine::new(nodes, send, Fault::default()) {
            Some(line) => {
                holds(&rt, taken && line.fault() == Fault::Quiet);
                holds(&rt, line.sends().len() == 2);
            }
            None => holds(&rt, !taken),
        }
    }
}

#[test]
fn laws_of_the_bus_are_there() {
    laws::data_beats_remote();
    laws::standard_beats_extended();
    laws::least_upper_part_wins();
    laws::at_most_one_sends();
    laws::one_sends_exactly_on_success();
    laws::off_nodes_have_no_event();
    laws::sends_what_was_loaded();
    laws::nothing_is_loaded_afterwards();
    laws::refused_loads_leave_all();
    laws::loads_are_of_one_moment();
    laws::each_round_sends_what_was_loaded();
    laws::off_controllers_hold_nothing();
    laws::rounds_are_their_steps();
    laws::loops_what_was_loaded();
    laws::others_rest_in_loop_back();
    laws::lines_are_unheard_in_loop_back();
}
