//! How long a frame, a bit and what is between frames take. The frames are counted by `tools/test/frame_bits.py`, and the data
//! frames by `canframelen` of can-utils 2020.11.0 too, which also has the three bits of the intermission.

use crate::expect::{holds, same};
use ccan_accept::Frame;
use ccan_confine::{BitTiming, NodeState};
use ccan_time::*;

/// An identifier, Xtd, RTR, the data length code and the data; the bits on the bus, and the CRC sequence.
const FRAMES: [(u32, bool, bool, u8, [u8; 8], u32, u16); 16] = [
    (0, false, false, 0, [0; 8], 50, 0),
    (0x7ff, false, false, 0, [0; 8], 47, 0x272f),
    (
        0x123,
        false,
        false,
        1,
        [0x11, 0, 0, 0, 0, 0, 0, 0],
        53,
        0x0869,
    ),
    (
        0x123,
        false,
        false,
        2,
        [0x11, 0x22, 0, 0, 0, 0, 0, 0],
        62,
        0x04b7,
    ),
    (0x555, false, false, 8, [0x55; 8], 109, 0x1b04),
    (0, false, false, 8, [0; 8], 124, 0x145b),
    (0x7ff, false, false, 8, [0xff; 8], 123, 0x4c89),
    (
        0x78,
        false,
        false,
        3,
        [0x3c, 0x3c, 0x3c, 0, 0, 0, 0, 0],
        71,
        0x7228,
    ),
    (
        0x14,
        false,
        false,
        1,
        [0x01, 0, 0, 0, 0, 0, 0, 0],
        55,
        0x7753,
    ),
    (0, true, false, 0, [0; 8], 71, 0x4610),
    (0x1fffffff, true, false, 8, [0xff; 8], 146, 0x1b69),
    (0, true, false, 8, [0; 8], 147, 0x3daf),
    (
        0x0f83e0f8,
        true,
        false,
        4,
        [0x07, 0xc1, 0xf0, 0x7c, 0, 0, 0, 0],
        110,
        0x4a0f,
    ),
    (0x123, false, true, 8, [0; 8], 45, 0x6f9a),
    (0x7ff, false, true, 0, [0; 8], 47, 0x54ea),
    (0x12345678, true, true, 0, [0; 8], 66, 0x1f52),
];

#[test]
fn frames_have_their_bits(rt: HostRuntime) {
    for (id, xtd, rtr, dlc, bytes, bits, crc) in FRAMES {
        match Frame::new(id, xtd, rtr, dlc, bytes) {
            Ok(frame) => {
                same(&rt, frame_bits(&frame), bits);
                same(&rt, crc_sequence(&frame), crc);
            }
            Err(_) => holds(&rt, false),
        }
    }
}

/// The reset value at 8 MHz gives 500 kBit/s, as the manual says: 16 clock periods a bit.
#[test]
fn a_bit_has_its_time(rt: HostRuntime) {
    let reset = BitTiming::new(0x2301, 0);
    same(&rt, time_quantum(reset), 2);
    same(&rt, bit_time(reset), 16);
    same(&rt, sample_point(reset), 10);
    same(&rt, jump_width(reset), 2);
    same(&rt, clock_periods(50, reset), 800);
    let slowest = BitTiming::new(0x7fff, 0xf);
    same(&rt, time_quantum(slowest), 1024);
    same(&rt, bit_time(slowest), 25600);
}

#[test]
fn the_bus_rests_between_frames(rt: HostRuntime) {
    same(&rt, bits_before_start(NodeState::Active, true), Some(3));
    same(&rt, bits_before_start(NodeState::Passive, false), Some(3));
    same(&rt, bits_before_start(NodeState::Passive, true), Some(11));
    same(&rt, bits_before_start(NodeState::Off, false), None);
    same(&rt, error_frame_bits(0), 14);
    same(&rt, error_frame_bits(6), 20);
    same(&rt, whole_groups(1408), 128);
    let mut group = BegunGroup::new();
    same(&rt, group.pass(10), 0);
    same(&rt, group.pass(1), 1);
    same(&rt, group.pass(25), 2);
    same(&rt, group.bits(), 3);
}
