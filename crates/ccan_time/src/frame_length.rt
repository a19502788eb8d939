//! How many bits a frame has on the bus.

ghost use Rattle.std.specs.Prelude.{◌≡◌, ◌<◌, ◌≤◌, ◌^◌, length};
ghost use Rattle.ccan_time.specs.Bits.{lowest_bits};
ghost use Rattle.ccan_time.specs.FrameBits.{bits_on_bus, crc_sequence};

use crate::register::CRC_BITS;
use crate::transmitter::Transmitter;
use ccan_accept::Frame;

/// CRC delimiter, ACK slot, ACK delimiter and end of frame.
const END_BITS: u32 = 10;

/// The CRC sequence of a frame, its first bit at place 14 (CAN Specification 2.0, part B, "Data Frame").
pub fn crc_sequence(frame: &Frame) -> u16
    ensures bits { lowest_bits 15 result ≡ crc_sequence frame.now }
    ensures in_range { result < 2 ^ 15 }
{
    Transmitter::of_checked(frame).register
}

/// How many bits a frame has on the bus, at most 157: all from the start of frame to the end of frame, with the stuff bits, and
/// without the intermission after it (CAN Specification 2.0, part B, "Data Frame", "Remote Frame" and "Coding"). A data length
/// code of 9 to 15 means eight data bytes; a remote frame has none.
pub fn frame_bits(frame: &Frame) -> u32
    ensures exact { result ≡ length (bits_on_bus frame.now) }
    ensures few { result ≤ 157 }
{
    let mut transmitter = Transmitter::of_checked(frame);
    let crc = transmitter.register;
    transmitter.send_number(u64::from(crc), CRC_BITS);
    transmitter.stuffing.bits + END_BITS
}
