ghost use Rattle.std.specs.Prelude.{◌≡◌, ◌+◌, ◌<◌, ◌≤◌, ◌++◌, length};
ghost use Rattle.arrayvec.specs.ArrayVec.{array_vec_len};
ghost use Rattle.ccan_bus.specs.Arbitration.{Arbitrates, arbitration_bits, lowest_bits};

use crate::lead::{Lead, packed};
use arrayvec::ArrayVec;
use ccan_accept::Frame;

/// Bits in the order in which they are sent; `false` is dominant.
pub type Bits = ArrayVec<bool, 32>;

/// How an arbitration ends.
#[derive(Clone, Copy, PartialEq, Eq, Debug)]
pub enum Outcome {
    /// The frame at this index, counted from 0, goes on alone.
    Winner(usize),
    /// Two or more frames go on, which are equal in all bits of arbitration.
    Collision,
}

/// Appends this many bits of a number, from the lowest one on, the highest first.
fn push_lowest(bits: &mut Bits, count: u32, number: u32)
    requires { array_vec_len bits.old + count ≤ 32 }
    ensures items { bits.new.items ≡ bits.old.items ++ lowest_bits count number }
    ensures len { array_vec_len bits.new ≡ array_vec_len bits.old + count }
{
    for done in 0..count {
        bits.push((number >> (count - 1 - done)) % 2 == 1);
    }
}

/// The bits of a frame that take part in arbitration (CAN Specification 2.0, part B, section 3.1.1): of a standard frame
/// 13, of an extended one 32.
pub fn arbitration_bits(frame: &Frame) -> Bits
    ensures { result.items ≡ arbitration_bits frame.now }
{
    let mut bits = ArrayVec::new();
    let id = frame.id();
    if frame.xtd() {
        push_lowest(&mut bits, 11, id >> 18);
        bits.push(true);
        bits.push(true);
        push_lowest(&mut bits, 18, id);
        bits.push(frame.rtr());
    } else {
        push_lowest(&mut bits, 11, id);
        bits.push(frame.rtr());
        bits.push(false);
    }
    bits
}

/// Which of 1 to 9 frames wins the bus, if all are sent at once.
pub fn arbitrate(frames: &[Frame]) -> Outcome
    requires least { 0 < length frames.now }
    requires most { length frames.now ≤ 9 }
    ensures { Arbitrates frames.now result }
{
    let mut lead = Lead::of(&frames[0]);
    for place in 1..frames.len() {
        lead = lead.next(place, packed(&frames[place]));
    }
    if lead.tied {
        Outcome::Collision
    } else {
        Outcome::Winner(lead.place)
    }
}
