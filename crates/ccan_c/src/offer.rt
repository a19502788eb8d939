//! Frames that other nodes offer in a round.
ghost use Rattle.std.specs.Prelude.{◌≡◌, ◌≤◌, IfSome, MatchOption, false, length, map, true};
ghost use Rattle.std.specs.List.{list_all};
ghost use Rattle.ccan_line.specs.Limits.{most_frames};
ghost use Rattle.ccan_c.specs.Round.{fault_numbered, is_frame, sending_of};

use arrayvec::ArrayVec;
use ccan_accept::Frame;
use ccan_bus::Fault;

/// The frame that a node sends.
#[repr(C)]
#[derive(Clone, Copy, PartialEq, Eq, Debug)]
pub struct Offer {
    /// The identifier, of 11 bits, or of 29 if it is extended.
    pub id: u32,
    /// The node, from 1 on.
    pub node: u8,
    /// Whether the identifier is extended: 0 is no, each other number is yes.
    pub xtd: u8,
    /// Whether it is a remote frame, in the same way.
    pub rtr: u8,
    /// The data length code, 0 to 15.
    pub dlc: u8,
    /// The data, byte 0 first.
    pub bytes: [u8; 8],
}

/// The frames of a round, each with its node.
pub(crate) type Sends = ArrayVec<(u8, Frame), 8>;

impl Offer {
    /// The frame with its node. None if the identifier or the length is out of its range.
    fn read(&self) -> Option<(u8, Frame)>
        ensures { MatchOption result (is_frame self.now ≡ false)
            (λ sending. (is_frame self.now ≡ true) × (sending ≡ sending_of self.now)) }
    {
        match Frame::new(self.id, self.xtd != 0, self.rtr != 0, self.dlc, self.bytes) {
            Ok(frame) => Some((self.node, frame)),
            Err(_) => None,
        }
    }
}

/// The frames of a round. None if the identifier or the length of one is out of its range.
pub(crate) fn read_offers(offers: &[Offer]) -> Option<Sends>
    requires { length offers.now ≤ most_frames }
    ensures { MatchOption result (list_all is_frame offers.now ≡ false)
        (λ sends. (list_all is_frame offers.now ≡ true)
        × (sends.items ≡ map sending_of offers.now)) }
{
    let mut sends = Sends::new();
    for offer in offers {
        match offer.read() {
            Some(sending) => sends.push(sending),
            None => return None,
        }
    }
    Some(sends)
}

/// The fault of this number.
pub fn fault_numbered(number: u32) -> Option<Fault>
    ensures { result ≡ fault_numbered number }
{
    match number {
        0 => Some(Fault::Quiet),
        1 => Some(Fault::Stuff),
        2 => Some(Fault::Form),
        3 => Some(Fault::Bit1),
        4 => Some(Fault::Bit0),
        5 => Some(Fault::Crc),
        _ => None,
    }
}
