use crate::member::{MOST_MEMBERS, Places};
use ccan_accept::Frame;

/// What a member is to the frame that won the bus.
#[derive(Clone, Copy, Debug, PartialEq, Eq, Hash)]
pub enum Part {
    /// It started this frame.
    Sender,
    /// It started another frame with the same bits of arbitration, and dropped out at its first recessive bit that is dominant in
    /// this one: it has a bit error, and is error passive, so that its error flag disturbs nobody.
    Dropped,
    /// It started nothing, or lost the arbitration.
    Listener,
}

/// The frame that won the bus, with those who started it.
#[derive(Clone, Copy, Debug, PartialEq, Eq, Hash)]
pub struct Winner {
    /// The frame.
    pub frame: Frame,
    /// The members who started it: several if each sends it, equal to the last bit.
    pub senders: Places,
    /// The members who dropped out after the arbitration.
    pub dropped: Places,
}

impl Winner {
    ghost use Rattle.std.specs.Prelude.{◌≡◌, ◌<◌};
    ghost use Rattle.ccan_wire.specs.Winner.{part_of};

    /// What the member at this place is to the frame.
    pub fn part(&self, place: usize) -> Part
        requires { place < MOST_MEMBERS }
        ensures { result ≡ part_of self.now place }
    {
        if self.senders[place] {
            Part::Sender
        } else if self.dropped[place] {
            Part::Dropped
        } else {
            Part::Listener
        }
    }
}
