ghost use Rattle.std.specs.Prelude.{◌≡◌, ◌≤◌, ◌^◌, ◌↔◌, IsTrue, Some, true, false};

use crate::flaw::Flaw;
use crate::packed::{packed, rest};
use crate::role::Role;
use crate::sign::Sign;
use crate::winner::Part;
use ccan_accept::Frame;

/// A bus has at most this many members.
pub const MOST_MEMBERS: usize = 32;

/// The number of a member that sends nothing, above those of all frames.
pub(crate) const NO_FRAME: u64 = 1 << 32;

/// Places of members, from 0 on: `true` at each place that is meant.
pub type Places = [bool; MOST_MEMBERS];

/// A member of a bus while one frame is sent.
#[derive(Clone, Copy, Debug, PartialEq, Eq, Hash)]
pub struct Member {
    /// What it does on the bus.
    pub role: Role,
    /// The frame that it starts to send, if its role lets it: what a chip has loaded, or what another node offers.
    pub frame: Option<Frame>,
    /// The error that it finds by itself, which counts for nothing in one that doesn't hear the bus. If an earlier one ends the
    /// frame for all, give no later one.
    pub flaw: Option<Flaw>,
}

impl Member {
    ghost use Rattle.ccan_wire.specs.Flaw.{found_at_delimiter, found_early};
    ghost use Rattle.ccan_wire.specs.Member.{sent_by};
    ghost use Rattle.ccan_wire.specs.Packed.{Agrees, Dissents, IsLate, key_of, rest_by};
    ghost use Rattle.ccan_wire.specs.Sign.{shows};

    /// The frame that it sends: the one that it has, if its role lets it send.
    pub fn sent(&self) -> Option<Frame>
        ensures { result ≡ sent_by self.now }
    {
        if self.role.drives() { self.frame } else { None }
    }

    /// Whether it sends this frame.
    pub(crate) fn sends(&self, frame: &Frame) -> bool
        ensures { IsTrue result ↔ (sent_by self.now ≡ Some frame.now) }
    {
        self.sent() == Some(*frame)
    }

    /// The number by which it contends for the bus: the least one wins.
    pub(crate) fn key(&self) -> u64
        ensures { result ≡ key_of self.now }
    {
        match self.sent() {
            Some(frame) => u64::from(packed(&frame)),
            None => NO_FRAME,
        }
    }

    /// What it sends after the bits of arbitration, as a number; 0 if it sends nothing.
    pub(crate) fn rest(&self) -> u128
        ensures { result ≡ rest_by self.now }
    {
        match self.sent() {
            Some(frame) => rest(&frame),
            None => 0,
        }
    }

    /// Whether it just drops out after the arbitration, if this frame has the same bits of arbitration as its own.
    fn is_late(&self, frame: &Frame) -> bool
        ensures { IsTrue result ↔ IsLate self.now frame.now }
    {
        self.role.hears() && !self.role.is_active() && rest(frame) < self.rest()
    }

    /// Whether it lets this frame go on, which no frame precedes; `contends` says that its own has the same bits of arbitration.
    pub(crate) fn agrees(&self, frame: &Frame, contends: bool) -> bool
        ensures agrees { result ≡ true → Agrees contends self.now frame.now }
        ensures dissents { result ≡ false → Dissents contends self.now frame.now }
    {
        if contends {
            self.sends(frame) || self.is_late(frame)
        } else {
            self.sent().is_none() || self.role.hears()
        }
    }

    /// Whether it finds an error before the end of the check sequence.
    fn is_early(&self, sends: bool) -> bool
        ensures { result ≡ found_early sends self.now.flaw }
    {
        match self.flaw {
            Some(flaw) => flaw.is_in_the_stuffed_part(sends),
            None => false,
        }
    }

    /// Whether it finds an error in the CRC delimiter.
    fn is_at_delimiter(&self, sends: bool) -> bool
        ensures { result ≡ found_at_delimiter sends self.now.flaw }
    {
        match self.flaw {
            Some(flaw) => flaw.is_before_the_ack_slot(sends),
            None => false,
        }
    }

    fn shows_as_sender(&self, sign: Sign) -> bool
        ensures { result ≡ shows sign Part.Sender self.now }
    {
        match sign {
            Sign::Breaks => self.role.is_active() && self.is_early(true),
            Sign::GoesOn => self.role.drives() && !(self.role.hears() && self.is_early(true)),
            Sign::Covers => self.role.is_active() && self.is_at_delimiter(true),
            Sign::Flags => self.role.is_active() && self.flaw.is_some(),
            Sign::Protests => self.role.is_active(),
            Sign::Acknowledges => false,
        }
    }

    fn shows_as_listener(&self, sign: Sign) -> bool
        ensures { result ≡ shows sign Part.Listener self.now }
    {
        match sign {
            Sign::Breaks => self.role.is_active() && self.is_early(false),
            Sign::GoesOn => false,
            Sign::Covers => self.role.is_active() && self.is_at_delimiter(false),
            Sign::Flags | Sign::Protests => self.role.is_active() && self.flaw.is_some(),
            Sign::Acknowledges => self.role.drives() && self.role.hears() && self.flaw.is_none(),
        }
    }

    /// Whether it does this while the frame is sent, if this is its part.
    pub(crate) fn shows(&self, sign: Sign, part: Part) -> bool
        ensures { result ≡ shows sign part self.now }
    {
        match part {
            Part::Sender => self.shows_as_sender(sign),
            Part::Dropped => false,
            Part::Listener => self.shows_as_listener(sign),
        }
    }
}
