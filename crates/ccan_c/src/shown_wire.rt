//! What is on a bus, as C writes it.
ghost use Rattle.std.specs.Prelude.{ℕ, ◌≡◌, ◌<◌, ◌==◌, MatchOption, false, map, slice_index_or, true};
ghost use Rattle.ccan_station.specs.Station.{frame_won};
ghost use Rattle.ccan_wire.specs.Event.{part_on};
ghost use Rattle.ccan_wire.specs.Wire.{start_of};
ghost use Rattle.ccan_c.specs.Host.{number_of};
ghost use Rattle.ccan_c.specs.Wire.{is_flagged, is_sender, is_shown_frame, is_wire, most_members, IsShownWire};
ghost use Rattle.ccan_c.specs.Wire.{part_number, winner_in, wire_in, wire_kind};

use crate::numbers::number_of;
use crate::shown_frame::ShownFrame;
use ccan_accept::Frame;
use ccan_wire::{MOST_MEMBERS, Part, Places, Start, Winner, Wire};

/// What is on a bus while one frame is sent.
#[repr(C)]
#[derive(Clone, Copy, PartialEq, Eq, Debug)]
pub struct ShownWire {
    /// 0 nobody sends, 1 frames collide, 2 broken, 3 flagged, 4 not acknowledged, 5 carried.
    pub kind: u32,
    /// 1 if an error flag of dominant bits comes after the ACK slot of a frame that is not acknowledged, else 0.
    pub flagged: u32,
    /// The frame that won, zero if none did.
    pub frame: ShownFrame,
    /// At the index of each place, what the member there is to the frame: 0 a listener, 1 a sender, 2 one that dropped out.
    pub part: [u8; MOST_MEMBERS],
}

fn kind_of(wire: &Wire) -> u32
    ensures { result ≡ wire_kind wire.now }
{
    match wire {
        Wire::Idle => 0,
        Wire::Collided(_) => 1,
        Wire::Broken(_) => 2,
        Wire::Flagged(_) => 3,
        Wire::Unheard(_, _) => 4,
        Wire::Carried(_) => 5,
    }
}

fn is_flagged(wire: &Wire) -> bool
    ensures { result ≡ is_flagged wire.now }
{
    match wire {
        Wire::Unheard(_, flagged) => *flagged,
        Wire::Idle | Wire::Collided(_) | Wire::Broken(_) | Wire::Flagged(_) | Wire::Carried(_) => {
            false
        }
    }
}

fn won(wire: &Wire) -> Option<Frame>
    ensures { result ≡ frame_won (start_of wire.now) }
{
    match wire.start() {
        Start::Nothing | Start::Collision(_) => None,
        Start::Won(winner) => Some(winner.frame),
    }
}

fn part_number(part: Part) -> u8
    ensures { result ≡ part_number part }
{
    match part {
        Part::Listener => 0,
        Part::Sender => 1,
        Part::Dropped => 2,
    }
}

fn parts(wire: &Wire) -> [u8; MOST_MEMBERS]
    ensures { (k : ℕ) → k < most_members
        → slice_index_or result k 0 ≡ part_number (part_on wire.now k) }
{
    let mut shown = [0; MOST_MEMBERS];
    for place in 0..MOST_MEMBERS {
        shown[place] = part_number(wire.part(place));
    }
    shown
}

/// The places of those with this number.
fn places_of(part: &[u8; MOST_MEMBERS], number: u8) -> Places
    ensures { result ≡ map (λ n. n == number) part.now }
{
    let mut places = [false; MOST_MEMBERS];
    for place in 0..MOST_MEMBERS {
        places[place] = part[place] == number;
    }
    places
}

impl ShownWire {
    /// What is on the bus, as C sees it.
    pub(crate) fn of(wire: &Wire) -> ShownWire
        ensures { IsShownWire wire.now result }
    {
        ShownWire {
            kind: kind_of(wire),
            flagged: number_of(is_flagged(wire)),
            frame: ShownFrame::of_option(&won(wire)),
            part: parts(wire),
        }
    }

    fn senders(&self) -> Places
        ensures { result ≡ map is_sender self.now.part }
    {
        places_of(&self.part, 1)
    }

    /// The frame that won, with those who started it. None if it is not a frame.
    fn winner(&self) -> Option<Winner>
        ensures { MatchOption result (is_shown_frame self.now.frame ≡ false)
            (λ winner. (is_shown_frame self.now.frame ≡ true) × (winner ≡ winner_in self.now)) }
    {
        let frame = self.frame.read()?;
        Some(Winner {
            frame,
            senders: self.senders(),
            dropped: places_of(&self.part, 2),
        })
    }

    /// What is on the bus. None if a number is out of its range.
    pub(crate) fn read(&self) -> Option<Wire>
        ensures { MatchOption result (is_wire self.now ≡ false)
            (λ wire. (is_wire self.now ≡ true) × (wire ≡ wire_in self.now)) }
    {
        match self.kind {
            0 => Some(Wire::Idle),
            1 => Some(Wire::Collided(self.senders())),
            2 => Some(Wire::Broken(self.winner()?)),
            3 => Some(Wire::Flagged(self.winner()?)),
            4 => Some(Wire::Unheard(self.winner()?, self.flagged != 0)),
            5 => Some(Wire::Carried(self.winner()?)),
            _ => None,
        }
    }
}
