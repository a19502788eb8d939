use crate::member::{MOST_MEMBERS, Places};
use crate::start::Start;
use crate::winner::{Part, Winner};

/// What is on a bus while one frame is sent, from its start to its end. Members are named by their places.
#[derive(Clone, Copy, Debug, PartialEq, Eq, Hash)]
pub enum Wire {
    /// Nobody sends.
    Idle,
    /// These members' frames collide: they are equal in the bits of arbitration, and an error flag of dominant bits ends them, or
    /// a member in loop back mode sends another frame over them.
    Collided(Places),
    /// The frame ends before the end of its check sequence: by an error flag of dominant bits, or since nobody sends it any more.
    Broken(Winner),
    /// There is a dominant bit in the ACK slot, and an error flag of dominant bits there or after it.
    Flagged(Winner),
    /// There is no dominant bit in the ACK slot; and whether an error flag of dominant bits comes after it.
    Unheard(Winner, bool),
    /// The frame is acknowledged, and there is no error flag of dominant bits.
    Carried(Winner),
}

impl Wire {
    ghost use Rattle.std.specs.Prelude.{◌≡◌, ◌<◌};
    ghost use Rattle.ccan_wire.specs.Event.{part_on};
    ghost use Rattle.ccan_wire.specs.Wire.{start_of};

    /// What was settled at the start of the frame.
    pub fn start(&self) -> Start
        ensures { result ≡ start_of self.now }
    {
        match self {
            Wire::Idle => Start::Nothing,
            Wire::Collided(who) => Start::Collision(*who),
            Wire::Broken(winner) => Start::Won(*winner),
            Wire::Flagged(winner) => Start::Won(*winner),
            Wire::Unheard(winner, _) => Start::Won(*winner),
            Wire::Carried(winner) => Start::Won(*winner),
        }
    }

    /// What the member at this place is to the frame on the bus. Of frames that collide, those who started one are senders.
    pub fn part(&self, place: usize) -> Part
        requires { place < MOST_MEMBERS }
        ensures { result ≡ part_on self.now place }
    {
        match self {
            Wire::Idle => Part::Listener,
            Wire::Collided(who) => {
                if who[place] {
                    Part::Sender
                } else {
                    Part::Listener
                }
            }
            Wire::Broken(winner) => winner.part(place),
            Wire::Flagged(winner) => winner.part(place),
            Wire::Unheard(winner, _) => winner.part(place),
            Wire::Carried(winner) => winner.part(place),
        }
    }
}
