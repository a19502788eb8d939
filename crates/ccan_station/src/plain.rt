ghost use Rattle.std.specs.Prelude.{◌≡◌, ◌<◌};

use ccan_accept::Frame;
use ccan_confine::Counters;
use ccan_wire::{Flaw, MOST_MEMBERS, Member, Role, Wire};

/// A node without a chip: its error counters are all that it has.
#[derive(Clone, Copy, PartialEq, Eq, Hash, Debug)]
pub struct Plain {
    /// Its error counters.
    pub counters: Counters,
}

impl Plain {
    ghost use Rattle.ccan_station.specs.Plain.{plain_after, plain_member};

    /// What it is to the bus, if it offers this frame and finds this error by itself. One that is bus off is absent.
    pub fn member(&self, frame: Option<Frame>, flaw: Option<Flaw>) -> Member
        ensures { result ≡ plain_member self.now frame flaw }
    {
        Member {
            role: Role::of_state(self.counters.state()),
            frame,
            flaw,
        }
    }

    /// The end of a frame, for the node that is this member at this position.
    pub fn end(&mut self, wire: &Wire, place: usize, member: &Member)
        requires { place < MOST_MEMBERS }
        ensures { self.new ≡ plain_after self.old wire.now place member.now }
    {
        match wire.event(place, member) {
            None => {}
            Some((event, _)) => self.counters = self.counters.after(event),
        }
    }
}
