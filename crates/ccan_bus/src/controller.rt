//! A controller whose registers are outside of the bus: they are given to the bus before a round, and what the round was
//! to them is read off the bus afterwards.

ghost use Rattle.std.specs.Prelude.{◌≡◌, ◌≤◌, None, List, true};
ghost use Rattle.ccan_confine.specs.Counters.{AreAfter, NodeEvent};
ghost use Rattle.ccan_confine.specs.Status.{lec_of};
ghost use Rattle.ccan_bus.specs.Controller.{with_controller};

use crate::bus::Bus;
use ccan_confine::{Counters, Status};

impl Bus {
    ghost use Rattle.ccan_bus.specs.Bus.{GoesOn, IsSameBus, LedTo};
    ghost use Rattle.ccan_bus.specs.Past.{BusPast};

    /// Takes these error counters for the controller's, and this for its loop back mode; its Status register knows of no
    /// event yet. The other nodes and what is loaded stay.
    pub fn take_controller(&mut self, counters: Counters, loops_back: bool)
        ensures same { IsSameBus self.old self.new }
        ensures takes { (past : BusPast) (events : List NodeEvent) → LedTo past self.old
            → AreAfter true events counters
            → LedTo (with_controller events loops_back past) self.new }
    {
        self.nodes[0] = counters;
        self.status = Status::new();
        self.loops_back = loops_back;
    }

    /// Drops what is loaded. Its object stays requested, so that a later load may start it again.
    pub fn unload(&mut self)
        ensures same { IsSameBus self.old self.new }
        ensures goes_on { GoesOn self.old self.new
            (λ past after. after ≡ record past { loaded = None }) }
    {
        self.loaded = None;
    }

    /// LEC of the Status register, the last error code: 0 none, 1 stuff, 2 form, 3 acknowledgement, 4 bit 1, 5 bit 0,
    /// 6 CRC.
    pub fn last_error(&self) -> u8
        ensures listed { (past : BusPast) → LedTo past self.now → result ≡ lec_of past.steps }
        ensures in_range { result ≤ 6 }
    {
        self.status.lec()
    }
}
