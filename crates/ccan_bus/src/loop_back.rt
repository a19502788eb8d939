//! Loop back mode.

ghost use Rattle.std.specs.Prelude.{◌≡◌, true};
ghost use Rattle.ccan_bus.specs.Decide.{DecidesBack, IsOf};

use crate::bus::Bus;
use crate::decision::Decision;
use crate::own::own_of;
use ccan_confine::{BusEvent, StatusEvent};

impl Bus {
    ghost use Rattle.ccan_bus.specs.Bus.{GoesOn, IsSameBus, is_on_now};
    ghost use Rattle.ccan_bus.specs.Past.{sends_to_itself};

    /// Sets loop back mode (LBack of the Test register): the controller receives its own frames, and no other node hears
    /// it or is heard.
    pub fn loop_back(&mut self, on: bool)
        ensures same { IsSameBus self.old self.new }
        ensures goes_on { GoesOn self.old self.new
            (λ past after. after ≡ record past { loops_back = on }) }
    {
        self.loops_back = on;
    }

    /// The controller sends what is loaded to itself, and no other node has an event.
    fn send_to_itself(&mut self)
        requires { is_on_now self.old 0 ≡ true }
        ensures same { IsSameBus self.old self.new }
        ensures goes_on { GoesOn self.old self.new (λ past after. after ≡ sends_to_itself past) }
    {
        let controller = self.nodes[0].after(BusEvent::Sent);
        self.nodes[0] = controller;
        self.status.after(StatusEvent::Sent, &controller);
        self.status.after(StatusEvent::Received, &controller);
        self.loaded = None;
    }

    /// What a round comes to in loop back mode, if the controller is on.
    pub(crate) fn decide_back(&mut self) -> Decision
        requires { is_on_now self.old 0 ≡ true }
        ensures same { IsSameBus self.old self.new }
        ensures held { IsOf self.old.profile result }
        ensures goes_on { GoesOn self.old self.new (λ past after. DecidesBack past after result) }
    {
        match own_of(&self.loaded) {
            None => Decision::Idle,
            Some(own) => {
                self.send_to_itself();
                Decision::LoopBack(own.object, own.frame)
            }
        }
    }
}
