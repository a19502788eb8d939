//! What a round decides before any memory step: what comes of its frames.

ghost use Rattle.std.specs.Prelude.{ℕ, ◌≡◌, ◌<◌, ◌≤◌, true, false, ◌∷◌, ◌≢◌, ◌==◌, if◌then◌else◌};
ghost use Rattle.std.specs.List.{filter};
ghost use Rattle.arrayvec.specs.ArrayVec.{array_vec_len};
ghost use Rattle.ccan_confine.specs.declared.bus_event.BusEvent.{BusEvent};
ghost use Rattle.ccan_confine.specs.Status.{AddsStep, Happened};
ghost use Rattle.ccan_confine.specs.StatusEvent.{HasFaultCode};
ghost use Rattle.ccan_bus.specs.Nodes.{IsSharedOut};
ghost use Rattle.ccan_bus.specs.Contenders.{IsWonBy, contenders, own_frame};
ghost use Rattle.ccan_bus.specs.Decide.{Decides, DecidesBetween, IsDue, IsOf};

use crate::arbitration::{Outcome, arbitrate};
use crate::bus::Bus;
use crate::contenders::Contenders;
use crate::decision::Decision;
use crate::nodes::{counted, is_off, only};
use crate::own::own_of;
use crate::round_line::RoundLine;
use ccan_accept::{Frame, frame_of};
use ccan_confine::{BusEvent, Counters, Status, StatusEvent};

/// The Status register's event when a frame is sent and acknowledged.
fn transfer_of(winner: u8) -> StatusEvent
    ensures value { result ≡ (if winner == 0 then StatusEvent.Sent else StatusEvent.Received) }
    ensures known { HasFaultCode result }
{
    if winner == 0 {
        StatusEvent::Sent
    } else {
        StatusEvent::Received
    }
}

/// The last error code of a collision.
fn collision_code(controller: bool) -> u8
    ensures value { result ≡ (if controller then 4 else 1) }
    ensures least { 1 ≤ result }
    ensures most { result ≤ 6 }
{
    if controller { 4 } else { 1 }
}

/// The Status register after an event, which reaches it if the controller is on.
fn noted(mut status: Status, is_on: bool, event: StatusEvent, controller: &Counters) -> Status
    requires { HasFaultCode event }
    ensures on { is_on ≡ true → AddsStep (Happened event controller.now.levels) status result }
    ensures off { is_on ≡ false → result ≡ status }
{
    if is_on {
        status.after(event, controller);
    }
    status
}

impl Bus {
    ghost use Rattle.ccan_bus.specs.Bus.{GoesOn, IsSameBus, is_on_now};
    ghost use Rattle.ccan_bus.specs.Past.{happens, hears_itself};

    /// Whether a node is on.
    pub(crate) fn is_on(&self, node: u8) -> bool
        requires { node < 9 }
        ensures { result ≡ is_on_now self.now node }
    {
        node <= self.others && !is_off(self.nodes[usize::from(node)])
    }

    /// Whether a node other than this one is on.
    fn another_is_on(&self, winner: u8) -> bool
        ensures listener { result ≡ true
            → (node : ℕ) × (node ≢ winner) × (is_on_now self.now node ≡ true) }
        ensures alone { result ≡ false
            → (node : ℕ) → is_on_now self.now node ≡ true → node ≡ winner }
    {
        for node in 0..9 {
            if node != winner && self.is_on(node) {
                return true;
            }
        }
        false
    }

    /// A transfer or its fault ends: each node that is on has its event, the Status register its own, and nothing is
    /// loaded any more.
    fn happen(
        &mut self,
        senders: &[bool; 9],
        sending: BusEvent,
        listening: BusEvent,
        event: StatusEvent,
    )
        requires { HasFaultCode event }
        ensures same { IsSameBus self.old self.new }
        ensures goes_on { (each : ℕ → BusEvent) → IsSharedOut senders.now sending listening each
            → GoesOn self.old self.new (λ past after. after ≡ happens each event past) }
    {
        let is_on = self.is_on(0);
        self.nodes = counted(self.nodes, senders, sending, listening);
        let controller = self.nodes[0];
        self.status = noted(self.status, is_on, event, &controller);
        self.loaded = None;
    }

    /// The loaded frame, if the controller is on.
    fn own_contender(&self) -> Contenders
        ensures items { result.all.items
            ≡ filter (λ c. is_on_now self.now c.0) (own_frame self.now.loaded) }
        ensures len { array_vec_len result.all ≤ 1 }
    {
        let mut found = Contenders::none();
        if let Some((_, started)) = self.loaded {
            found.add(self.is_on(0), 0, &frame_of(&started));
        }
        found
    }

    /// The frames of the nodes that are on: the loaded one, and those of the line.
    fn contenders(&self, line: &RoundLine) -> Contenders
        ensures { result.all.items
            ≡ contenders (is_on_now self.now) self.now.loaded line.now.send.items }
    {
        let mut found = self.own_contender();
        let sends = line.sends();
        for place in 0..sends.len() {
            let (node, frame) = sends[place];
            found.add(self.is_on(node), node, &frame);
        }
        found
    }

    /// What a frame that was sent well calls for.
    fn due(&self, winner: u8, frame: Frame) -> Decision
        ensures due { IsDue self.now winner frame result }
        ensures held { IsOf self.now.profile result }
    {
        if winner == 0 {
            match own_of(&self.loaded) {
                Some(own) => Decision::Finish(own.object, frame),
                // Node 0 sends only what is loaded, so this doesn't happen.
                None => Decision::Idle,
            }
        } else if self.is_on(0) {
            Decision::Receipt(winner, frame)
        } else {
            Decision::Passed(winner, frame)
        }
    }

    /// Lets a winner's frame end: with a fault, without an acknowledgement, or well.
    fn conclude(&mut self, line: &RoundLine, winner: u8, frame: Frame) -> Decision
        requires within { winner < 9 }
        requires won { IsWonBy (contenders (is_on_now self.old) self.old.loaded line.now.send.items)
            winner frame }
        ensures same { IsSameBus self.old self.new }
        ensures held { IsOf self.old.profile result }
        ensures goes_on { GoesOn self.old self.new
            (λ past after. DecidesBetween line.now past after result) }
    {
        let senders = only(winner);
        if let Some(code) = line.fault().code() {
            let (sending, listening) = (BusEvent::SendFault, BusEvent::ReceiveFault);
            self.happen(&senders, sending, listening, StatusEvent::Fault(code));
            return Decision::Fault(winner, frame);
        }
        if self.another_is_on(winner) {
            let due = self.due(winner, frame);
            let event = transfer_of(winner);
            self.happen(&senders, BusEvent::Sent, BusEvent::Received, event);
            due
        } else {
            let unheard = BusEvent::SendNoAck;
            self.happen(&senders, unheard, unheard, StatusEvent::Fault(3));
            Decision::NoAck(winner, frame)
        }
    }

    /// Lets the frames contend.
    fn contend(&mut self, line: &RoundLine) -> Decision
        ensures same { IsSameBus self.old self.new }
        ensures held { IsOf self.old.profile result }
        ensures goes_on { GoesOn self.old self.new
            (λ past after. DecidesBetween line.now past after result) }
    {
        let contenders = self.contenders(line);
        if contenders.is_empty() {
            return Decision::Idle;
        }
        match arbitrate(contenders.frames()) {
            Outcome::Collision => {
                let senders = contenders.colliding();
                let code = collision_code(senders[0]);
                let (sending, listening) = (BusEvent::SendFault, BusEvent::ReceiveFault);
                self.happen(&senders, sending, listening, StatusEvent::Fault(code));
                Decision::Collision
            }
            Outcome::Winner(place) => {
                let (winner, frame) = contenders.at(place);
                self.conclude(line, winner, frame)
            }
        }
    }

    /// What a round comes to before any memory step, once its load is made: the frames of all nodes that are on contend,
    /// or, in loop back mode, the controller sends to itself. The nodes have their events, the Status register its own, and
    /// nothing is loaded any more unless the round is idle.
    pub fn decide(&mut self, line: &RoundLine) -> Decision
        ensures same { IsSameBus self.old self.new }
        ensures held { IsOf self.old.profile result }
        ensures goes_on { GoesOn self.old self.new
            (λ past after. Decides (hears_itself past) line.now past after result) }
    {
        let loops = self.loops_back && self.is_on(0);
        if loops {
            self.decide_back()
        } else {
            self.contend(line)
        }
    }
}
