//! What is on the bus, to each of its members.

ghost use Rattle.std.specs.Prelude.{◌≡◌, ◌≤◌, IfSome};
ghost use Rattle.ccan_confine.specs.StatusEvent.{HasFaultCode};
ghost use Rattle.ccan_wire.specs.Event.{event_alone, own_or, receive_fault, received_unheard, received_well, send_fault};
ghost use Rattle.ccan_wire.specs.Event.{sent_unheard, sent_well, unacknowledged};

use crate::flaw::Flaw;
use crate::member::{MOST_MEMBERS, Member};
use crate::role::Role;
use crate::winner::Part;
use crate::wire::Wire;
use ccan_accept::Frame;
use ccan_confine::{BusEvent, StatusEvent};

fn own_or(flaw: Option<Flaw>, seen: u8) -> u8
    requires least { 1 ≤ seen }
    requires most { seen ≤ 6 }
    ensures value { result ≡ own_or flaw seen }
    ensures least { 1 ≤ result }
    ensures most { result ≤ 6 }
{
    match flaw {
        None => seen,
        Some(flaw) => flaw.code(),
    }
}

fn send_fault(code: u8) -> Option<(BusEvent, StatusEvent)>
    requires least { 1 ≤ code }
    requires most { code ≤ 6 }
    ensures is { result ≡ send_fault code }
    ensures known { IfSome result (λ event. HasFaultCode event.1) }
{
    Some((BusEvent::SendFault, StatusEvent::Fault(code)))
}

fn receive_fault(code: u8) -> Option<(BusEvent, StatusEvent)>
    requires least { 1 ≤ code }
    requires most { code ≤ 6 }
    ensures is { result ≡ receive_fault code }
    ensures known { IfSome result (λ event. HasFaultCode event.1) }
{
    Some((BusEvent::ReceiveFault, StatusEvent::Fault(code)))
}

/// A frame that ends well for others, to one of its senders.
fn sent_well(flaw: Option<Flaw>) -> Option<(BusEvent, StatusEvent)>
    ensures is { result ≡ sent_well flaw }
    ensures known { IfSome result (λ event. HasFaultCode event.1) }
{
    match flaw {
        None => Some((BusEvent::Sent, StatusEvent::Sent)),
        Some(flaw) => send_fault(flaw.code()),
    }
}

/// A frame that ends well for others, to a listener.
fn received_well(flaw: Option<Flaw>) -> Option<(BusEvent, StatusEvent)>
    ensures is { result ≡ received_well flaw }
    ensures known { IfSome result (λ event. HasFaultCode event.1) }
{
    match flaw {
        None => Some((BusEvent::Received, StatusEvent::Received)),
        Some(flaw) => receive_fault(flaw.code()),
    }
}

/// An acknowledge error, to the error counters of a sender.
fn unacknowledged(flagged: bool, role: Role) -> BusEvent
    ensures { result ≡ unacknowledged flagged role }
{
    if flagged && !role.is_active() {
        BusEvent::SendFault
    } else {
        BusEvent::SendNoAck
    }
}

/// A frame that nobody acknowledged, to one of its senders.
fn sent_unheard(flagged: bool, role: Role, flaw: Option<Flaw>) -> Option<(BusEvent, StatusEvent)>
    ensures is { result ≡ sent_unheard flagged role flaw }
    ensures known { IfSome result (λ event. HasFaultCode event.1) }
{
    match flaw {
        None => Some((unacknowledged(flagged, role), StatusEvent::Fault(3))),
        Some(flaw) => send_fault(flaw.code()),
    }
}

/// A frame that nobody acknowledged, to a listener.
fn received_unheard(flagged: bool, flaw: Option<Flaw>) -> Option<(BusEvent, StatusEvent)>
    ensures is { result ≡ received_unheard flagged flaw }
    ensures known { IfSome result (λ event. HasFaultCode event.1) }
{
    if flagged {
        receive_fault(own_or(flaw, 2))
    } else {
        received_well(flaw)
    }
}

/// To a member in loop back mode: it sends its own frame to itself, acknowledged or not, and whatever else is on the bus.
fn event_alone(frame: Option<Frame>) -> Option<(BusEvent, StatusEvent)>
    ensures is { result ≡ event_alone frame }
    ensures known { IfSome result (λ event. HasFaultCode event.1) }
{
    match frame {
        None => None,
        Some(_) => Some((BusEvent::Sent, StatusEvent::Looped)),
    }
}

impl Wire {
    ghost use Rattle.std.specs.Prelude.{◌<◌};
    ghost use Rattle.ccan_wire.specs.Event.{event_in, event_of, listener_event, sender_event};

    /// To a member that sends.
    fn sender_event(&self, role: Role, flaw: Option<Flaw>) -> Option<(BusEvent, StatusEvent)>
        ensures is { result ≡ sender_event self.now role flaw }
        ensures known { IfSome result (λ event. HasFaultCode event.1) }
    {
        match self {
            Wire::Idle => None,
            Wire::Collided(_) => send_fault(4),
            Wire::Broken(_) => send_fault(own_or(flaw, 4)),
            Wire::Flagged(_) => send_fault(own_or(flaw, 2)),
            Wire::Unheard(_, flagged) => sent_unheard(*flagged, role, flaw),
            Wire::Carried(_) => sent_well(flaw),
        }
    }

    /// To one that hears it.
    fn listener_event(&self, flaw: Option<Flaw>) -> Option<(BusEvent, StatusEvent)>
        ensures is { result ≡ listener_event self.now flaw }
        ensures known { IfSome result (λ event. HasFaultCode event.1) }
    {
        match self {
            Wire::Idle => None,
            Wire::Collided(_) => receive_fault(1),
            Wire::Broken(_) => receive_fault(own_or(flaw, 1)),
            Wire::Flagged(_) => receive_fault(own_or(flaw, 2)),
            Wire::Unheard(_, flagged) => received_unheard(*flagged, flaw),
            Wire::Carried(_) => received_well(flaw),
        }
    }

    /// To one that takes part.
    fn event_in(&self, part: Part, member: &Member) -> Option<(BusEvent, StatusEvent)>
        ensures is { result ≡ event_in part self.now member.now }
        ensures known { IfSome result (λ event. HasFaultCode event.1) }
    {
        match part {
            Part::Sender => self.sender_event(member.role, member.flaw),
            Part::Dropped => send_fault(4),
            Part::Listener => self.listener_event(member.flaw),
        }
    }

    /// What is on the bus, to the member at this place: an event of its error counters, and one of its Status register. None:
    /// nothing happens to it.
    pub fn event(&self, place: usize, member: &Member) -> Option<(BusEvent, StatusEvent)>
        requires { place < MOST_MEMBERS }
        ensures is { result ≡ event_of self.now place member.now }
        ensures known { IfSome result (λ event. HasFaultCode event.1) }
    {
        match member.role {
            Role::Absent => None,
            Role::Silent => self.listener_event(member.flaw),
            Role::Alone | Role::Looped => event_alone(member.frame),
            Role::Passive | Role::Active => self.event_in(self.part(place), member),
        }
    }
}
