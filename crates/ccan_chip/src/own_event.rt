ghost use Rattle.std.specs.Prelude.{◌≡◌, ◌≤◌, IfSome};
ghost use Rattle.ccan_confine.specs.StatusEvent.{HasFaultCode};
ghost use Rattle.ccan_chip.specs.Round.{fault_of, faulted, own_in, own_of};

use ccan_bus::Decision;
use ccan_confine::{BusEvent, StatusEvent};

/// What happens to the error counters and to the Status register.
pub type OwnEvent = (BusEvent, StatusEvent);

/// The event of a fault, for a node that sends or for one that listens.
fn fault_of(sends: bool) -> BusEvent
    ensures { result ≡ fault_of sends }
{
    if sends {
        BusEvent::SendFault
    } else {
        BusEvent::ReceiveFault
    }
}

/// A fault with its last error code. None: the code is 0, so there was none.
fn faulted(sends: bool, last_error: u8) -> Option<OwnEvent>
    requires { last_error ≤ 6 }
    ensures is { result ≡ faulted sends last_error }
    ensures known { IfSome result (λ own. HasFaultCode own.1) }
{
    if last_error == 0 {
        None
    } else {
        Some((fault_of(sends), StatusEvent::Fault(last_error)))
    }
}

/// What a decision is to the registers of a controller that takes part, if it leaves this last error code.
fn own_of(decision: &Decision, last_error: u8) -> Option<OwnEvent>
    requires { last_error ≤ 6 }
    ensures is { result ≡ own_of decision.now last_error }
    ensures known { IfSome result (λ own. HasFaultCode own.1) }
{
    match decision {
        Decision::Idle => None,
        // In a collision only those who sent saw another bit than their own.
        Decision::Collision => faulted(last_error == 4, last_error),
        Decision::Fault(winner, _) => faulted(*winner == 0, last_error),
        Decision::NoAck(_, _) => Some((BusEvent::SendNoAck, StatusEvent::Fault(3))),
        Decision::Finish(_, _) => Some((BusEvent::Sent, StatusEvent::Sent)),
        Decision::Receipt(_, _) => Some((BusEvent::Received, StatusEvent::Received)),
        Decision::Passed(_, _) => None,
        Decision::LoopBack(_, _) => Some((BusEvent::Sent, StatusEvent::Looped)),
    }
}

/// What a round is to the registers of a controller, by what was decided, if anything was.
pub fn own_in(takes_part: bool, decision: &Option<Decision>, last_error: u8) -> Option<OwnEvent>
    requires { last_error ≤ 6 }
    ensures is { result ≡ own_in takes_part decision.now last_error }
    ensures known { IfSome result (λ own. HasFaultCode own.1) }
{
    match decision {
        None => None,
        Some(decided) => {
            if takes_part {
                own_of(decided, last_error)
            } else {
                None
            }
        }
    }
}
