ghost use Rattle.std.specs.Prelude.{◌≡◌};
ghost use Rattle.ccan_bus.specs.Decision.{winner_of};

use ccan_accept::Frame;
use ccan_object::ObjectNo;

/// What a round has come to before any memory step: whose frame was on the bus, and which memory steps are due.
#[derive(Clone, Copy, PartialEq, Eq, Hash, Debug)]
pub enum Decision {
    /// No frame contended; in loop back mode, nothing is loaded.
    Idle,
    /// Two or more frames with the same bits of arbitration were sent.
    Collision,
    /// The line's fault spoiled this node's frame.
    Fault(u8, Frame),
    /// No other node is on, so nobody acknowledged this node's frame.
    NoAck(u8, Frame),
    /// The controller's frame, that of this object, was sent and acknowledged. The object's finish is due.
    Finish(ObjectNo, Frame),
    /// This other node's frame was sent, and the controller is on. The store of the frame is due.
    Receipt(u8, Frame),
    /// This other node's frame was sent, and the controller is off.
    Passed(u8, Frame),
    /// In loop back mode the controller sent this object's frame to itself. The finish is due, and then the store.
    LoopBack(ObjectNo, Frame),
}

impl Decision {
    /// The frame that won the bus, and its node; the controller is node 0. None: no frame contended, or some collided.
    pub fn winner(&self) -> Option<(u8, Frame)>
        ensures { result ≡ winner_of self.now }
    {
        match self {
            Decision::Idle => None,
            Decision::Collision => None,
            Decision::Fault(node, frame) => Some((*node, *frame)),
            Decision::NoAck(node, frame) => Some((*node, *frame)),
            Decision::Finish(_, frame) => Some((0, *frame)),
            Decision::Receipt(node, frame) => Some((*node, *frame)),
            Decision::Passed(node, frame) => Some((*node, *frame)),
            Decision::LoopBack(_, frame) => Some((0, *frame)),
        }
    }
}
