use ccan_object::{ObjectNo, Record};

/// What came of a load.
#[derive(Clone, Copy, PartialEq, Eq, Hash, Debug)]
pub enum LoadAnswer {
    /// The transmission of this object was started; the record is that after the start.
    Loaded(ObjectNo, Record),
    /// This object is already loaded.
    Held(ObjectNo),
    /// The controller is off, or no object is ready.
    Nothing,
    /// The start of this object lost each try to a change of another port. Nothing is loaded.
    Busy(ObjectNo),
    /// This object is ready, but the port has made as many changes as it may. Nothing is loaded.
    Spent(ObjectNo),
}

/// What came of a round. Records are those after the memory step.
#[derive(Clone, Copy, PartialEq, Eq, Hash, Debug)]
pub enum RoundAnswer {
    /// No frame contended.
    Idle,
    /// The controller's frame was sent and acknowledged, and its object finished.
    Sent(ObjectNo, Record),
    /// Another node's frame was sent; an object stored it, or none accepts it.
    Received(Option<(ObjectNo, Record)>),
    /// Another node's frame was sent, and the controller is off.
    Passed,
    /// Two or more frames with the same bits of arbitration were sent.
    Collision,
    /// No other node is on, so nobody acknowledged the frame.
    NoAck,
    /// The line's fault spoiled the frame.
    Fault,
    /// In loop back mode: the object sent, its record after the finish, and the object that stored the frame, if any.
    Looped(ObjectNo, Record, Option<(ObjectNo, Record)>),
    /// A memory step at this object lost each try to a change of another port, and is given up.
    Busy(ObjectNo),
    /// The port has made as many changes as it may, so a memory step at this object is given up.
    Spent(ObjectNo),
}
