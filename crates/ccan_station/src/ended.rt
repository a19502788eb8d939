use ccan_bus::RoundEnd;
use ccan_chip::OwnEvent;
use ccan_confine::Controller;
use ccan_endless::{ControllerBusy, ControllerChanged};

/// What a chip does at the end of a frame.
#[derive(Clone, Copy, PartialEq, Eq, Debug)]
pub struct Ended {
    /// The controller that its look found.
    pub found: Controller,
    /// What the frame is to its error counters and to its Status register. None: nothing, or the controller has left the bus.
    pub own: Option<OwnEvent>,
    /// What came of its memory steps. The answer is `Idle` if none is due, even after a fault.
    pub end: RoundEnd,
    /// How the event was made at its controller. None: there was none to make. `Err`: each try was lost to a change that
    /// another port made there, so the event is still to be made, as a change `Frame` of these two.
    pub noted: Option<Result<ControllerChanged, ControllerBusy>>,
}
