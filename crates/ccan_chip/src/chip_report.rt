use crate::own_event::OwnEvent;
use ccan_bus::RoundReport;
use ccan_confine::Controller;
use ccan_endless::{ControllerBusy, ControllerChanged};

/// What came of a round of a chip.
#[derive(Clone, Copy, PartialEq, Eq, Debug)]
pub struct ChipReport {
    /// The controller that the round's look found. If its Init is 1 or it is bus off, it takes no part.
    pub found: Controller,
    /// What came of the round, step by step.
    pub report: RoundReport,
    /// What the round was to the controller's error counters and to its Status register. None: nothing, or the controller
    /// takes no part.
    pub own: Option<OwnEvent>,
    /// How that was made at the controller. None: there was nothing to make. `Err`: each try was lost to a change that
    /// another port made there, so the event is still to be made, as a change `Frame` of these two.
    pub noted: Option<Result<ControllerChanged, ControllerBusy>>,
}
