use ccan_bus::LoadAnswer;
use ccan_confine::Controller;
use ccan_wire::Member;

/// What a chip does at the start of a frame.
#[derive(Clone, Copy, PartialEq, Eq, Debug)]
pub struct Begun {
    /// The controller that its last look found.
    pub found: Controller,
    /// What came of its load.
    pub loading: LoadAnswer,
    /// What it is to the bus: its role, and the frame that it has loaded.
    pub member: Member,
}
