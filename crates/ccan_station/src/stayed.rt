use ccan_confine::Controller;
use ccan_wire::Member;

/// What a chip is found to be while a frame is under way.
#[derive(Clone, Copy, PartialEq, Eq, Debug)]
pub struct Stayed {
    /// The controller that its look found.
    pub found: Controller,
    /// What it is to the bus from there: the member that it was at the start, or one that is absent.
    pub member: Member,
}
