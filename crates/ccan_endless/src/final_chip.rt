use ccan_confine::Controller;
use ccan_ram::Final;

/// What a chip holds at its end.
#[derive(Clone, Copy, PartialEq, Eq, Debug)]
pub struct FinalChip {
    /// The message RAM.
    pub memory: Final,
    /// The controller's registers.
    pub controller: Controller,
}
