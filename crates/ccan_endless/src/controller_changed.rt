use ccan_confine::Controller;

/// What a change of the controller found and left.
#[derive(Clone, Copy, PartialEq, Eq, Debug)]
pub struct ControllerChanged {
    /// The controller that the change found.
    pub before: Controller,
    /// The controller that it left.
    pub after: Controller,
}

/// Each of so many tries of a change of the controller was lost to a change of another port.
#[derive(Clone, Copy, PartialEq, Eq, Debug)]
pub struct ControllerBusy {
    /// How often it was tried.
    pub tries: u16,
    /// The controller that the last try found.
    pub controller: Controller,
}
