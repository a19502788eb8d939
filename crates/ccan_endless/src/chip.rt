//! The events of a whole chip. Histories exist in the proofs alone; no value of these types is made.
use ccan_confine::{Controller, ControllerChange};
use ccan_ram::{Event, PortName};

/// What a port does at the controller.
pub enum ControllerStep {
    /// A look at all its registers.
    Look,
    /// A change.
    Make(ControllerChange),
}

/// A step of a port at the controller.
pub struct ControllerEvent {
    /// Whose step it is.
    pub port: PortName,
    /// What it does.
    pub step: ControllerStep,
    /// The controller that it finds.
    pub before: Controller,
    /// The controller that it leaves.
    pub after: Controller,
}

/// An event of a chip.
pub enum ChipEvent {
    /// One of the message RAM.
    OfRam(Event),
    /// One of the controller.
    OfController(ControllerEvent),
}
