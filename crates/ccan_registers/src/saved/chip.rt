use crate::interface_set::InterfaceSet;
use ccan_chip::Map;
use ccan_confine::Controller;
use ccan_object::{MOST_OBJECTS, Profile, Record};
use ccan_ram::Tries;

/// A chip at rest: all that its registers and its message RAM hold, and what its host and its bus were opened with.
#[derive(Clone, Copy, Debug)]
pub struct Saved {
    /// How many objects it has.
    pub profile: Profile,
    /// How its registers lie for its driver.
    pub map: Map,
    /// How often a call may try a change, 1 to 1,000.
    pub tries: Tries,
    /// How many other nodes are on its bus, 0 to 8.
    pub others: u8,
    /// The registers of IF1.
    pub if1: InterfaceSet,
    /// The registers of IF2.
    pub if2: InterfaceSet,
    /// The controller's registers, with the error counters and the status interrupts that are pending.
    pub controller: Controller,
    /// The records of the objects, object k at index k - 1, and zero records past the last one that the chip has.
    pub records: [Record; MOST_OBJECTS],
}
