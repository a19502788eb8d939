//! A bus with part of it as it opens.

ghost use Rattle.std.specs.Prelude.{◌≡◌, []};
ghost use Rattle.std.specs.List.{list_all};
ghost use Rattle.ccan_bus.specs.Renewed.{are_low, is_low, with_new_counters, with_new_status};

use crate::bus::Bus;
use crate::nodes::new_nodes;
use ccan_confine::{Counters, Status};

/// This many rounds add too little to the node's transmit error counter to bring it to bus off.
fn is_low(counters: &Counters, rounds: u64) -> bool
    ensures { result ≡ is_low rounds counters.now }
{
    rounds < 32 && u32::from(counters.tec()) + 8 * (rounds as u32) < 256
}

impl Bus {
    ghost use Rattle.ccan_bus.specs.Bus.{IsSameBus, LedTo};
    ghost use Rattle.ccan_bus.specs.Past.{BusPast};

    /// The bus with the Status register as it opens: nothing happened yet, SIE and EIE are 0, and no interrupt is pending.
    #[must_use]
    pub fn with_new_status(&self) -> Bus
        ensures value { result ≡ with_new_status self.now }
        ensures led { (past : BusPast) → LedTo past self.now
            → LedTo (record past { steps = [] }) result }
    {
        let mut bus = *self;
        bus.status = Status::new();
        bus
    }

    /// The bus with the error counters of all nodes as they open: 0, and the node on.
    #[must_use]
    pub fn with_new_counters(&self) -> Bus
        ensures value { result ≡ with_new_counters self.now }
        ensures led { (past : BusPast) → LedTo past self.now
            → LedTo (record past { events = λ node. [] }) result }
    {
        let mut bus = *self;
        bus.nodes = new_nodes();
        bus
    }

    /// Whether no node can go off in this many rounds, whatever happens in them. A round adds at most 8 to a transmit error
    /// counter (CAN Specification 2.0, "Fault Confinement", rule 3).
    pub fn are_low(&self, rounds: u64) -> bool
        ensures { result ≡ are_low rounds self.now }
    {
        self.nodes.iter().all(|counters| is_low(counters, rounds))
    }
}
