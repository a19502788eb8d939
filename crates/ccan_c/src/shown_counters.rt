ghost use Rattle.std.specs.Prelude.{◌≡◌};
ghost use Rattle.ccan_c.specs.Answer.{c_counters, state_number};

use ccan_confine::{Counters, NodeState};

/// The error counters of a node.
#[repr(C)]
#[derive(Clone, Copy, PartialEq, Eq, Debug)]
pub struct ShownCounters {
    /// The transmit error counter.
    pub tec: u32,
    /// The receive error counter.
    pub rec: u32,
    /// 0 active, 1 passive, 2 off.
    pub state: u32,
}

/// The number of a state.
pub fn state_number(state: NodeState) -> u32
    ensures { result ≡ state_number state }
{
    match state {
        NodeState::Active => 0,
        NodeState::Passive => 1,
        NodeState::Off => 2,
    }
}

impl ShownCounters {
    /// The counters of a node as C sees them.
    pub(crate) fn of(counters: &Counters) -> ShownCounters
        ensures { result ≡ c_counters counters.now.levels }
    {
        ShownCounters {
            tec: u32::from(counters.tec()),
            rec: u32::from(counters.rec()),
            state: state_number(counters.state()),
        }
    }
}
