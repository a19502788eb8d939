use std::fmt;

/// How far a node takes part in the traffic (CAN Specification 2.0, "Fault Confinement"), in the order from full part
/// to none. It prints as `active`, `passive` or `off`.
#[derive(Clone, Copy, Debug, Default, PartialEq, Eq, PartialOrd, Ord, Hash)]
pub enum NodeState {
    /// Error active: both counters are below 128. A node opens in this state.
    #[default]
    Active,
    /// Error passive: a counter is at least 128, and the node is not bus off.
    Passive,
    /// Bus off: the transmit error counter is at least 256.
    Off,
}

impl fmt::Display for NodeState {
    ghost use Rattle.std.specs.Prelude.{Some};
    ghost use Rattle.ccan_confine.specs.NodeState.{state_text};

    ghost output = { λ state. Some (state_text state) };

    fn fmt<W: fmt::Write>(&self, f: &mut fmt::Formatter<W>) -> fmt::Result {
        f.write_str(match self {
            NodeState::Active => "active",
            NodeState::Passive => "passive",
            NodeState::Off => "off",
        })
    }
}
