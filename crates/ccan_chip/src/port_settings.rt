use crate::map::Map;
use ccan_ram::Tries;

/// How the calls on a port of a chip work.
#[derive(Clone, Copy, PartialEq, Eq, Debug)]
pub struct PortSettings {
    /// How the registers lie for accesses by offsets.
    pub map: Map,
    /// How often a call may try a change.
    pub tries: Tries,
}
