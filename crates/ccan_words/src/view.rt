//! What a seat knows. Histories and views exist only in the proofs; no value of these types is made.
use ccan_ram::{ByPort, Event};
use std::collections::LinkedList;

/// What a seat knows for a port that it holds.
pub struct PortView {
    /// All that the port has seen, the newest event first.
    pub seen: LinkedList<Event>,
    /// The first words of the port's next version, which is not published.
    pub note: LinkedList<u64>,
    /// How many changes a port of this memory may make.
    pub quota: u64,
}

/// What a seat knows for each port that it holds.
pub type View = ByPort<PortView>;
