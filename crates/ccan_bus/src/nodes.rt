//! What a call makes of the error counters of all nodes at once.

ghost use Rattle.std.specs.Prelude.{ℕ, ◌≡◌, ◌<◌, ◌==◌, true, false, ◌∷◌, length, replicate, if◌then◌else◌};
ghost use Rattle.ccan_confine.specs.Counters.{is_off, new_counts};
ghost use Rattle.ccan_bus.specs.Nodes.{AreCounted, HaveGroups, sends_at, count_at};

use ccan_confine::{BusEvent, Counters, NodeState};

/// The counters of nodes to which nothing happened yet; node 0 is the controller.
pub(crate) fn new_nodes() -> [Counters; 9]
    ensures all { length result ≡ 9 }
    ensures each { (node : ℕ) → node < 9 → count_at result node ≡ new_counts (node == 0) }
    ensures value { result ≡ new_counts true ∷ replicate 8 (new_counts false) }
{
    let mut nodes = [Counters::new(false); 9];
    nodes[0] = Counters::new(true);
    nodes
}

/// Whether a node is bus off.
pub(crate) fn is_off(counters: Counters) -> bool
    ensures { result ≡ is_off counters.levels }
{
    matches!(counters.state(), NodeState::Off)
}

/// One sender.
pub(crate) fn only(winner: u8) -> [bool; 9]
    requires { winner < 9 }
    ensures { (node : ℕ) → node < 9 → sends_at result node ≡ (node == winner) }
{
    let mut senders = [false; 9];
    senders[usize::from(winner)] = true;
    senders
}

/// Who has which event: those who send, and the others.
fn event_of(sends: bool, sending: BusEvent, listening: BusEvent) -> BusEvent
    ensures { result ≡ (if sends then sending else listening) }
{
    if sends { sending } else { listening }
}

/// The counters after an event of those who send and one of the others.
pub(crate) fn counted(
    mut nodes: [Counters; 9],
    senders: &[bool; 9],
    sending: BusEvent,
    listening: BusEvent,
) -> [Counters; 9]
    ensures { AreCounted senders.now sending listening nodes result }
{
    for node in 0..9 {
        nodes[node] = nodes[node].after(event_of(senders[node], sending, listening));
    }
    nodes
}

/// The counters after this many groups of eleven recessive bits.
pub(crate) fn grouped(mut nodes: [Counters; 9], groups: u16) -> [Counters; 9]
    ensures { HaveGroups groups nodes result }
{
    for node in 0..9 {
        nodes[node] = nodes[node].recessive_groups(groups);
    }
    nodes
}
