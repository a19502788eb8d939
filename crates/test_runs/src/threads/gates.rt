//! Gates that make ports wait for one another, or stop them.
ghost use Rattle.std.specs.Prelude.{◌≡◌, ◌≤◌, ◌<◌, None, false, true, length};

use ccan_ram::PortName;
use ccan_run::Gate;
use ccan_script::LineAnswer;
use std::sync::atomic::{AtomicU64, Ordering};

/// How often a port looks whether the other has come, before it gives up.
const TURNS: u32 = 50_000_000;

/// Where ports meet: a word for each, which is raised once the port has come.
#[derive(Drop)]
pub struct Meeting {
    if1: AtomicU64,
    if2: AtomicU64,
    bus: AtomicU64,
}

impl Meeting {
    /// A place to which no port has come.
    pub fn new() -> Meeting {
        Meeting {
            if1: AtomicU64::new(0),
            if2: AtomicU64::new(0),
            bus: AtomicU64::new(0),
        }
    }
}

/// Waits until the word of a port was raised, in so many turns at most.
fn comes(other: &AtomicU64) -> bool {
    for _ in 0..TURNS {
        if other.fetch_add(0, Ordering::SeqCst) > 0 {
            return true;
        }
    }
    false
}

/// Raises the word of a port, and waits for that of another.
fn meet(own: &AtomicU64, other: &AtomicU64) -> bool {
    own.fetch_add(1, Ordering::SeqCst);
    comes(other)
}

/// Lets line 1 of each host pass once both hosts have come there. So no host gets past it that runs before the other has begun,
/// as on one thread.
#[derive(Clone, Copy)]
pub struct Together<'a> {
    /// Where the hosts meet.
    pub at: &'a Meeting,
}

impl<'a> Gate for Together<'a> {
    ghost enters = { λ _ _ answers answer _. answer ≡ false → length answers ≡ 1 };

    fn enter(&mut self, port: PortName, answers: &[LineAnswer]) -> bool {
        if answers.len() != 1 {
            return true;
        }
        match port {
            PortName::If1 => meet(&self.at.if1, &self.at.if2),
            PortName::If2 => meet(&self.at.if2, &self.at.if1),
            PortName::Bus => true,
        }
    }
}

/// Lets the first line of each port pass once all three have come there. So no port gets past it that runs before another has
/// begun.
#[derive(Clone, Copy)]
pub struct AllTogether<'a> {
    /// Where the ports meet.
    pub at: &'a Meeting,
}

impl<'a> Gate for AllTogether<'a> {
    ghost enters = { λ _ _ answers answer _. answer ≡ false → length answers ≡ 0 };

    fn enter(&mut self, port: PortName, answers: &[LineAnswer]) -> bool {
        if answers.len() != 0 {
            return true;
        }
        match port {
            PortName::If1 => meet(&self.at.if1, &self.at.if2) && comes(&self.at.bus),
            PortName::If2 => meet(&self.at.if2, &self.at.if1) && comes(&self.at.bus),
            PortName::Bus => meet(&self.at.bus, &self.at.if1) && comes(&self.at.if2),
        }
    }
}

/// Stops a port, or every port if none is named, from a line on. If none is named, no line from there on is let through.
#[derive(Clone, Copy)]
pub struct HeldFrom {
    /// The port that is stopped.
    pub port: Option<PortName>,
    /// The index of the first line that does not run.
    pub line: usize,
}

impl Gate for HeldFrom {
    ghost use Rattle.test_runs.specs.Gates.{HoldsFrom};

    ghost enters = { λ gate _ answers answer left. HoldsFrom gate.port gate.line answers answer
        × (left ≡ gate) };

    fn enter(&mut self, port: PortName, answers: &[LineAnswer]) -> bool {
        let stopped = match self.port {
            Some(name) => name == port,
            None => true,
        };
        !stopped || answers.len() < self.line
    }
}
