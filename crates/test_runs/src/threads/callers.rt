//! Three threads of a caller's own, each of which runs the lines of a port as far as a gate of its own lets it. What they
//! come to is what a run in threads of the lines that ran comes to.
ghost use Rattle.std.specs.Prelude.{◌≡◌, None, vec_capacity};
ghost use Rattle.ccan_ram.specs.SharedRam.{opened, IsMemoryOf};
ghost use Rattle.ccan_line.specs.Script.{fields_of};
ghost use Rattle.ccan_line.specs.Gate.{Asks};
ghost use Rattle.ccan_run.specs.Threads.{HasRoom, HasRun, RunsAtOnce, RunsUpTo};

use ccan_ram::{On, PortName, SharedRam};
use ccan_run::{FreeGate, Gate, Outcome, run_port};
use ccan_script::{LineAnswer, Script};
use std::thread::{Threads, join};

/// What a thread comes back with.
#[derive(Drop)]
pub struct Ran<P: Drop, G: Drop> {
    /// The index of the line before which the gate held the port.
    pub stopped: Option<usize>,
    /// The answers to the lines that ran.
    pub log: Vec<LineAnswer>,
    /// The port, with all that it has seen.
    pub port: P,
    /// The gate, after all that it was asked.
    pub gate: G,
}

/// What three threads come to, and where each was held.
#[derive(Drop)]
pub struct CutShort<G: Drop> {
    /// The answers of each port, and the objects that the lines which ran left.
    pub outcome: Outcome,
    /// Where IF1 was held, and its gate.
    pub if1: (Option<usize>, G),
    /// Where IF2 was held, and its gate.
    pub if2: (Option<usize>, G),
    /// Where the bus was held, and its gate.
    pub bus: (Option<usize>, G),
}

/// Runs the lines of a port that was just opened as far as the gate lets it, and gives the port and the gate back.
fn run_lines_of<R: SharedRam, G: Gate + Drop>(
    ram: &R,
    port: R::Port,
    name: PortName,
    script: &Script,
    gate: G,
    log: Vec<LineAnswer>,
) -> Ran<R::Port, G>
    requires opened { R.pass port ≡ opened (R.memory ram.now) name }
    requires profile { (R.memory ram.now).profile ≡ script.now.profile }
    requires room { HasRoom (fields_of script.now) name log.items (vec_capacity log) }
    ensures ran { HasRun R.contends (R.memory ram.now) (fields_of script.now) name
        result.stopped result.log.items (R.pass result.port) }
    ensures asked { Asks G.enters name result.log.items result.stopped gate result.gate }
{
    let mut log = log;
    let mut gate = gate;
    let mut access = On::new(ram, port);
    let stopped = run_port(&mut access, name, script, &mut gate, &mut log);
    Ran {
        stopped,
        log,
        port: access.into_port(),
        gate,
    }
}

/// Runs the lines of each port in a thread of its own, as far as the port's gate lets it, with room for the answers that the
/// caller made, and closes the memory.
///
/// The outcome is that of a run at once of the lines that ran, whether a gate held a port or not; and each gate was asked
/// once before each of them, and before the line at which it held its port.
pub fn run_gated_by_callers<R: SharedRam + Sync, G: Gate + Send + Drop, T: Threads + Sync>(
    rt: &T,
    all: (R, R::Port, R::Port, R::Port),
    script: &Script,
    gates: (G, G, G),
    logs: (Vec<LineAnswer>, Vec<LineAnswer>, Vec<LineAnswer>),
) -> CutShort<G>
    requires memory { IsMemoryOf script.now.profile script.now.quota (R.memory all.0) }
    requires if1 { R.pass all.1 ≡ opened (R.memory all.0) PortName.If1 }
    requires if2 { R.pass all.2 ≡ opened (R.memory all.0) PortName.If2 }
    requires bus { R.pass all.3 ≡ opened (R.memory all.0) PortName.Bus }
    requires if1_room { HasRoom (fields_of script.now) PortName.If1
        logs.0.items (vec_capacity logs.0) }
    requires if2_room { HasRoom (fields_of script.now) PortName.If2
        logs.1.items (vec_capacity logs.1) }
    requires bus_room { HasRoom (fields_of script.now) PortName.Bus
        logs.2.items (vec_capacity logs.2) }
    ensures up_to { RunsUpTo R.contends (fields_of script.now)
        result.if1.0 result.if2.0 result.bus.0 result.outcome }
    ensures if1 { Asks G.enters PortName.If1 result.outcome.if1.items
        result.if1.0 gates.0 result.if1.1 }
    ensures if2 { Asks G.enters PortName.If2 result.outcome.if2.items
        result.if2.0 gates.1 result.if2.1 }
    ensures bus { Asks G.enters PortName.Bus result.outcome.bus.items
        result.bus.0 gates.2 result.bus.1 }
{
    let (ram, if1, if2, bus) = all;
    let (if1_gate, if2_gate, bus_gate) = gates;
    let (if1_log, if2_log, bus_log) = logs;
    let shared = &ram;
    let (first, (second, third)) = join(
        rt,
        move || -> Ran<R::Port, G>
            requires opened { R.pass if1 ≡ opened (R.memory shared.now) PortName.If1 }
            requires profile { (R.memory shared.now).profile ≡ script.now.profile }
            requires room { HasRoom (fields_of script.now) PortName.If1 if1_log.items
                (vec_capacity if1_log) }
            ensures ran { HasRun R.contends (R.memory shared.entry.now) (fields_of script.entry.now)
                PortName.If1 result.stopped result.log.items (R.pass result.port) }
            ensures asked { Asks G.enters PortName.If1 result.log.items result.stopped
                if1_gate result.gate }
        { run_lines_of(shared, if1, PortName::If1, script, if1_gate, if1_log) },
        move || -> (Ran<R::Port, G>, Ran<R::Port, G>)
            requires if2 { R.pass if2 ≡ opened (R.memory shared.now) PortName.If2 }
            requires bus { R.pass bus ≡ opened (R.memory shared.now) PortName.Bus }
            requires profile { (R.memory shared.now).profile ≡ script.now.profile }
            requires if2_room { HasRoom (fields_of script.now) PortName.If2 if2_log.items
                (vec_capacity if2_log) }
            requires bus_room { HasRoom (fields_of script.now) PortName.Bus bus_log.items
                (vec_capacity bus_log) }
            ensures if2 { HasRun R.contends (R.memory shared.entry.now) (fields_of script.entry.now)
                PortName.If2 result.0.stopped result.0.log.items (R.pass result.0.port) }
            ensures bus { HasRun R.contends (R.memory shared.entry.now) (fields_of script.entry.now)
                PortName.Bus result.1.stopped result.1.log.items (R.pass result.1.port) }
            ensures if2_asked { Asks G.enters PortName.If2 result.0.log.items result.0.stopped
                if2_gate result.0.gate }
            ensures bus_asked { Asks G.enters PortName.Bus result.1.log.items result.1.stopped
                bus_gate result.1.gate }
        {
            join(
                rt,
                move || -> Ran<R::Port, G>
                    requires opened { R.pass if2 ≡ opened (R.memory shared.now) PortName.If2 }
                    requires profile { (R.memory shared.now).profile ≡ script.now.profile }
                    requires room { HasRoom (fields_of script.now) PortName.If2 if2_log.items
                        (vec_capacity if2_log) }
                    ensures ran { HasRun R.contends (R.memory shared.entry.now)
                        (fields_of script.entry.now)
                        PortName.If2 result.stopped result.log.items (R.pass result.port) }
                    ensures asked { Asks G.enters PortName.If2 result.log.items result.stopped
                        if2_gate result.gate }
                { run_lines_of(shared, if2, PortName::If2, script, if2_gate, if2_log) },
                move || -> Ran<R::Port, G>
                    requires opened { R.pass bus ≡ opened (R.memory shared.now) PortName.Bus }
                    requires profile { (R.memory shared.now).profile ≡ script.now.profile }
                    requires room { HasRoom (fields_of script.now) PortName.Bus bus_log.items
                        (vec_capacity bus_log) }
                    ensures ran { HasRun R.contends (R.memory shared.entry.now)
                        (fields_of script.entry.now)
                        PortName.Bus result.stopped result.log.items (R.pass result.port) }
                    ensures asked { Asks G.enters PortName.Bus result.log.items result.stopped
                        bus_gate result.gate }
                { run_lines_of(shared, bus, PortName::Bus, script, bus_gate, bus_log) },
            )
        },
    );
    CutShort {
        outcome: Outcome {
            if1: first.log,
            if2: second.log,
            bus: third.log,
            last: ram.close(first.port, second.port, third.port),
        },
        if1: (first.stopped, first.gate),
        if2: (second.stopped, second.gate),
        bus: (third.stopped, third.gate),
    }
}

/// Runs all lines of each port in a thread of its own, with room for the answers that the caller made, and closes the memory.
pub fn run_by_callers<R: SharedRam + Sync, T: Threads + Sync>(
    rt: &T,
    all: (R, R::Port, R::Port, R::Port),
    script: &Script,
    logs: (Vec<LineAnswer>, Vec<LineAnswer>, Vec<LineAnswer>),
) -> Outcome
    requires memory { IsMemoryOf script.now.profile script.now.quota (R.memory all.0) }
    requires if1 { R.pass all.1 ≡ opened (R.memory all.0) PortName.If1 }
    requires if2 { R.pass all.2 ≡ opened (R.memory all.0) PortName.If2 }
    requires bus { R.pass all.3 ≡ opened (R.memory all.0) PortName.Bus }
    requires if1_room { HasRoom (fields_of script.now) PortName.If1
        logs.0.items (vec_capacity logs.0) }
    requires if2_room { HasRoom (fields_of script.now) PortName.If2
        logs.1.items (vec_capacity logs.1) }
    requires bus_room { HasRoom (fields_of script.now) PortName.Bus
        logs.2.items (vec_capacity logs.2) }
    ensures { RunsAtOnce R.contends (fields_of script.now) result }
{
    let gates = (FreeGate, FreeGate, FreeGate);
    run_gated_by_callers(rt, all, script, gates, logs).outcome
}
