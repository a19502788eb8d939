//! A port that runs its lines in a thread of its own.
ghost use Rattle.std.specs.Prelude.{◌≡◌, vec_capacity};
ghost use Rattle.ccan_ram.specs.SharedRam.{opened};
ghost use Rattle.ccan_line.specs.Script.{fields_of};
ghost use Rattle.ccan_line.specs.Gate.{WasAsked};
ghost use Rattle.ccan_run.specs.Threads.{HasRoom, HasRun};

use ccan_line::{Gate, LineAnswer, Script, run_port};
use ccan_ram::{On, PortName, SharedRam};
use std::snapshot::Snapshot;
use std::thread::Promise;

/// What the thread of a port comes back with.
#[derive(Drop)]
pub(crate) struct PortRun<P: Drop> {
    /// The index of the line before which the gate stopped the port.
    pub(crate) stopped: Option<usize>,
    /// The answers to the lines that ran.
    pub(crate) log: Vec<LineAnswer>,
    /// The port, with all that it has seen.
    pub(crate) port: P,
}

/// Runs the lines of a port that was just opened, which asks a gate of its own, a copy of this one.
pub(crate) fn run_opened<R: SharedRam, G: Gate + Copy>(
    ram: &R,
    port: R::Port,
    name: PortName,
    script: &Script,
    gate: &G,
    log: Vec<LineAnswer>,
) -> PortRun<R::Port>
    requires opened { R.pass port ≡ opened (R.memory ram.now) name }
    requires profile { (R.memory ram.now).profile ≡ script.now.profile }
    requires room { HasRoom (fields_of script.now) name log.items (vec_capacity log) }
    ensures ran { HasRun R.contends (R.memory ram.now) (fields_of script.now)
        name result.stopped result.log.items (R.pass result.port) }
    ensures asked { WasAsked G.enters name gate.now result.log.items result.stopped }
{
    let mut log = log;
    let mut own_gate = *gate;
    let mut access = On::new(ram, port);
    let stopped = run_port(&mut access, name, script, &mut own_gate, &mut log);
    PortRun {
        stopped,
        log,
        port: access.into_port(),
    }
}
