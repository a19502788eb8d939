ghost use Rattle.std.specs.Prelude.{◌≡◌, ◌<◌, ◌↔◌, Err, IfOk, IfErr, vec_capacity};
ghost use Rattle.ccan_ram.specs.SharedRam.{opened};
ghost use Rattle.ccan_line.specs.Script.{fields_of};
ghost use Rattle.ccan_line.specs.Gate.{WasAsked};
ghost use Rattle.ccan_run.specs.Threads.{AllRan, AreOpened, HasRoom, HasRun, HaveRoom, HaveRun};
ghost use Rattle.ccan_run.specs.Threads.{HaveAsked, IsFirstHeld, RunsAtOnce, StopsThreads, WereLet};

use crate::outcome::Outcome;
use crate::port_run::{PortRun, run_opened};
use crate::run_error::RunError;
use ccan_line::{Gate, LineAnswer, PerPort, Script};
use ccan_ram::{PortName, SharedRam};
use std::alloc::{AllocError, Global};
use std::sync::Wait;
use std::thread;
use std::thread::{Promise, PromisedHandle, Scope, Threads};

/// What the thread of a port promises to come back with.
#[derive(Drop)]
struct RunOf<'a, R: SharedRam, G: Gate> {
    ram: &'a R,
    name: PortName,
    script: &'a Script,
    gate: &'a G,
}

impl<'a, R: SharedRam, G: Gate> Promise<PortRun<R::Port>> for RunOf<'a, R, G> {
    ghost kept_by = { λ promise run. HasRun R.contends
        (R.memory promise.ram.now) (fields_of promise.script.now) promise.name
        run.stopped run.log.items (R.pass run.port)
        × WasAsked G.enters promise.name promise.gate.now run.log.items run.stopped };
}

/// Room for the answers of each port.
fn logs_for(alloc: Global, script: &Script) -> Result<PerPort<Vec<LineAnswer>>, AllocError>
    ensures { IfOk result (HaveRoom (fields_of script.now)) }
{
    Ok(PerPort {
        if1: Vec::with_capacity(alloc, script.if1.len())?,
        if2: Vec::with_capacity(alloc, script.if2.len())?,
        bus: Vec::with_capacity(alloc, script.bus.len())?,
    })
}

/// Starts the thread of a port.
fn start<'s, E: 's, R: SharedRam + Sync, G: Gate + Copy + Sync>(
    scope: &Scope<'s, E>,
    run: RunOf<'s, R, G>,
    port: R::Port,
    log: Vec<LineAnswer>,
) -> Result<PromisedHandle<PortRun<R::Port>, RunOf<'s, R, G>>, RunError>
    requires opened { R.pass port ≡ opened (R.memory run.ram.now) run.name }
    requires profile { (R.memory run.ram.now).profile ≡ run.script.now.profile }
    requires room { HasRoom (fields_of run.script.now) run.name log.items (vec_capacity log) }
    ensures ok { IfOk result (λ handle. handle.promise ≡ run.entry) }
    ensures err { IfErr result (λ why. why ≡ RunError.Spawn) }
{
    let RunOf {
        ram,
        name,
        script,
        gate,
    } = run;
    let started = scope.spawn_with(
        RunOf {
            ram,
            name,
            script,
            gate,
        },
        move ||
            requires opened { R.pass port ≡ opened (R.memory ram.now) name }
            requires profile { (R.memory ram.now).profile ≡ script.now.profile }
            requires room { HasRoom (fields_of script.now) name log.items (vec_capacity log) }
        { run_opened(ram, port, name, script, gate, log) },
    );
    match started {
        Ok(handle) => Ok(handle),
        Err(_) => Err(RunError::Spawn),
    }
}

/// Starts a thread of the scope for each port, and joins the three. If one could not be started, those before it are
/// joined all the same, which gives back what they answered.
fn join_all<'s, E: 's, R: SharedRam + Sync, G: Gate + Copy + Sync, T: Threads>(
    scope: &Scope<'s, E>,
    rt: &T,
    ram: &'s R,
    ports: PerPort<R::Port>,
    script: &'s Script,
    gate: &'s G,
    logs: PerPort<Vec<LineAnswer>>,
) -> Result<PerPort<PortRun<R::Port>>, RunError>
    requires opened { AreOpened R.pass (R.memory ram.now) ports }
    requires profile { (R.memory ram.now).profile ≡ script.now.profile }
    requires room { HaveRoom (fields_of script.now) logs }
    ensures ok { IfOk result
        (HaveRun R.pass R.contends (R.memory ram.now) (fields_of script.now)) }
    ensures asked { IfOk result (HaveAsked G.enters gate.now) }
    ensures err { IfErr result (λ why. why ≡ RunError.Spawn) }
{
    let run_of = |name: PortName| RunOf {
        ram,
        name,
        script,
        gate,
    };
    let if1 = start(scope, run_of(PortName::If1), ports.if1, logs.if1)?;
    let if2 = start(scope, run_of(PortName::If2), ports.if2, logs.if2);
    let bus = match &if2 {
        Ok(_) => start(scope, run_of(PortName::Bus), ports.bus, logs.bus),
        Err(_) => Err(RunError::Spawn),
    };
    let if1 = if1.join(rt);
    let if2 = if2?.join(rt);
    let bus = bus?.join(rt);
    Ok(PerPort { if1, if2, bus })
}

/// Runs the lines of each port in a thread of its own. Each thread that was started has ended when this returns.
fn run_at_once<R: SharedRam + Sync, G: Gate + Copy + Sync, T: Threads + Wait + Sync>(
    rt: &T,
    ram: &R,
    ports: PerPort<R::Port>,
    script: &Script,
    gate: &G,
    logs: PerPort<Vec<LineAnswer>>,
) -> Result<PerPort<PortRun<R::Port>>, RunError>
    requires opened { AreOpened R.pass (R.memory ram.now) ports }
    requires profile { (R.memory ram.now).profile ≡ script.now.profile }
    requires room { HaveRoom (fields_of script.now) logs }
    ensures ok { IfOk result
        (HaveRun R.pass R.contends (R.memory ram.now) (fields_of script.now)) }
    ensures asked { IfOk result (HaveAsked G.enters gate.now) }
    ensures err { IfErr result (λ why. why ≡ RunError.Spawn) }
{
    thread::scope(
        thread::scope_env(),
        rt,
        move |scope|
            requires opened { AreOpened R.pass (R.memory ram.now) ports }
            requires profile { (R.memory ram.now).profile ≡ script.now.profile }
            requires room { HaveRoom (fields_of script.now) logs }
        { join_all(scope, rt, ram, ports, script, gate, logs) },
    )
}

/// All three, if each ran all its lines. Otherwise the first one, in the order IF1, IF2, bus, that its gate held.
fn unless_held<P: Drop>(runs: PerPort<PortRun<P>>) -> Result<PerPort<PortRun<P>>, RunError>
    ensures ok { IfOk result (λ all. (all ≡ runs) × AllRan all) }
    ensures err { IfErr result (IsFirstHeld runs) }
{
    let (port, line) = match (runs.if1.stopped, runs.if2.stopped, runs.bus.stopped) {
        (None, None, None) => return Ok(runs),
        (Some(line), _, _) => (PortName::If1, line),
        (None, Some(line), _) => (PortName::If2, line),
        (None, None, Some(line)) => (PortName::Bus, line),
    };
    Err(RunError::Held { port, line })
}

/// Runs the lines of each port in a thread of its own, all over one memory, whatever the script's order says. Each port asks
/// a gate of its own, a copy of this one, once before each of its lines, and for nothing else.
///
/// A quota that is more than the memory numbers is found before anything is asked for, and all memory is taken before a
/// thread starts. In every case each thread that was started has ended when this returns. A thread that could not be started
/// is reported rather than a port that its gate held, and of these the first in the order IF1, IF2, bus is.
pub fn run_threads<R: SharedRam + Sync + Drop, G: Gate + Copy + Sync, T: Threads + Wait + Sync>(
    rt: &T,
    alloc: Global,
    script: &Script,
    gate: &G,
) -> Result<Outcome, RunError>
    ensures ok { IfOk result (RunsAtOnce R.contends (fields_of script.now)) }
    ensures asked { IfOk result (λ outcome. WereLet G.enters gate.now
        outcome.if1.items outcome.if2.items outcome.bus.items) }
    ensures quota { (result ≡ Err RunError.Quota) ↔ (R.MAX_QUOTA < script.now.quota) }
    ensures err { IfErr result
        (StopsThreads R.contends G.enters gate.now (fields_of script.now)) }
{
    if R::MAX_QUOTA < script.quota {
        return Err(RunError::Quota);
    }
    let logs = logs_for(alloc, script)?;
    let (ram, if1, if2, bus) = R::open_ram(alloc, script.profile, script.quota)?;
    let runs = run_at_once(rt, &ram, PerPort { if1, if2, bus }, script, gate, logs)?;
    let PerPort { if1, if2, bus } = unless_held(runs)?;
    Ok(Outcome {
        if1: if1.log,
        if2: if2.log,
        bus: bus.log,
        last: ram.close(if1.port, if2.port, bus.port),
    })
}
