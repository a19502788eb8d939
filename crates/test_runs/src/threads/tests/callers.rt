//! Three threads of a caller's own.
ghost use Rattle.std.specs.Prelude.{◌≡◌, ◌≤◌, [], vec_capacity};

use super::*;
use crate::streams::each_port;

/// Room for the answers to so many lines.
fn room(rt: &impl Abort, alloc: Global, lines: usize) -> Vec<LineAnswer>
    ensures empty { result.items ≡ [] }
    ensures room { lines ≤ vec_capacity result }
{
    let Ok(room) = Vec::with_capacity(alloc, lines) else {
        panic!(rt; "no memory")
    };
    room
}

/// Where each port was held, and what the lines that ran before came to, if a caller runs the ports in threads.
fn run_held<R: SharedRam + Sync, G: Gate + Copy + Send + Drop, T: Threads + Abort + Sync>(
    rt: &T,
    alloc: Global,
    script: &Script,
    gate: G,
) -> ([Option<usize>; 3], Outcome) {
    let Ok(all) = R::open_ram(alloc, script.profile, script.quota) else {
        panic!(rt; "no memory")
    };
    let logs = (
        room(rt, alloc, script.if1.len()),
        room(rt, alloc, script.if2.len()),
        room(rt, alloc, script.bus.len()),
    );
    let cut = run_gated_by_callers(rt, all, script, (gate, gate, gate), logs);
    ([cut.if1.0, cut.if2.0, cut.bus.0], cut.outcome)
}

/// Holds where the ports were held, and what is printed of the lines that ran, to this.
fn come_to<R: SharedRam + Sync, G: Gate + Copy + Send + Drop, T: Threads + Abort + Sync>(
    rt: &T,
    alloc: Global,
    (script, want): (&str, &str),
    gate: G,
    held: [Option<usize>; 3],
) {
    let script = read(rt, alloc, script);
    let (stopped, outcome) = run_held::<R, G, T>(rt, alloc, &script, gate);
    same(rt, stopped, held);
    prints(rt, alloc, &outcome, want);
}

/// What all lines of a script come to, if a caller runs the ports in threads without a gate.
fn run_whole<R: SharedRam + Sync, T: Threads + Abort + Sync>(
    rt: &T,
    alloc: Global,
    script: &Script,
) -> Outcome {
    let Ok(all) = R::open_ram(alloc, script.profile, script.quota) else {
        panic!(rt; "no memory")
    };
    let logs = (
        room(rt, alloc, script.if1.len()),
        room(rt, alloc, script.if2.len()),
        room(rt, alloc, script.bus.len()),
    );
    run_by_callers(rt, all, script, logs)
}

/// Holds what is printed of such a run to this.
fn come_to_all<R: SharedRam + Sync, T: Threads + Abort + Sync>(
    rt: &T,
    alloc: Global,
    (script, want): (&str, &str),
) {
    let script = read(rt, alloc, script);
    prints(rt, alloc, &run_whole::<R, T>(rt, alloc, &script), want);
}

/// A line more for IF1 and the bus than in the script whose text this comes to if each port is held from its second line on.
const MORE_LINES: &str = r#"{
    "if1":[{"op":"transfer","request":"0001","set":{"cmask":"0090","ctrl":"8000"}},
        {"op":"transfer","request":"0003","set":{"cmask":"0090","ctrl":"8000"}}],
    "if2":[{"op":"transfer","request":"0002","set":{"cmask":"0090","ctrl":"0100"}}],
    "bus":[{"op":"status"},{"op":"status"}]}"#;

#[test]
fn callers_come_to_the_lines_that_ran(rt: HostRuntime) {
    let all = each_port();
    come_to::<WordRam, FreeGate, HostRuntime>(&rt, rt.alloc(), all, FreeGate, [None; 3]);
    come_to_all::<RootRam, HostRuntime>(&rt, rt.alloc(), all);
    let gate = HeldFrom {
        port: None,
        line: 1,
    };
    let cut = (MORE_LINES, all.1);
    let held = [Some(1), None, Some(1)];
    come_to::<WordRam, HeldFrom, HostRuntime>(&rt, rt.alloc(), cut, gate, held);
}
