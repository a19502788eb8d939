//! Scripts in threads. No text here comes from the program.
use super::*;
use crate::streams::each_port;

/// Each host sets NewDat in an object of its own, and waits for that of the other; and what it prints if both do.
const WAIT_FOR_EACH_OTHER: (&str, &str) = (
    r#"{"if1":[
    {"op":"transfer","request":"0001","set":{"cmask":"0090","ctrl":"8000"}},
    {"op":"until","object":2,"flag":"newdat","turns":1000}],
  "if2":[
    {"op":"transfer","request":"0002","set":{"cmask":"0090","ctrl":"8000"}},
    {"op":"until","object":1,"flag":"newdat","turns":1000}]}"#,
    "if1 write 01 00000000 00000000 8000 0000000000000000\nif1 until 02 newdat yes\n\
if2 write 02 00000000 00000000 8000 0000000000000000\nif2 until 01 newdat yes\n\
final 01 00000000 00000000 8000 0000000000000000\nfinal 02 00000000 00000000 8000 0000000000000000\n",
);

/// The same, but IF1 looks once.
const LOOK_ONCE: &str = r#"{"if1":[
    {"op":"transfer","request":"0001","set":{"cmask":"0090","ctrl":"8000"}},
    {"op":"until","object":2,"flag":"newdat","turns":1}],
  "if2":[
    {"op":"transfer","request":"0002","set":{"cmask":"0090","ctrl":"8000"}},
    {"op":"until","object":1,"flag":"newdat","turns":1000}]}"#;

/// Each host may make one change; IF1 asks for two.
const TWICE: (&str, &str) = (
    r#"{"quota":1,"if1":[
    {"op":"transfer","request":"0001","set":
    {"cmask":"00f3","arb2":"a48c","ctrl":"0088","dataa1":"2211","dataa2":"4433","datab1":"6655","datab2":"8877"}},
    {"op":"transfer","request":"0001","set":
    {"cmask":"00f3","arb2":"a48c","ctrl":"0088","dataa1":"2211","dataa2":"4433","datab1":"6655","datab2":"8877"}}],
  "if2":[{"op":"transfer","request":"0002","set":
    {"cmask":"00f3","arb2":"a48c","ctrl":"0088","dataa1":"2211","dataa2":"4433","datab1":"6655","datab2":"8877"}}]}"#,
    "if1 write 01 a48c0000 00000000 0088 1122334455667788\nif1 spent 01\n\
if2 write 02 a48c0000 00000000 0088 1122334455667788\n\
final 01 a48c0000 00000000 0088 1122334455667788\nfinal 02 a48c0000 00000000 0088 1122334455667788\n",
);

/// Object 64, and loop back on the bus.
const LAST_OBJECT: (&str, &str) = (
    r#"{"profile":2,"if1":[
    {"op":"transfer","request":"0000","set":{"cmask":"0090","ctrl":"2000"}},
    {"op":"interrupt"},{"op":"flags","flag":"intpnd"}],
  "bus":[{"op":"loopback","on":1},{"op":"round"},{"op":"status"}]}"#,
    "if1 write 64 00000000 00000000 2000 0000000000000000\nif1 interrupt 0040\n\
if1 flags intpnd 8000000000000000\nbus loopback 1\nbus idle\nbus status 0000\n\
final 64 00000000 00000000 2000 0000000000000000\n",
);

/// A port whose quota is spent leaves the others theirs, and both profiles and loop back run, each time.
fn run_over<R: SharedRam + Sync + Drop, T: Threads + Wait + Abort + Sync>(rt: &T, alloc: Global) {
    for _ in 0..20u8 {
        comes_to::<R, FreeGate, T>(rt, alloc, TWICE, &FreeGate);
        comes_to::<R, FreeGate, T>(rt, alloc, LAST_OBJECT, &FreeGate);
    }
}

#[test]
fn scripts_come_to_their_texts(rt: HostRuntime) {
    run_over::<WordRam, HostRuntime>(&rt, rt.alloc());
    run_over::<RootRam, HostRuntime>(&rt, rt.alloc());
}

/// Both hosts see what the other wrote, which no run on one thread can answer.
fn wait_for_each_other<R: SharedRam + Sync + Drop, T: Threads + Wait + Abort + Sync>(
    rt: &T,
    alloc: Global,
) {
    let meeting = Meeting::new();
    let gate = Together { at: &meeting };
    comes_to::<R, Together, T>(rt, alloc, WAIT_FOR_EACH_OTHER, &gate);
}

#[test]
fn hosts_wait_for_each_other(rt: HostRuntime) {
    wait_for_each_other::<WordRam, HostRuntime>(&rt, rt.alloc());
    wait_for_each_other::<RootRam, HostRuntime>(&rt, rt.alloc());
}

/// No port's thread waits for the end of another's before it starts.
#[test]
fn the_bus_starts_with_the_hosts(rt: HostRuntime) {
    let meeting = Meeting::new();
    let gate = AllTogether { at: &meeting };
    comes_to::<WordRam, AllTogether, HostRuntime>(&rt, rt.alloc(), each_port(), &gate);
}

#[test]
fn a_gate_holds_the_first_port_in_order(rt: HostRuntime) {
    for (script, port, held) in [
        (WAIT_FOR_EACH_OTHER.0, None, PortName::If1),
        (LOOK_ONCE, Some(PortName::If2), PortName::If2),
    ] {
        let gate = HeldFrom { port, line: 1 };
        let want = RunError::Held {
            port: held,
            line: 1,
        };
        refuses::<WordRam, HeldFrom, HostRuntime>(&rt, rt.alloc(), script, &gate, want);
    }
}

/// A memory that numbers 64 changes of a port is not opened for more. The other one is, for a quota of 4,096 (`limits`).
#[test]
fn a_quota_past_the_memory_is_told(rt: HostRuntime) {
    let over = r#"{"quota":65}"#;
    refuses::<RootRam, FreeGate, HostRuntime>(&rt, rt.alloc(), over, &FreeGate, RunError::Quota);
}
