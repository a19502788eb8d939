//! Scripts with what they print, and lack of memory. Scripts of each length, and numbers over their ranges, are given to the
//! program (`tools/test/check_long_scripts`).
use crate::expect::holds;
use crate::faulty::new_sheet;
use crate::runs::{read, run};
use ccan_run::{RunError, run_ordered};
use ccan_script::Script;
use std::alloc::Global;
use std::io::Write;

/// A write of one message, and what it prints. Nothing is promised of them, so a test's proof has no text to carry.
pub fn write() -> (&'static str, &'static str) {
    (
        r#"{"if1":[{"op":"transfer","request":"0001","set":{"cmask":"00f3","arb2":"a48c","ctrl":"0088",
            "dataa1":"2211","dataa2":"4433","datab1":"6655","datab2":"8877"}}]}"#,
        "if1 write 01 a48c0000 00000000 0088 1122334455667788\n\
final 01 a48c0000 00000000 0088 1122334455667788\n",
    )
}

/// A quota of one, with a write, another one that is refused, and a read; and what they print.
pub fn spent() -> (&'static str, &'static str) {
    (
        r#"{"quota":1,"if1":[
{"op":"transfer","request":"0001","set":{"cmask":"00f3","arb2":"a48c","ctrl":"0088","dataa1":"2211"}},
{"op":"transfer","request":"0001","set":{"cmask":"0082","dataa1":"9999"}},
{"op":"transfer","request":"0001","set":{"cmask":"0073"}}]}"#,
        "if1 write 01 a48c0000 00000000 0088 1122000000000000\nif1 spent 01\n\
if1 read 01 a48c0000 00000000 0088 1122000000000000\n\
final 01 a48c0000 00000000 0088 1122000000000000\n",
    )
}

/// A message that is loaded and sent, and what it prints.
pub fn sent() -> (&'static str, &'static str) {
    (
        r#"{"nodes":1,"if1":[
            {"op":"transfer","request":"0002","set":{"cmask":"00f3","arb2":"a48c","ctrl":"8188",
            "dataa1":"2211","dataa2":"4433","datab1":"6655","datab2":"8877"}}],
            "bus":[{"op":"load"},{"op":"load"},{"op":"round"}]}"#,
        "if1 write 02 a48c0000 00000000 8188 1122334455667788\n\
bus loaded 02 a48c0000 00000000 0188 1122334455667788\nbus held 02\n\
bus sent 02 a48c0000 00000000 0088 1122334455667788\n\
final 02 a48c0000 00000000 0088 1122334455667788\n",
    )
}

/// A write of each host at an object of its own, and a line of the bus; and what they print, in order and in threads.
pub fn each_port() -> (&'static str, &'static str) {
    (
        r#"{"if1":[{"op":"transfer","request":"0001","set":{"cmask":"0090","ctrl":"8000"}}],
            "if2":[{"op":"transfer","request":"0002","set":{"cmask":"0090","ctrl":"0100"}}],
            "bus":[{"op":"status"}]}"#,
        "if1 write 01 00000000 00000000 8000 0000000000000000\n\
if2 write 02 00000000 00000000 0100 0000000000000000\nbus status 0000\n\
final 01 00000000 00000000 8000 0000000000000000\n\
final 02 00000000 00000000 0100 0000000000000000\n",
    )
}

/// Runs a script that was read.
fn run_read<W: Write>(alloc: Global, script: &Script, out: &mut W) -> Result<(), RunError> {
    run_ordered(alloc, script, out)
}

#[test]
fn runs_a_script_in_order(rt: HostRuntime) {
    let (text, want) = each_port();
    let script = read(&rt, rt.alloc(), text);
    let mut out = new_sheet(512);
    let got = run_read(rt.alloc(), &script, &mut out);
    crate::runs::holds(&rt, text, got, &out, Ok(()), want.as_bytes());
}

/// Holds too if any one allocation fails: then nothing is written.
#[test]
fn writes_nothing_without_memory(rt: HostRuntime) {
    let (script, text) = spent();
    let mut out = new_sheet(512);
    match run(rt.alloc(), &mut script.as_bytes(), &mut out) {
        Ok(()) => holds(&rt, out.taken.as_slice() == text.as_bytes()),
        Err(fault) => holds(&rt, fault.status() == 3 && out.taken.is_empty()),
    }
}
