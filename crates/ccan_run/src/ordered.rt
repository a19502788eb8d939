ghost use Rattle.std.specs.Prelude.{◌≡◌, ◌≤◌, [], OnOk, IfErr, length, vec_capacity};
ghost use Rattle.ccan_ram.specs.declared.port.PortName.{PortName};
ghost use Rattle.ccan_ram.specs.SharedRam.{IsMemoryOf};
ghost use Rattle.ccan_line.specs.Limits.{most_names};
ghost use Rattle.ccan_line.specs.Script.{fields_of};
ghost use Rattle.ccan_run.specs.Ordered.{Prints, RunsTo, StopsRun};
ghost use Rattle.ccan_run.specs.Trio.{seen_by};

use crate::ports::Ports;
use crate::run_error::RunError;
use crate::text::print_run;
use crate::trio::Trio;
use ccan_bus::{LoadAnswer, RoundAnswer};
use ccan_confine::NodeState;
use ccan_line::side::log_answer;
use ccan_line::{LineAnswer, Script};
use ccan_object::{ObjectNo, Profile, Record};
use ccan_ram::{Final, Flag, PortName, SharedRam};
use ccan_words::WordRam;
use std::alloc::Global;
use std::io::Write;

/// Runs all lines in the order of the script, and logs their answers, each with its port. Gives what they leave.
fn run_lines_in_order<R: SharedRam>(
    script: &Script,
    trio: Trio<R>,
    log: &mut Vec<(PortName, LineAnswer)>,
) -> Final
    requires memory { IsMemoryOf script.now.profile script.now.quota (R.memory trio.ram) }
    requires opens { (name : PortName)
        → seen_by (R.pass trio.if1) (R.pass trio.if2) (R.pass trio.bus) name ≡ [] }
    requires empty { log.old.items ≡ [] }
    requires room { length script.now.order.items ≤ vec_capacity log.old }
    ensures count { length log.new.items ≡ length script.now.order.items }
    ensures runs { RunsTo (fields_of script.now) log.new.items result }
{
    // The number of tries is read so that the check knows that it is at least 1.
    let _tries = script.tries.get();
    let mut ports = Ports::new(script);
    let mut trio = trio;
    for port in &script.order {
        let (answer, rest) = ports.turn(script, trio, *port);
        log_answer(log, (*port, answer));
        trio = rest;
    }
    trio.close()
}

/// How many lines a script has: as many as its order has names.
fn count_lines(script: &Script) -> usize
    ensures count { result ≡ length script.now.order.items }
    ensures few { result ≤ most_names }
{
    script.order.len()
}

/// Runs a script in its order over a lock-free memory, with its three ports in this one thread, and writes the answers
/// to its lines and then the final objects.
///
/// All memory is taken before the first byte is written. The text is gathered on the stack and goes out in few writes: if the
/// writer takes all that it is given, there is at most one `write` for each 65,457 bytes of it, and one for the rest. After a
/// failed write, what was written is a prefix of the text.
pub fn run_ordered<W: Write>(alloc: Global, script: &Script, writer: &mut W) -> Result<(), RunError>
    ensures ok { OnOk result
        (Prints (fields_of script.now) (W.contents writer.old) (W.contents writer.new)) }
    ensures err { IfErr result
        (StopsRun (fields_of script.now) (W.contents writer.old) (W.contents writer.new)) }
{
    let lines = count_lines(script);
    let mut answers = Vec::with_capacity(alloc, lines)?;
    let trio = Trio::<WordRam>::open(alloc, script.profile, script.quota)?;
    let left = run_lines_in_order(script, trio, &mut answers);
    print_run(&answers, &left, writer)
}
