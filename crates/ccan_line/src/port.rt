ghost use Rattle.std.specs.Prelude.{◌≡◌, ◌≤◌, [], All, IfSome, length, vec_capacity};
ghost use Rattle.ccan_object.specs.Interface.{zero_registers};
ghost use Rattle.ccan_ram.specs.Access.{Goes};
ghost use Rattle.ccan_bus.specs.Past.{opened};
ghost use Rattle.ccan_line.specs.Script.{fields_of};
ghost use Rattle.ccan_line.specs.HostLine.{HostFits};
ghost use Rattle.ccan_line.specs.BusLine.{BusFits};
ghost use Rattle.ccan_line.specs.BusPort.{BusLineMeans};
ghost use Rattle.ccan_line.specs.Host.{HostLineMeans};
ghost use Rattle.ccan_line.specs.Gate.{Asks, IsHeldAt, ran};
ghost use Rattle.ccan_line.specs.Lines.{Run};
ghost use Rattle.ccan_line.specs.Port.{PortMeans, count_of};

use crate::bus_line::BusLine;
use crate::gate::Gate;
use crate::host_line::HostLine;
use crate::line_answer::LineAnswer;
use crate::script::Script;
use crate::side::run_lines;
use ccan_bus::Bus;
use ccan_object::Iface;
use ccan_ram::{Access, PortName, Tries};

/// Runs the lines of a host port, from registers that read 0.
fn run_host<A: Access, G: Gate>(
    access: &mut A,
    port: PortName,
    lines: &[HostLine],
    tries: Tries,
    gate: &mut G,
    log: &mut Vec<LineAnswer>,
) -> Option<usize>
    requires fit { All (HostFits (A.passes access.old).terms.profile) lines.now }
    requires empty { log.old.items ≡ [] }
    requires room { length lines.now ≤ vec_capacity log.old }
    ensures runs { Goes (A.passes access.old) (A.passes access.new) (λ terms seen added.
        Run (HostLineMeans terms tries) zero_registers (ran result lines.now)
        seen added log.new.items) }
    ensures stopped { IfSome result (IsHeldAt (length lines.now) log.new.items) }
    ensures asked { Asks G.enters port log.new.items result gate.old gate.new }
{
    let mut registers = Iface::new();
    run_lines(&mut registers, access, port, lines, tries, gate, log)
}

/// Runs the lines of the bus, which begins with this many other nodes to which nothing happened.
fn run_bus<A: Access, G: Gate>(
    access: &mut A,
    nodes: u8,
    lines: &[BusLine],
    tries: Tries,
    gate: &mut G,
    log: &mut Vec<LineAnswer>,
) -> Option<usize>
    requires few { nodes ≤ 8 }
    requires fit { All (BusFits nodes) lines.now }
    requires empty { log.old.items ≡ [] }
    requires room { length lines.now ≤ vec_capacity log.old }
    ensures runs { Goes (A.passes access.old) (A.passes access.new) (λ terms seen added.
        Run (BusLineMeans terms tries) (opened nodes) (ran result lines.now)
        seen added log.new.items) }
    ensures stopped { IfSome result (IsHeldAt (length lines.now) log.new.items) }
    ensures asked { Asks G.enters PortName.Bus log.new.items result gate.old gate.new }
{
    let mut bus = Bus::new(access.profile(), nodes);
    run_lines(&mut bus, access, PortName::Bus, lines, tries, gate, log)
}

/// Runs the lines of a port in turn, as far as the gate lets it, and logs their answers. `None` if all ran, and else the
/// index of the line before which the gate stopped the port. The gate is asked once before each line, with the answers so
/// far, and for nothing else.
///
/// A host begins with registers that read 0, the bus with nothing loaded and nodes to which nothing happened. Three threads
/// of a caller's own may each run this for one port of a shared memory, over [`ccan_ram::On`]; what they did is then one
/// history, which closing the memory gives.
pub fn run_port<A: Access, G: Gate>(
    access: &mut A,
    port: PortName,
    script: &Script,
    gate: &mut G,
    log: &mut Vec<LineAnswer>,
) -> Option<usize>
    requires profile { (A.passes access.old).terms.profile ≡ script.now.profile }
    requires empty { log.old.items ≡ [] }
    requires room { count_of (fields_of script.now) port ≤ vec_capacity log.old }
    ensures runs { Goes (A.passes access.old) (A.passes access.new) (λ terms seen added.
        PortMeans terms (fields_of script.now) port result seen added log.new.items) }
    ensures stopped { let count = count_of (fields_of script.now) port in
        IfSome result (IsHeldAt count log.new.items) }
    ensures asked { Asks G.enters port log.new.items result gate.old gate.new }
{
    let tries = script.tries;
    match port {
        PortName::If1 => run_host(access, port, &script.if1, tries, gate, log),
        PortName::If2 => run_host(access, port, &script.if2, tries, gate, log),
        PortName::Bus => run_bus(access, script.nodes, &script.bus, tries, gate, log),
    }
}
