ghost use Rattle.std.specs.Prelude.{◌≡◌, ◌+◌, ◌<◌, if◌then◌else◌};
ghost use Rattle.ccan_ram.specs.Port.{same_port};
ghost use Rattle.ccan_ram.specs.SharedRam.{IsMemoryOf};
ghost use Rattle.ccan_line.specs.Script.{fields_of};
ghost use Rattle.ccan_line.specs.Turn.{opening};
ghost use Rattle.ccan_line.specs.Port.{count_of};
ghost use Rattle.ccan_run.specs.Ports.{CanRun, HaveLedTo, TakesTurn, next_of};
ghost use Rattle.ccan_run.specs.Trio.{seen_by};

use crate::lane::Lane;
use crate::trio::{Trio, catch_up};
use ccan_bus::Bus;
use ccan_line::{LineAnswer, Script};
use ccan_object::Iface;
use ccan_ram::{PortName, SharedRam};

/// What the lines of all three ports work on in one thread, and how many lines of each have run.
#[derive(Drop)]
pub(crate) struct Ports {
    if1: Lane<Iface>,
    if2: Lane<Iface>,
    bus: Lane<Bus>,
}

impl Ports {
    /// As a run of this script begins: registers that read 0, and a bus to which nothing has happened.
    pub(crate) fn new(script: &Script) -> Ports
        ensures opened { HaveLedTo (opening script.now.nodes) result }
        ensures can_run { CanRun (fields_of script.now) result }
        ensures none { (port : PortName) → next_of result port ≡ 0 }
    {
        Ports {
            if1: Lane {
                side: Iface::new(),
                next: 0,
            },
            if2: Lane {
                side: Iface::new(),
                next: 0,
            },
            bus: Lane {
                side: Bus::new(script.profile, script.nodes),
                next: 0,
            },
        }
    }

    /// Runs the next line of a port, which first meets both others.
    ///
    /// So the port begins its line with all that any of them has seen.
    pub(crate) fn turn<R: SharedRam>(
        &mut self,
        script: &Script,
        trio: Trio<R>,
        port: PortName,
    ) -> (LineAnswer, Trio<R>)
        requires left { next_of self.old port < count_of (fields_of script.now) port }
        requires can_run { CanRun (fields_of script.now) self.old }
        requires memory { IsMemoryOf script.now.profile script.now.quota (R.memory trio.ram) }
        ensures can_run { CanRun (fields_of script.now) self.new }
        ensures memory { R.memory result.1.ram ≡ R.memory trio.ram }
        ensures next { (name : PortName) → next_of self.new name
            ≡ next_of self.old name + (if same_port name port then 1 else 0) }
        ensures runs { TakesTurn R.contends (R.memory trio.ram) (fields_of script.now)
            (seen_by (R.pass trio.if1) (R.pass trio.if2) (R.pass trio.bus))
            (seen_by (R.pass result.1.if1) (R.pass result.1.if2) (R.pass result.1.bus))
            self.old self.new port result.0 }
    {
        let Trio {
            ram,
            mut if1,
            mut if2,
            mut bus,
        } = trio;
        let tries = script.tries;
        match port {
            PortName::If1 => {
                catch_up(&ram, &mut if1, &mut if2, &mut bus);
                let (answer, if1) = self.if1.run_next(&ram, if1, &script.if1, tries);
                (answer, Trio { ram, if1, if2, bus })
            }
            PortName::If2 => {
                catch_up(&ram, &mut if2, &mut if1, &mut bus);
                let (answer, if2) = self.if2.run_next(&ram, if2, &script.if2, tries);
                (answer, Trio { ram, if1, if2, bus })
            }
            PortName::Bus => {
                catch_up(&ram, &mut bus, &mut if1, &mut if2);
                let (answer, bus) = self.bus.run_next(&ram, bus, &script.bus, tries);
                (answer, Trio { ram, if1, if2, bus })
            }
        }
    }
}
