ghost use Rattle.std.specs.Prelude.{◌≡◌, ◌+◌, ◌<◌, [], ◌∷◌, length, drop, slice_index_or, if◌then◌else◌};
ghost use Rattle.ccan_ram.specs.Port.{same_port};
ghost use Rattle.ccan_line.specs.Script.{fields_of};
ghost use Rattle.ccan_line.specs.Turn.{opening};
ghost use Rattle.ccan_line.specs.Port.{count_of};
ghost use Rattle.ccan_explain.specs.Bench.{HaveLedTo, Serves, TakesTurn, next_of};

use crate::reported::{Reported, run_reported};
use ccan_bus::Bus;
use ccan_object::Iface;
use ccan_ram::{Access, Array, PortName};
use ccan_run::Side;
use ccan_script::{LineAnswer, Script};

/// The line of this index.
fn line_at<L>(lines: &[L], index: usize) -> &L
    requires { index < length lines.now }
    ensures item { result.now ≡ slice_index_or lines.now index result.now }
    ensures rest { drop index lines.now ≡ result.now ∷ drop (index + 1) lines.now }
{
    &lines[index]
}

/// What the lines of all three ports work on, over a plain memory, and how many lines of each have run.
#[derive(Drop)]
pub struct Bench {
    pub(crate) ram: Array,
    pub(crate) if1: Iface,
    pub(crate) if2: Iface,
    pub(crate) bus: Bus,
    pub(crate) next_if1: usize,
    pub(crate) next_if2: usize,
    pub(crate) next_bus: usize,
}

impl Bench {
    /// As a run of this script begins: registers that read 0, and a bus to which nothing happened.
    pub(crate) fn new(script: &Script) -> Bench
        ensures opened { HaveLedTo (opening script.now.nodes) result }
        ensures serves { Serves (⟦<Array as Access>⟧.passes result.ram).terms
            (fields_of script.now) result }
        ensures seen { (⟦<Array as Access>⟧.passes result.ram).has_seen [] }
        ensures none { (port : PortName) → next_of result port ≡ 0 }
    {
        Bench {
            ram: Array::new(script.profile, script.quota),
            if1: Iface::new(),
            if2: Iface::new(),
            bus: Bus::new(script.profile, script.nodes),
            next_if1: 0,
            next_if2: 0,
            next_bus: 0,
        }
    }

    /// How many lines of a port have run.
    pub(crate) fn lines_run(&self, port: PortName) -> usize
        ensures { result ≡ next_of self.now port }
    {
        match port {
            PortName::If1 => self.next_if1,
            PortName::If2 => self.next_if2,
            PortName::Bus => self.next_bus,
        }
    }

    /// Runs the next line of a port.
    pub(crate) fn turn(&mut self, script: &Script, port: PortName) -> Reported
        requires left { next_of self.old port < count_of (fields_of script.now) port }
        requires serves { Serves (⟦<Array as Access>⟧.passes self.old.ram).terms
            (fields_of script.now) self.old }
        ensures serves { Serves (⟦<Array as Access>⟧.passes self.new.ram).terms
            (fields_of script.now) self.new }
        ensures next { (name : PortName) → next_of self.new name
            ≡ next_of self.old name + (if same_port name port then 1 else 0) }
        ensures runs { TakesTurn (⟦<Array as Access>⟧.passes self.old.ram)
            (⟦<Array as Access>⟧.passes self.new.ram) (fields_of script.now)
            self.old self.new port result.answer result.report }
    {
        let tries = script.tries;
        self.ram.at(port);
        match port {
            PortName::If1 => {
                let line = line_at(script.if1.as_slice(), self.next_if1);
                self.next_if1 += 1;
                Reported::of_other(self.if1.run_line(&mut self.ram, line, tries))
            }
            PortName::If2 => {
                let line = line_at(script.if2.as_slice(), self.next_if2);
                self.next_if2 += 1;
                Reported::of_other(self.if2.run_line(&mut self.ram, line, tries))
            }
            PortName::Bus => {
                let line = line_at(script.bus.as_slice(), self.next_bus);
                self.next_bus += 1;
                run_reported(&mut self.bus, &mut self.ram, line, tries)
            }
        }
    }

    /// The memory that is left.
    pub(crate) fn into_ram(self) -> Array
        ensures { result ≡ self.ram }
    {
        let Bench {
            ram,
            if1: _,
            if2: _,
            bus: _,
            next_if1: _,
            next_if2: _,
            next_bus: _,
        } = self;
        ram
    }
}
