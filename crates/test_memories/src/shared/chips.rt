//! What a port does at the controller of a chip, in a thread of its own, while others change it at once.
ghost use Rattle.std.specs.Prelude.{◌≡◌};
ghost use Rattle.ccan_ram.specs.declared.port.PortName.{PortName};
ghost use Rattle.ccan_ram.specs.declared.port.PortName.TheVariants.{If1, If2, Bus};
ghost use Rattle.ccan_endless.specs.Chip.{MayMake};

use ccan_confine::{BusEvent, ControlRegister, Controller, ControllerChange, StatusEvent};
use ccan_endless::{ControllerChanged, EndlessRam, FinalChip, Port};
use ccan_ram::Tries;
use std::thread::{Threads, join};

/// What a port counted while it worked.
#[derive(Clone, Copy)]
pub struct Counted {
    /// How many changes it made.
    pub made: u32,
    /// Each found the port's own registers as the one before had left them.
    pub own_in_turn: bool,
    /// Of the bus: how many raised the status interrupt of transfers and errors. Of a reader: how many cleared it.
    pub pending: u32,
}

impl Counted {
    fn none() -> Counted {
        Counted {
            made: 0,
            own_in_turn: true,
            pending: 0,
        }
    }

    fn with(self, in_turn: bool, pending: bool) -> Counted {
        Counted {
            made: self.made.saturating_add(1),
            own_in_turn: self.own_in_turn && in_turn,
            pending: self.pending.saturating_add(u32::from(pending)),
        }
    }
}

/// A change of the controller, with the part of its contract that further calls need.
pub fn changed(
    ram: &EndlessRam,
    port: &mut Port,
    change: &ControllerChange,
    tries: Tries,
) -> Option<ControllerChanged>
    requires memory { port.old.pass.memory ≡ ram.now.words }
    requires may { MayMake port.old.pass.port change.now }
    ensures memory { port.new.pass.memory ≡ port.old.pass.memory }
    ensures port { port.new.pass.port ≡ port.old.pass.port }
{
    match ram.change_controller(port, change, tries) {
        Ok(made) => Some(made),
        Err(_) => None,
    }
}

/// How often a change that lost each of its tries is begun again.
const PATIENCE: u32 = 1000;

/// A change of the controller that is begun again if each of its tries was lost. Nothing says that one succeeds if others change
/// the controller all the time, and on a busy machine a thousand tries may be lost in a row.
fn insisted(
    ram: &EndlessRam,
    port: &mut Port,
    change: &ControllerChange,
    tries: Tries,
) -> Option<ControllerChanged>
    requires memory { port.old.pass.memory ≡ ram.now.words }
    requires may { MayMake port.old.pass.port change.now }
    ensures memory { port.new.pass.memory ≡ port.old.pass.memory }
    ensures port { port.new.pass.port ≡ port.old.pass.port }
{
    for turn in 0..PATIENCE {
        if let Some(made) = changed(ram, port, change, tries) {
            return Some(made);
        }
    }
    None
}

/// A look at the controller, likewise.
pub fn looked(ram: &EndlessRam, port: &mut Port) -> Controller
    requires memory { port.old.pass.memory ≡ ram.now.words }
    ensures memory { port.new.pass.memory ≡ port.old.pass.memory }
    ensures port { port.new.pass.port ≡ port.old.pass.port }
{
    ram.look_controller(port)
}

/// A write of Init and SIE.
pub fn control(init: bool, sie: bool) -> ControllerChange
    ensures { (port : PortName) → MayMake port result }
{
    ControllerChange::WriteControl(ControlRegister {
        init,
        sie,
        ..ControlRegister::default()
    })
}

// The bus receives a frame that is faulty and one that is not, in turn.
fn frame(faulty: bool) -> ControllerChange
    ensures { MayMake Bus result }
{
    if faulty {
        ControllerChange::Frame(BusEvent::ReceiveFault, StatusEvent::Fault(1))
    } else {
        ControllerChange::Frame(BusEvent::Received, StatusEvent::Received)
    }
}

/// Sets and clears Init and SIE so many times.
pub fn write_control(ram: &EndlessRam, mut port: Port, turns: u32, tries: Tries) -> (Counted, Port)
    requires memory { port.pass.memory ≡ ram.now.words }
    ensures memory { result.1.pass.memory ≡ port.pass.memory }
    ensures port { result.1.pass.port ≡ port.pass.port }
{
    let mut counted = Counted::none();
    let mut last = ControlRegister::default();
    for turn in 0..turns {
        let change = control(turn % 2 == 0, turn % 3 == 0);
        match insisted(ram, &mut port, &change, tries) {
            Some(made) => {
                counted = counted.with(made.before.control == last, false);
                last = made.after.control;
            }
            None => return (counted, port),
        }
    }
    (counted, port)
}

/// Reads the Status register so many times.
pub fn read_status(ram: &EndlessRam, mut port: Port, turns: u32, tries: Tries) -> (Counted, Port)
    requires memory { port.pass.memory ≡ ram.now.words }
    ensures memory { result.1.pass.memory ≡ port.pass.memory }
    ensures port { result.1.pass.port ≡ port.pass.port }
{
    let mut counted = Counted::none();
    for turn in 0..turns {
        match insisted(ram, &mut port, &ControllerChange::ReadStatus, tries) {
            Some(made) => {
                counted = counted.with(!made.after.transfer_pending, made.before.transfer_pending)
            }
            None => return (counted, port),
        }
    }
    (counted, port)
}

/// Makes so many events of the bus.
pub fn receive_frames(ram: &EndlessRam, mut port: Port, turns: u32, tries: Tries) -> (Counted, Port)
    requires memory { port.pass.memory ≡ ram.now.words }
    requires bus { port.pass.port ≡ Bus }
    ensures memory { result.1.pass.memory ≡ port.pass.memory }
    ensures port { result.1.pass.port ≡ port.pass.port }
{
    let mut counted = Counted::none();
    let mut last = 0u8;
    for turn in 0..turns {
        let change = frame(turn % 2 == 0);
        match insisted(ram, &mut port, &change, tries) {
            Some(ControllerChanged { before, after }) => {
                let in_turn = before.counters.rec() == last;
                counted = counted.with(in_turn, !before.transfer_pending);
                last = after.counters.rec();
            }
            None => return (counted, port),
        }
    }
    (counted, port)
}

/// The three at work, each in a thread of its own, and then the end of the chip.
pub fn three_at_the_controller<T: Threads + Sync>(
    rt: &T,
    ram: EndlessRam,
    if1: Port,
    if2: Port,
    bus: Port,
    turns: u32,
    tries: Tries,
) -> ([Counted; 3], FinalChip)
    requires if1 { (if1.pass.memory ≡ ram.words) × (if1.pass.port ≡ If1) }
    requires if2 { (if2.pass.memory ≡ ram.words) × (if2.pass.port ≡ If2) }
    requires bus { (bus.pass.memory ≡ ram.words) × (bus.pass.port ≡ Bus) }
{
    let shared = &ram;
    let (first, (second, third)) = join(
        rt,
        move ||
            requires { if1.pass.memory ≡ shared.now.words }
        { write_control(shared, if1, turns, tries) },
        move ||
            requires memory { (if2.pass.memory ≡ shared.now.words)
                × (bus.pass.memory ≡ shared.now.words) }
            requires bus { bus.pass.port ≡ Bus }
        {
            join(
                rt,
                move ||
                    requires { if2.pass.memory ≡ shared.now.words }
                { read_status(shared, if2, turns, tries) },
                move ||
                    requires memory { bus.pass.memory ≡ shared.now.words }
                    requires bus { bus.pass.port ≡ Bus }
                { receive_frames(shared, bus, turns, tries) },
            )
        },
    );
    let (x, if1) = first;
    let (y, if2) = second;
    let (z, bus) = third;
    ([x, y, z], ram.close_chip(if1, if2, bus))
}
