//! A chip with its three ports and a bus over it, in one thread, for worked examples of rounds.
ghost use Rattle.std.specs.Prelude.{◌≡◌};
ghost use Rattle.std.specs.Arc.{arc_value};
ghost use Rattle.ccan_ram.specs.declared.port.PortName.TheVariants.{If1, If2, Bus};
ghost use Rattle.ccan_object.specs.declared.profile.Profile.TheVariants.{One};

use crate::expect::tries;
use crate::shared::chips::{changed, looked};
use arrayvec::ArrayVec;
use ccan_accept::Frame;
use ccan_bus::{Fault, LoadAnswer, RoundAnswer, RoundLine};
use ccan_chip::{ChipBus, ChipPort, Map, PortSettings};
use ccan_confine::{ControlRegister, Controller, ControllerChange, NodeState};
use ccan_endless::{EndlessRam, FinalChip, Port};
use ccan_object::Profile;
use ccan_ram::{Change, Changed, SharedRam, Tries};
use std::alloc::Global;
use std::process::Abort;
use std::sync::Arc;

/// The chip. The host's calls are IF1's.
#[derive(Drop)]
pub struct ChipBench {
    ram: Arc<EndlessRam, Global>,
    if1: Port,
    if2: Port,
    chip: ChipPort,
    bus: ChipBus,
    tries: Tries,
    ghost first: { (if1.pass.memory ≡ (arc_value ram).words) × (if1.pass.port ≡ If1) },
    ghost second: { (if2.pass.memory ≡ (arc_value ram).words) × (if2.pass.port ≡ If2) },
    ghost third: { (chip.port.pass.memory ≡ (arc_value ram).words)
        × (chip.port.pass.port ≡ Bus) },
    ghost profile: { chip.port.pass.memory.profile ≡ bus.bus.profile },
    ghost objects: { chip.port.pass.memory.profile ≡ One },
}

/// The line of a round in which node 1 sends, or none, and this spoils the winner's frame.
pub fn line_of(rt: &impl Abort, send: Option<Frame>, fault: Fault) -> RoundLine {
    let mut sends = ArrayVec::new();
    if let Some(sending) = send {
        sends.push((1, sending));
    }
    match RoundLine::new(2, sends, fault) {
        Some(line) => line,
        None => panic!(rt; "no node sends twice"),
    }
}

impl ChipBench {
    /// A chip after its reset, with two other nodes.
    pub fn open(rt: &impl Abort, alloc: Global) -> ChipBench {
        let Ok((ram, if1, if2, port)) = EndlessRam::open_reset(alloc, Profile::One, 64) else {
            panic!(rt; "no memory")
        };
        let Ok(ram) = Arc::new(alloc, ram) else {
            panic!(rt; "no memory")
        };
        let Ok(share) = Arc::try_clone(&ram) else {
            panic!(rt; "too many shares")
        };
        let settings = PortSettings {
            map: Map::Narrow,
            tries: tries(8),
        };
        ChipBench {
            ram,
            if1,
            if2,
            chip: ChipPort::new(share, port, settings),
            bus: ChipBus::new(Profile::One, 2),
            tries: tries(8),
        }
    }

    /// The host writes Init and SIE, and the other bits of the Control register as 0. Whether it was changed.
    pub fn write_control(&mut self, init: bool, sie: bool) -> bool {
        let written = ControllerChange::WriteControl(ControlRegister {
            init,
            sie,
            ..ControlRegister::default()
        });
        changed(&self.ram, &mut self.if1, &written, self.tries).is_some()
    }

    /// The host reads the Status register. Whether a status interrupt was shown before and after it.
    pub fn read_status(&mut self) -> (bool, bool) {
        let read = ControllerChange::ReadStatus;
        match changed(&self.ram, &mut self.if1, &read, self.tries) {
            Some(made) => (
                made.before.shows_status_interrupt(),
                made.after.shows_status_interrupt(),
            ),
            None => (false, true),
        }
    }

    /// The controller, as the host sees it.
    pub fn controller(&mut self) -> Controller {
        looked(&self.ram, &mut self.if1)
    }

    /// The host's change of the last object. Whether it was made.
    pub fn object(&mut self, change: &Change) -> bool {
        let object = self.ram.profile().last();
        let made = self.ram.change(&mut self.if1, object, change, self.tries);
        matches!(made, Ok(Changed::Done { .. }))
    }

    /// A load, with whether Init was 1 at its look.
    pub fn load(&mut self) -> (bool, LoadAnswer) {
        let (found, answer) = self.bus.load(&mut self.chip);
        (found.control.init, answer)
    }

    /// A round of this line: what it loaded, and what it came to.
    pub fn round(&mut self, line: &RoundLine) -> (LoadAnswer, RoundAnswer) {
        let report = self.bus.round(&mut self.chip, line);
        (report.report.loading, report.report.end.answer)
    }

    /// So many groups of recessive bits. The state of the controller then.
    pub fn recessive(&mut self, groups: u16) -> Option<NodeState> {
        match self.bus.recessive(&mut self.chip, groups) {
            Ok(made) => Some(made.after.counters.state()),
            Err(_) => None,
        }
    }

    /// How many other nodes there are, and whether the first of them is error active.
    pub fn others(&self) -> (u8, bool) {
        let nodes = self.bus.others();
        let is_active = nodes >= 1 && self.bus.counters(1).state() == NodeState::Active;
        (nodes, is_active)
    }

    /// What is loaded.
    pub fn loaded(&self) -> Option<u8> {
        match self.bus.loaded() {
            Some((object, _)) => Some(object.get()),
            None => None,
        }
    }

    /// What the chip leaves.
    pub fn close(self, rt: &impl Abort) -> FinalChip {
        let ChipBench {
            ram,
            if1,
            if2,
            chip,
            ..
        } = self;
        let (share, bus) = chip.into_parts();
        drop(share);
        match Arc::try_unwrap(ram) {
            Ok(ram) => ram.close_chip(if1, if2, bus),
            Err(_) => panic!(rt; "the memory is shared"),
        }
    }
}
