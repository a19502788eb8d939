//! Rounds of a chip in a thread of their own, while a host's thread writes Init and reads the Status register.
ghost use Rattle.std.specs.Prelude.{◌≡◌};
ghost use Rattle.ccan_object.specs.declared.profile.Profile.TheVariants.{One};
ghost use Rattle.ccan_ram.specs.declared.port.PortName.TheVariants.{If1, If2, Bus};

use crate::shared::chips::{changed, control};
use ccan_bus::RoundLine;
use ccan_chip::{ChipBus, ChipPort, Map, PortSettings};
use ccan_confine::{BusEvent, ControllerChange, Counters};
use ccan_endless::{ControllerChanged, EndlessRam, FinalChip, Port};
use ccan_object::Profile;
use ccan_ram::Tries;
use std::alloc::Global;
use std::process::Abort;
use std::sync::Arc;
use std::thread::{Threads, join};

/// What came of it.
#[derive(Clone, Copy)]
pub struct AtWork {
    /// The counters that the events which were made at the controller make of a new controller's.
    pub counters: Counters,
    /// Each event was made at the controller, where it found the counters that those before it had left, or was reported as given
    /// up.
    pub all_noted: bool,
    /// In how many rounds the controller took part.
    pub parts: u32,
    /// How many events raised the status interrupt of transfers and errors.
    pub raised: u32,
    /// How many reads of the host cleared it.
    pub read: u32,
}

impl AtWork {
    /// With an event that was made at the controller.
    fn with(self, event: BusEvent, made: &ControllerChanged) -> AtWork {
        let raised = !made.before.transfer_pending;
        AtWork {
            counters: self.counters.after(event),
            all_noted: self.all_noted && made.before.counters == self.counters,
            raised: self.raised.saturating_add(u32::from(raised)),
            ..self
        }
    }
}

/// So many rounds, of two lines in turn.
pub fn play(mut chip: ChipPort, lines: &[RoundLine; 2], turns: u32) -> (AtWork, ChipPort)
    requires bus { chip.port.pass.port ≡ Bus }
    requires profile { chip.port.pass.memory.profile ≡ One }
    ensures memory { result.1.port.pass.memory ≡ chip.port.pass.memory }
    ensures port { result.1.port.pass.port ≡ chip.port.pass.port }
{
    let mut bus = ChipBus::new(Profile::One, 2);
    let mut at_work = AtWork {
        counters: Counters::new(true),
        all_noted: true,
        parts: 0,
        raised: 0,
        read: 0,
    };
    for turn in 0..turns {
        let line = if turn % 2 == 0 { &lines[0] } else { &lines[1] };
        let told = bus.round(&mut chip, line);
        if let Some((event, _)) = told.own {
            at_work.parts = at_work.parts.saturating_add(1);
            match told.noted {
                Some(Ok(made)) => at_work = at_work.with(event, &made),
                Some(Err(_)) => {}
                None => at_work.all_noted = false,
            }
        }
    }
    (at_work, chip)
}

/// Sets Init, clears it, and reads the Status register, so many times. How many reads found a status interrupt.
pub fn write_and_read(ram: &EndlessRam, mut port: Port, turns: u32, tries: Tries) -> (u32, Port)
    requires memory { port.pass.memory ≡ ram.now.words }
    ensures memory { result.1.pass.memory ≡ port.pass.memory }
    ensures port { result.1.pass.port ≡ port.pass.port }
{
    let mut read = 0u32;
    for turn in 0..turns {
        let _written = changed(ram, &mut port, &control(turn % 2 == 0, true), tries);
        if let Some(made) = changed(ram, &mut port, &ControllerChange::ReadStatus, tries) {
            read = read.saturating_add(u32::from(made.before.transfer_pending));
        }
    }
    (read, port)
}

/// Both at work, each in a thread of its own, and then the end of the chip.
pub fn rounds_beside_a_host<T: Abort + Threads + Sync>(
    rt: &T,
    alloc: Global,
    ram: EndlessRam,
    ports: (Port, Port, Port),
    lines: &[RoundLine; 2],
    turns: u32,
    tries: Tries,
) -> (AtWork, FinalChip)
    requires if1 { (ports.0.pass.memory ≡ ram.words) × (ports.0.pass.port ≡ If1) }
    requires if2 { (ports.1.pass.memory ≡ ram.words) × (ports.1.pass.port ≡ If2) }
    requires bus { (ports.2.pass.memory ≡ ram.words) × (ports.2.pass.port ≡ Bus) }
    requires profile { ports.2.pass.memory.profile ≡ One }
{
    let (if1, if2, bus) = ports;
    let Ok(ram) = Arc::new(alloc, ram) else {
        panic!(rt; "no memory")
    };
    let Ok(share) = Arc::try_clone(&ram) else {
        panic!(rt; "too many shares")
    };
    let settings = PortSettings {
        map: Map::Narrow,
        tries,
    };
    let chip = ChipPort::new(share, bus, settings);
    let shared: &EndlessRam = &ram;
    let ((read, if1), (at_work, chip)) = join(
        rt,
        move ||
            requires { if1.pass.memory ≡ shared.now.words }
        { write_and_read(shared, if1, turns, tries) },
        move ||
            requires bus { chip.port.pass.port ≡ Bus }
            requires profile { chip.port.pass.memory.profile ≡ One }
        { play(chip, lines, turns) },
    );
    let (share, bus) = chip.into_parts();
    drop(share);
    match Arc::try_unwrap(ram) {
        Ok(ram) => (AtWork { read, ..at_work }, ram.close_chip(if1, if2, bus)),
        Err(_) => panic!(rt; "the memory is shared"),
    }
}
