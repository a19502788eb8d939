//! Chips that are saved and put back: a chip is led through many states by ordinary events, and after each of them another chip
//! is put back from its text and looked at.
ghost use Rattle.std.specs.Prelude.{◌≡◌, ◌≤◌};
ghost use Rattle.ccan_ram.specs.declared.port.PortName.TheVariants.{Bus};
ghost use Rattle.ccan_endless.specs.Chip.{MayMake};

use crate::expect::holds;
use ccan_chip::Map;
use ccan_confine::{
    BusEvent, ControlRegister, ControllerChange, StatusEvent, StatusFlags, TestRegister,
};
use ccan_endless::{ControllerChanged, EndlessRam, Port};
use ccan_object::{CommandMask, Iface, ObjectNo, Profile, Reg};
use ccan_ram::{Change, SharedRam, Tries};
use ccan_registers::InterfaceSet;
use ccan_registers::saved::{Saved, from_bytes, look_at_all, put_back, to_bytes};
use std::alloc::Global;
use std::process::Abort;

/// A change of the controller, with the part of its contract that further calls need.
fn changed(
    ram: &EndlessRam,
    port: &mut Port,
    change: &ControllerChange,
    tries: Tries,
) -> Option<ControllerChanged>
    requires memory { port.old.pass.memory ≡ ram.now.words }
    requires may { MayMake port.old.pass.port change.now }
    ensures memory { port.new.pass.memory ≡ port.old.pass.memory }
    ensures port { port.new.pass.port ≡ port.old.pass.port }
{
    ram.change_controller(port, change, tries).ok()
}

/// The next of some numbers that are spread.
fn next(seed: u32) -> u32 {
    seed.wrapping_mul(1_664_525).wrapping_add(1_013_904_223)
}

/// An event of the bus, or a host's write or read, by a number.
fn event(kind: u32, word: u16) -> ControllerChange
    ensures { MayMake Bus result }
{
    match kind % 26 {
        0..=4 => ControllerChange::Frame(BusEvent::SendFault, StatusEvent::Fault(4)),
        5..=8 => ControllerChange::Frame(BusEvent::Sent, StatusEvent::Sent),
        9..=12 => ControllerChange::Frame(BusEvent::ReceiveFault, StatusEvent::Fault(1)),
        13 => ControllerChange::Frame(BusEvent::Received, StatusEvent::Received),
        14 => ControllerChange::Frame(BusEvent::SendNoAck, StatusEvent::Fault(3)),
        15 | 16 => ControllerChange::Recessive(word % 60),
        17 | 18 => {
            let both = u32::from(word) * 0x0001_0001;
            ControllerChange::WriteControl(ControlRegister::of_word(both))
        }
        19 => ControllerChange::ReadStatus,
        20 => ControllerChange::WriteStatus(StatusFlags::of_word(word)),
        21 => ControllerChange::WriteTest(TestRegister::of_word(word)),
        22 => ControllerChange::WriteBitTiming(word),
        23 => ControllerChange::Join,
        24 => ControllerChange::PowerDown,
        _ => ControllerChange::WriteExtension(word),
    }
}

/// The chip as it is saved.
fn saved(ram: &EndlessRam, port: &mut Port, tries: Tries) -> Saved
    requires memory { port.old.pass.memory ≡ ram.now.words }
    ensures memory { port.new.pass.memory ≡ port.old.pass.memory }
    ensures port { port.new.pass.port ≡ port.old.pass.port }
{
    let (controller, records) = look_at_all(ram, port);
    Saved {
        profile: ram.profile(),
        map: Map::Wide,
        tries,
        others: 3,
        if1: InterfaceSet::reset(),
        if2: InterfaceSet::new(),
        controller,
        records,
    }
}

/// A chip that is put back from the text is as this one.
fn comes_back(rt: &impl Abort, alloc: Global, ram: &EndlessRam, port: &mut Port, tries: Tries)
    requires memory { port.old.pass.memory ≡ ram.now.words }
    ensures memory { port.new.pass.memory ≡ port.old.pass.memory }
    ensures port { port.new.pass.port ≡ port.old.pass.port }
{
    let text = to_bytes(&saved(ram, port, tries));
    let Ok(read) = from_bytes(&text) else {
        panic!(rt; "refused")
    };
    let Ok((other, _if1, _if2, mut bus)) = EndlessRam::open_reset(alloc, ram.profile(), 64) else {
        panic!(rt; "no memory")
    };
    let done = put_back(&other, &mut bus, &read);
    assert!(rt; done.is_ok(), "{done:?} {:?}", read.controller);
    holds(rt, to_bytes(&saved(&other, &mut bus, tries)) == text);
}

/// Writes an object by some numbers.
fn write(ram: &EndlessRam, port: &mut Port, word: u16, tries: Tries)
    requires memory { port.old.pass.memory ≡ ram.now.words }
    ensures memory { port.new.pass.memory ≡ port.old.pass.memory }
    ensures port { port.new.pass.port ≡ port.old.pass.port }
{
    let mut registers = Iface::new();
    for register in [
        Reg::Mask1,
        Reg::Mask2,
        Reg::Arb1,
        Reg::Arb2,
        Reg::Ctrl,
        Reg::DataA1,
        Reg::DataB2,
    ] {
        registers.set(register, word.rotate_left(3));
    }
    let change = Change::Write(CommandMask::of(0xf3), registers.buffer());
    let _ = ram.change(
        port,
        ObjectNo::from_request(ram.profile(), word),
        &change,
        tries,
    );
}

/// Leads a chip through so many events.
fn walk(rt: &impl Abort, alloc: Global, profile: Profile, kinds: u32, turns: u32)
    requires { 1 ≤ kinds }
{
    let Some(tries) = Tries::new(7) else {
        return;
    };
    let Ok((ram, _if1, _if2, mut bus)) = EndlessRam::open_reset(alloc, profile, 5000) else {
        panic!(rt; "no memory")
    };
    let mut seed = 1;
    for turn in 0..turns {
        seed = next(seed);
        let word = (seed >> 16) as u16;
        let change = event(u32::from(word % 251) % kinds, (next(seed) >> 16) as u16);
        holds(rt, changed(&ram, &mut bus, &change, tries).is_some());
        if turn % 16 == 0 {
            write(&ram, &mut bus, word, tries);
        }
        comes_back(rt, alloc, &ram, &mut bus, tries);
    }
}

/// Makes an event so many times, and each time another chip comes back as this one is, with what is pending and without.
fn climb(rt: &impl Abort, alloc: Global, event: BusEvent, times: u32) {
    let Some(tries) = Tries::new(7) else {
        return;
    };
    let Ok((ram, _if1, _if2, mut bus)) = EndlessRam::open_reset(alloc, Profile::One, 64) else {
        panic!(rt; "no memory")
    };
    for turn in 0..times {
        let change = ControllerChange::Frame(event, StatusEvent::Fault(3));
        holds(rt, changed(&ram, &mut bus, &change, tries).is_some());
        comes_back(rt, alloc, &ram, &mut bus, tries);
        holds(
            rt,
            changed(&ram, &mut bus, &ControllerChange::ReadStatus, tries).is_some(),
        );
        comes_back(rt, alloc, &ram, &mut bus, tries);
    }
}

#[test]
fn a_saved_chip_comes_back(rt: HostRuntime) {
    walk(&rt, rt.alloc(), Profile::One, 26, 4000);
    walk(&rt, rt.alloc(), Profile::One, 15, 2000);
    walk(&rt, rt.alloc(), Profile::Two, 9, 1000);
    climb(&rt, rt.alloc(), BusEvent::ReceiveFault, 258);
    climb(&rt, rt.alloc(), BusEvent::SendFault, 34);
}
