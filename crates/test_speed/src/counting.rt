//! So many calls of one kind on the memory without an end. `tools/bench/all` counts the instructions of two runs, and what a call
//! costs is their difference.
ghost use Rattle.std.specs.Prelude.{◌≡◌};

use crate::memories::{fill, message, registers_of_message};
use anyhow::{Result, bail};
use ccan_endless::{EndlessRam, Port};
use ccan_handler::{flags_at_once, until};
use ccan_object::{Iface, ObjectNo, Profile, Reg};
use ccan_ram::{Access, Change, Changed, Flag, On, SharedRam, Tries};
use std::alloc::Global;

/// Waits for a flag that the object has. How often the look showed it.
fn look<A: Access>(access: &mut A, calls: u32) -> u32 {
    let object = ObjectNo::from_request(access.profile(), 1);
    let mut shown = 0u32;
    for _ in 0..calls {
        if until(access, object, Flag::MsgVal, 1) {
            shown = shown.saturating_add(1);
        }
    }
    shown
}

/// Reads an object into the interface registers. How often they showed the message.
fn read<A: Access>(access: &mut A, calls: u32) -> u32 {
    let object = ObjectNo::from_request(access.profile(), 1);
    let mut registers = Iface::new();
    // 0x0073, of the message's eight bytes, so that the compiler does not know the command.
    let length = access.look(object).dlc.get();
    registers.set(Reg::CMask, u16::from(length) * 14 + 3);
    let mut made = 0u32;
    for _ in 0..calls {
        let command = registers.command();
        if command.is_pure_read() {
            let shown = access.look(object);
            registers.fill(command, &shown);
            made = made.saturating_add(1);
        }
    }
    if registers.buffer() == message() {
        made
    } else {
        0
    }
}

/// Writes the message whole, from the interface registers, which then show what it left. How often that was done.
fn write<A: Access>(access: &mut A, calls: u32) -> u32 {
    let object = ObjectNo::from_request(access.profile(), 1);
    let Some(once) = Tries::new(1) else {
        return 0;
    };
    let mut registers = registers_of_message();
    // 0x00f3, of the message's eight bytes, so that the compiler does not know the command.
    let length = registers.buffer().dlc.get();
    registers.set(Reg::CMask, u16::from(length) * 30 + 3);
    let mut made = 0u32;
    for _ in 0..calls {
        let command = registers.command();
        let change = Change::Write(command, registers.buffer());
        if let Ok(Changed::Done { after, .. }) = access.change(object, &change, once) {
            registers.fill(command, &after);
            made = made.saturating_add(1);
        }
    }
    made
}

/// Asks for the flag word of one moment. How often each object had the flag.
fn flag_words<A: Access>(access: &mut A, calls: u32) -> u32 {
    let mut whole = 0u32;
    for _ in 0..calls {
        if flags_at_once(access, Flag::MsgVal) == 0xffff_ffff {
            whole = whole.saturating_add(1);
        }
    }
    whole
}

/// Asks whether the interrupt line is pulled, by a look at the controller and one moment of all objects. How often it was not.
fn line(ram: &EndlessRam, port: &mut Port, calls: u32) -> u32
    requires { port.old.pass.memory ≡ ram.now.words }
{
    let mut quiet = 0u32;
    for _ in 0..calls {
        let found = ram.look_controller(port);
        let shown = ram.look_all(port);
        if !found.control.ie || shown.intpnd == 0 {
            quiet = quiet.saturating_add(1);
        }
    }
    quiet
}

/// A call of this name on an access, so often. None if there is no such call.
fn calls_on<A: Access>(access: &mut A, call: &str, calls: u32) -> Option<u32> {
    match call {
        "look" => Some(look(access, calls)),
        "read" => Some(read(access, calls)),
        "write" => Some(write(access, calls)),
        "flags" => Some(flag_words(access, calls)),
        _ => None,
    }
}

/// Makes so many calls of one kind: `look`, `read`, `write`, `flags` or `line`.
pub fn make_calls(alloc: Global, call: &str, calls: u32) -> Result<()> {
    let Ok((ram, if1, mut if2, _bus)) = EndlessRam::open_ram(alloc, Profile::One, 1_000_000) else {
        bail!("no memory")
    };
    let mut host = On::new(&ram, if1);
    fill(&mut host)?;
    let made = if call == "line" {
        Some(line(&ram, &mut if2, calls))
    } else {
        calls_on(&mut host, call, calls)
    };
    if made != Some(calls) {
        bail!("a call was not made, or showed something else");
    }
    Ok(())
}
