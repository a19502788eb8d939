//! The calls of the bus.
ghost use Rattle.std.specs.Prelude.{◌≡◌, ◌≢◌, ◌⊎◌};
ghost use Rattle.ccan_c.specs.Bus.{held_on};
ghost use Rattle.ccan_c.specs.BusCall as bus_call;
ghost use Rattle.ccan_c.specs.BusCall.{BusCallDoes};
ghost use Rattle.ccan_c.specs.Codes.{busy, closed, done, spent};

use crate::access_code::{
    code_of_access, code_of_offset, read_byte_out, read_out, read_word_out, status_out,
};
use crate::bus_handle::BusHandle;
use crate::bus_lines::{enabling, starting};
use crate::code::{
    BUSY, CLOSED, DONE, FAULT_RANGE, FLAG_RANGE, FRAME_RANGE, FRAMES_RANGE, GROUPS_RANGE,
    NODE_RANGE, SENDERS, code_of_load,
};
use crate::numbers::{flag_numbered, number_of};
use crate::offer::{Offer, fault_numbered, read_offers};
use crate::shown_counters::{ShownCounters, state_number};
use crate::shown_load::ShownLoad;
use crate::shown_outcome::{ShownOutcome, code_of_round};
use ccan_line::MAX_FRAMES;

/// The controller chooses an object to send, and starts it.
#[unsafe(no_mangle)]
pub extern "C" fn ccan_load(bus: &mut BusHandle, out: &mut ShownLoad) -> u32
    ensures call { BusCallDoes (bus_call.load result out.new)
        (held_on bus.old) (held_on bus.new) }
    ensures refused { result ≡ closed → out.new ≡ out.old }
{
    if !bus.handle.is_open() {
        return CLOSED;
    }
    let (_, loading, loaded) = bus.handle.seal.as_mut().load();
    *out = ShownLoad::of(&loading, &loaded);
    code_of_load(&loading)
}

/// Reads the Status register. The status interrupt is then no longer pending.
#[unsafe(no_mangle)]
pub extern "C" fn ccan_status(bus: &mut BusHandle, out: &mut u16) -> u32
    ensures call { BusCallDoes (bus_call.status result out.new)
        (held_on bus.old) (held_on bus.new) }
    ensures refused { result ≢ done → out.new ≡ out.old }
{
    if !bus.handle.is_open() {
        return CLOSED;
    }
    let told = bus.handle.seal.as_mut().status();
    status_out(&told, out)
}

/// Sets SIE and EIE, the enables of the status interrupt. 0 is off, each other number is on.
#[unsafe(no_mangle)]
pub extern "C" fn ccan_control(bus: &mut BusHandle, sie: u32, eie: u32) -> u32
    ensures { BusCallDoes (bus_call.control sie eie result)
        (held_on bus.old) (held_on bus.new) }
{
    if !bus.handle.is_open() {
        return CLOSED;
    }
    let told = bus
        .handle
        .seal
        .as_mut()
        .change(&enabling(sie != 0, eie != 0));
    code_of_access(&told)
}

/// Clears Init. From then on groups count for a controller that is off, and any other takes part.
#[unsafe(no_mangle)]
pub extern "C" fn ccan_init(bus: &mut BusHandle) -> u32
    ensures { BusCallDoes (bus_call.init result)
        (held_on bus.old) (held_on bus.new) }
{
    if !bus.handle.is_open() {
        return CLOSED;
    }
    let told = bus.handle.seal.as_mut().change(&starting());
    code_of_access(&told)
}

/// Sets loop back mode: Test of the Control register, and with it LBack of the Test register. 0 is off, each other number is on.
#[unsafe(no_mangle)]
pub extern "C" fn ccan_loop_back(bus: &mut BusHandle, on: u32) -> u32
    ensures { BusCallDoes (bus_call.loop_back on result)
        (held_on bus.old) (held_on bus.new) }
{
    if !bus.handle.is_open() {
        return CLOSED;
    }
    let told = bus.handle.seal.as_mut().loop_back(on != 0);
    code_of_access(&told)
}

/// Lets groups of eleven recessive bits pass, and reports the controller's state.
#[unsafe(no_mangle)]
pub extern "C" fn ccan_recessive(bus: &mut BusHandle, groups: u32, out: &mut u32) -> u32
    ensures call { BusCallDoes (bus_call.recessive groups result out.new)
        (held_on bus.old) (held_on bus.new) }
    ensures refused { result ≢ done → out.new ≡ out.old }
{
    if !bus.handle.is_open() {
        return CLOSED;
    }
    if groups == 0 || groups > 10_000 {
        return GROUPS_RANGE;
    }
    match bus.handle.seal.as_mut().recessive(groups as u16) {
        Ok(made) => {
            *out = state_number(made.after.counters.state());
            DONE
        }
        Err(_) => BUSY,
    }
}

/// Reads the interrupt value: 0x8000 the status interrupt, else the first object with IntPnd, or 0.
#[unsafe(no_mangle)]
pub extern "C" fn ccan_bus_interrupt(bus: &mut BusHandle, out: &mut u16) -> u32
    ensures call { BusCallDoes (bus_call.interrupt result out.new)
        (held_on bus.old) (held_on bus.new) }
    ensures refused { result ≢ done → out.new ≡ out.old }
{
    if !bus.handle.is_open() {
        return CLOSED;
    }
    let (_, value) = bus.handle.seal.as_mut().interrupt_value();
    *out = value;
    DONE
}

/// Reads a flag of all objects in one moment, that of object k in bit k - 1.
#[unsafe(no_mangle)]
pub extern "C" fn ccan_bus_flags(bus: &mut BusHandle, flag: u32, out: &mut u64) -> u32
    ensures call { BusCallDoes (bus_call.flags flag result out.new)
        (held_on bus.old) (held_on bus.new) }
    ensures refused { result ≢ done → out.new ≡ out.old }
{
    if !bus.handle.is_open() {
        return CLOSED;
    }
    let Some(flag) = flag_numbered(flag) else {
        return FLAG_RANGE;
    };
    *out = bus.handle.seal.as_mut().flags(flag);
    DONE
}

/// Reads the error counters of a node, node 0 being the controller.
#[unsafe(no_mangle)]
pub extern "C" fn ccan_counters(bus: &mut BusHandle, node: u32, out: &mut ShownCounters) -> u32
    ensures call { BusCallDoes (bus_call.counters node result out.new)
        (held_on bus.old) (held_on bus.new) }
    ensures refused { result ≢ done → out.new ≡ out.old }
{
    if !bus.handle.is_open() {
        return CLOSED;
    }
    let held = bus.handle.seal.as_mut();
    if node > u32::from(held.nodes) {
        return NODE_RANGE;
    }
    *out = ShownCounters::of(&held.count(node as u8));
    DONE
}

/// Plays a round: the frames that other nodes offer contend with the controller's, and the winner's is spoiled by a fault, if
/// there is one.
#[unsafe(no_mangle)]
pub extern "C" fn ccan_round(
    bus: &mut BusHandle,
    offers: &[Offer],
    fault: u32,
    out: &mut ShownOutcome,
) -> u32
    ensures call { BusCallDoes (bus_call.round offers.now fault result out.new)
        (held_on bus.old) (held_on bus.new) }
    ensures refused { (result ≢ done) → (result ≢ busy) → (result ≢ spent) → out.new ≡ out.old }
{
    if !bus.handle.is_open() {
        return CLOSED;
    }
    if offers.len() > MAX_FRAMES {
        return FRAMES_RANGE;
    }
    let Some(sends) = read_offers(offers) else {
        return FRAME_RANGE;
    };
    let Some(fault) = fault_numbered(fault) else {
        return FAULT_RANGE;
    };
    match bus.handle.seal.as_mut().play(sends, fault) {
        Some(report) => {
            *out = ShownOutcome::of(&report);
            code_of_round(&report)
        }
        None => SENDERS,
    }
}

/// As `ccan_read8`, by the thread of the bus.
#[unsafe(no_mangle)]
pub extern "C" fn ccan_bus_read8(bus: &mut BusHandle, offset: u32, out: &mut u8) -> u32
    ensures call { BusCallDoes (bus_call.read8 offset result out.new)
        (held_on bus.old) (held_on bus.new) }
    ensures refused { result ≢ done → out.new ≡ out.old }
{
    if !bus.handle.is_open() {
        return CLOSED;
    }
    let told = bus.handle.seal.as_mut().read_byte(offset);
    read_byte_out(&told, out)
}

/// As `ccan_write8`, by the thread of the bus.
#[unsafe(no_mangle)]
pub extern "C" fn ccan_bus_write8(bus: &mut BusHandle, offset: u32, value: u8) -> u32
    ensures { BusCallDoes (bus_call.write8 offset value result)
        (held_on bus.old) (held_on bus.new) }
{
    if !bus.handle.is_open() {
        return CLOSED;
    }
    let told = bus.handle.seal.as_mut().write_byte(offset, value);
    code_of_offset(&told)
}

/// As `ccan_read16`, by the thread of the bus.
#[unsafe(no_mangle)]
pub extern "C" fn ccan_bus_read16(bus: &mut BusHandle, offset: u32, out: &mut u16) -> u32
    ensures call { BusCallDoes (bus_call.read16 offset result out.new)
        (held_on bus.old) (held_on bus.new) }
    ensures refused { result ≢ done → out.new ≡ out.old }
{
    if !bus.handle.is_open() {
        return CLOSED;
    }
    let told = bus.handle.seal.as_mut().read(offset);
    read_out(&told, out)
}

/// As `ccan_write16`, by the thread of the bus.
#[unsafe(no_mangle)]
pub extern "C" fn ccan_bus_write16(bus: &mut BusHandle, offset: u32, value: u16) -> u32
    ensures { BusCallDoes (bus_call.write16 offset value result)
        (held_on bus.old) (held_on bus.new) }
{
    if !bus.handle.is_open() {
        return CLOSED;
    }
    let told = bus.handle.seal.as_mut().write(offset, value);
    code_of_offset(&told)
}

/// As `ccan_line`, by the thread of the bus.
#[unsafe(no_mangle)]
pub extern "C" fn ccan_bus_line(bus: &mut BusHandle, out: &mut u32) -> u32
    ensures call { BusCallDoes (bus_call.line result out.new)
        (held_on bus.old) (held_on bus.new) }
    ensures refused { result ≢ done → out.new ≡ out.old }
{
    if !bus.handle.is_open() {
        return CLOSED;
    }
    *out = number_of(bus.handle.seal.as_mut().line());
    DONE
}

/// Reads the word of 32 bits at an offset, in bytes from where the chip begins: its lower half and then its upper one, or both
/// at one moment, if they are of one flag, or the bit timing, or those of CAN Control.
#[unsafe(no_mangle)]
pub extern "C" fn ccan_bus_read32(bus: &mut BusHandle, offset: u32, out: &mut u32) -> u32
    ensures call { BusCallDoes (bus_call.read32 offset result out.new)
        (held_on bus.old) (held_on bus.new) }
    ensures refused { result ≢ done → out.new ≡ out.old }
{
    if !bus.handle.is_open() {
        return CLOSED;
    }
    let told = bus.handle.seal.as_mut().read_word(offset);
    read_word_out(&told, out)
}

/// Writes the word of 32 bits at an offset, in bytes from where the chip begins: its upper half and then its lower one, or both
/// at one moment, if they are the bit timing or those of CAN Control.
#[unsafe(no_mangle)]
pub extern "C" fn ccan_bus_write32(bus: &mut BusHandle, offset: u32, value: u32) -> u32
    ensures { BusCallDoes (bus_call.write32 offset value result)
        (held_on bus.old) (held_on bus.new) }
{
    if !bus.handle.is_open() {
        return CLOSED;
    }
    let told = bus.handle.seal.as_mut().write_word(offset, value);
    code_of_offset(&told)
}
