//! Reads and writes of the registers of a chip.
ghost use Rattle.std.specs.Prelude.{◌≡◌, true, false, Ok, Err, Some};
ghost use Rattle.ccan_object.specs.Interface.{set_register};
ghost use Rattle.ccan_chip.specs.declared.map.Map.TheVariants.{Dcan};
ghost use Rattle.ccan_ram.specs.declared.port.PortName.TheVariants.{Bus as BusPort};
ghost use Rattle.ccan_endless.specs.Chip.{MayMake};
ghost use Rattle.ccan_registers.specs.ChipSteps.{ChipGoes, Makes};
ghost use Rattle.ccan_registers.specs.Objects.{as_line};
ghost use Rattle.ccan_registers.specs.Register as says;
ghost use Rattle.ccan_registers.specs.Register.{InterruptValue, PullsLine, Reads, ReadsAt};
ghost use Rattle.ccan_registers.specs.Register.{ReadsStatus, Requests, RequestsBy, Writes, WritesAt, at_register};
ghost use Rattle.ccan_registers.specs.declared.access_error.AccessError.TheVariants.{OtherInterface};

use crate::access_error::AccessError;
use crate::controller::{change, look};
use crate::dcan::{
    asks_for_reset, control_shown, control_written, is_sending, object_named, send, status_shown,
    test_written, upper_shown, upper_written,
};
use crate::interface_set::InterfaceSet;
use crate::objects::{flags, interrupt};
use crate::offset_error::OffsetError;
use crate::resetting::reset;
use crate::transfer_answer::TransferAnswer;
use ccan_chip::{ChipPort, Interface, Map, Register};
use ccan_confine::{Controller, ControllerChange, StatusFlags, TestRegister};
use ccan_object::Reg;
use ccan_ram::PortName;

// ---- whose a register is

/// Whether the interface is the port's.
#[inline(always)]
pub(crate) fn is_own(port: PortName, interface: Interface) -> bool
    ensures { result ≡ says.is_own port interface }
{
    match interface {
        Interface::One => matches!(port, PortName::If1),
        Interface::Two => matches!(port, PortName::If2),
    }
}

// ---- registers of the controller

/// Rx of Test, bit 7: the bus is recessive.
const RECESSIVE: u16 = 1 << 7;

/// What Test reads.
#[inline(always)]
fn test_shown(test: &TestRegister) -> u16
    ensures { result ≡ says.test_shown test.now }
{
    RECESSIVE + test.word()
}

/// What a read of the Status register is to the controller.
#[inline(always)]
fn read_of(map: Map) -> ControllerChange
    ensures { result ≡ says.read_of map }
{
    match map {
        Map::Narrow => ControllerChange::ReadStatus,
        Map::Wide => ControllerChange::ReadStatus,
        Map::Dcan => ControllerChange::ReadAndClearStatus,
    }
}

/// Reads the Status register.
#[inline(never)]
pub fn read_status(chip: &mut ChipPort, map: Map) -> Result<u16, AccessError>
    ensures settings { chip.new.settings ≡ chip.old.settings }
    ensures goes { ChipGoes chip.old.port chip.new.port (λ terms seen added.
        ReadsStatus terms map chip.old.settings.tries seen added result) }
{
    let tries = chip.settings.tries;
    match change(chip, &read_of(map), tries) {
        Ok(made) => Ok(status_shown(map, &made.before)),
        Err(_) => Err(AccessError::Busy),
    }
}

/// Writes a register of the controller.
#[inline(never)]
pub fn write_controller(chip: &mut ChipPort, made: &ControllerChange) -> Result<(), AccessError>
    requires may { MayMake chip.old.port.pass.port made.now }
    ensures settings { chip.new.settings ≡ chip.old.settings }
    ensures goes { ChipGoes chip.old.port chip.new.port (λ terms seen added.
        Makes terms made.now chip.old.settings.tries seen added result) }
{
    let tries = chip.settings.tries;
    match change(chip, made, tries) {
        Ok(_) => Ok(()),
        Err(_) => Err(AccessError::Busy),
    }
}

/// The Interrupt register: 0x8000 for the status interrupt, else the number of the first object with IntPnd, or 0. It comes with
/// the controller that its look found.
#[inline(always)]
pub fn interrupt_value(chip: &mut ChipPort) -> (Controller, u16)
    ensures settings { chip.new.settings ≡ chip.old.settings }
    ensures goes { ChipGoes chip.old.port chip.new.port (λ terms seen added.
        InterruptValue terms seen added result.0 result.1) }
{
    let found = look(chip);
    let value = interrupt(chip, found.shows_status_interrupt());
    (found, value)
}

/// Whether the chip pulls its interrupt line: IE is 1, and the Interrupt register is not 0.
#[inline(always)]
pub fn line(chip: &mut ChipPort) -> bool
    ensures settings { chip.new.settings ≡ chip.old.settings }
    ensures goes { ChipGoes chip.old.port chip.new.port (λ terms seen added.
        PullsLine terms seen added result) }
{
    let (found, value) = interrupt_value(chip);
    found.control.ie && value != 0
}

// ---- reads

/// What a register of an interface reads, if the interface is the port's.
#[inline(always)]
fn read_own(port: PortName, interface: Interface, value: u16) -> Result<u16, AccessError>
    ensures own { says.is_own port interface ≡ true → result ≡ Ok value }
    ensures other { says.is_own port interface ≡ false → result ≡ Err OtherInterface }
{
    if is_own(port, interface) {
        Ok(value)
    } else {
        Err(AccessError::OtherInterface)
    }
}

/// Reads a register.
#[inline(never)]
pub fn read(own: &InterfaceSet, chip: &mut ChipPort, register: Register) -> Result<u16, AccessError>
    ensures settings { chip.new.settings ≡ chip.old.settings }
    ensures goes { ChipGoes chip.old.port chip.new.port (λ terms seen added.
        Reads terms chip.old.settings.tries chip.old.settings.map register own.now seen added
        result) }
{
    let map = chip.settings.map;
    match register {
        Register::Control => Ok(control_shown(map, &look(chip).control)),
        Register::ControlUpper => Ok(upper_shown(map, &look(chip).control)),
        Register::Status => read_status(chip, map),
        Register::ErrorCounter => Ok(look(chip).error_counter_word()),
        Register::BitTiming => Ok(look(chip).timing.register()),
        Register::Interrupt => Ok(interrupt_value(chip).1),
        Register::Test => Ok(test_shown(&look(chip).test)),
        Register::Extension => Ok(look(chip).timing.extension()),
        Register::Request(interface) => read_own(chip.name(), interface, own.asked),
        Register::Buffer(interface, reg) => {
            let value = own.registers.get(reg);
            read_own(chip.name(), interface, value)
        }
        Register::Flags(flag, part) => Ok(part.of(flags(chip, flag))),
    }
}

/// What an access to the register that begins at an offset answers.
#[inline(always)]
pub(crate) fn at_offset<T: Copy>(told: Result<T, AccessError>) -> Result<T, OffsetError>
    ensures { at_register result ≡ Some told }
{
    match told {
        Ok(value) => Ok(value),
        Err(why) => Err(OffsetError::Access(why)),
    }
}

/// Reads the register at an offset, in bytes from where the chip begins.
#[inline(always)]
pub fn read_at(own: &InterfaceSet, chip: &mut ChipPort, offset: u32) -> Result<u16, OffsetError>
    ensures settings { chip.new.settings ≡ chip.old.settings }
    ensures goes { ChipGoes chip.old.port chip.new.port (λ terms seen added.
        ReadsAt terms chip.old.settings.tries chip.old.settings.map offset own.now seen added
        (at_register result)) }
{
    match chip.settings.map.register_at(chip.profile(), offset) {
        // Nobody else has these, so they are read here, and not by the long way of what the ports share.
        Some(Register::Buffer(interface, reg)) => {
            let value = own.registers.get(reg);
            at_offset(read_own(chip.name(), interface, value))
        }
        Some(register) => at_offset(read(own, chip, register)),
        None => Err(OffsetError::NoRegister),
    }
}

// ---- writes

/// What a transfer answers.
fn transfer_told(reply: &TransferAnswer) -> Result<(), AccessError>
    ensures { result ≡ says.transfer_told (as_line reply.now) }
{
    match reply {
        TransferAnswer::Busy(_) => Err(AccessError::Busy),
        TransferAnswer::Spent(_) => Err(AccessError::Spent),
        TransferAnswer::Write(_, _) | TransferAnswer::Read(_, _) => Ok(()),
    }
}

/// Writes the Command Request register of the port's own interface.
#[inline(never)]
fn write_request(own: &mut InterfaceSet, chip: &mut ChipPort, value: u16) -> Result<(), AccessError>
    ensures settings { chip.new.settings ≡ chip.old.settings }
    ensures goes { ChipGoes chip.old.port chip.new.port (λ terms seen added.
        Requests terms chip.old.settings.tries value own.old seen added result own.new) }
{
    let reply = own.request(chip, value);
    transfer_told(&reply)
}

/// The request of a D_CAN: its number has eight bits, and if no object has it, nothing happens.
#[inline(never)]
fn write_request_of_dcan(
    own: &mut InterfaceSet,
    chip: &mut ChipPort,
    value: u16,
) -> Result<(), AccessError>
    ensures settings { chip.new.settings ≡ chip.old.settings }
    ensures goes { ChipGoes chip.old.port chip.new.port (λ terms seen added.
        RequestsBy Dcan terms chip.old.settings.tries value own.old seen added result own.new) }
{
    match object_named(chip.profile(), value) {
        Some(object) if is_sending(own.registers.command()) => {
            send(own, chip, object, chip.settings.tries)
        }
        Some(object) => write_request(own, chip, u16::from(object.get())),
        None => Ok(()),
    }
}

/// Writes the Command Request register of the port's own interface, as the layout's part has it.
#[inline(always)]
fn write_request_by(
    own: &mut InterfaceSet,
    chip: &mut ChipPort,
    value: u16,
) -> Result<(), AccessError>
    ensures settings { chip.new.settings ≡ chip.old.settings }
    ensures goes { ChipGoes chip.old.port chip.new.port (λ terms seen added.
        RequestsBy chip.old.settings.map terms chip.old.settings.tries value own.old seen added
        result own.new) }
{
    match chip.settings.map {
        Map::Narrow => write_request(own, chip, value),
        Map::Wide => write_request(own, chip, value),
        Map::Dcan => write_request_of_dcan(own, chip, value),
    }
}

/// Writes a register of the message buffer or the Command Mask register, if the interface is the port's.
#[inline(always)]
fn write_own(
    own: &mut InterfaceSet,
    port: PortName,
    interface: Interface,
    reg: Reg,
    value: u16,
) -> Result<(), AccessError>
    ensures own { says.is_own port interface ≡ true → (result ≡ Ok tt)
        × (own.new ≡ record own.old { registers = set_register reg value own.old.registers }) }
    ensures other { says.is_own port interface ≡ false → (result ≡ Err OtherInterface)
        × (own.new ≡ own.old) }
{
    if !is_own(port, interface) {
        return Err(AccessError::OtherInterface);
    }
    own.registers.set(reg, value);
    Ok(())
}

/// What a write of Status is to the controller: that of a D_CAN can only be read.
#[inline(always)]
fn status_written(map: Map, value: u16) -> Option<ControllerChange>
    ensures { result ≡ says.status_written map value }
{
    match map {
        Map::Narrow => Some(ControllerChange::WriteStatus(StatusFlags::of_word(value))),
        Map::Wide => Some(ControllerChange::WriteStatus(StatusFlags::of_word(value))),
        Map::Dcan => None,
    }
}

/// What a write of this word is to the controller, if the register is one that it has and that can be written.
#[inline(always)]
fn change_by(map: Map, register: Register, value: u16) -> Option<ControllerChange>
    ensures { result ≡ says.change_by map register value }
{
    match register {
        Register::Control => Some(control_written(map, value)),
        Register::ControlUpper => upper_written(map, value),
        Register::Status => status_written(map, value),
        Register::BitTiming => Some(ControllerChange::WriteBitTiming(value)),
        Register::Test => Some(ControllerChange::WriteTest(test_written(map, value))),
        Register::Extension => Some(ControllerChange::WriteExtension(value)),
        Register::ErrorCounter
        | Register::Interrupt
        | Register::Request(_)
        | Register::Buffer(_, _)
        | Register::Flags(_, _) => None,
    }
}

/// Writes a register.
#[inline(never)]
pub fn write(
    own: &mut InterfaceSet,
    chip: &mut ChipPort,
    register: Register,
    value: u16,
) -> Result<(), AccessError>
    ensures settings { chip.new.settings ≡ chip.old.settings }
    ensures goes { ChipGoes chip.old.port chip.new.port (λ terms seen added.
        Writes terms chip.old.settings.tries chip.old.settings.map register value own.old seen
        added result own.new) }
    ensures bus { chip.old.port.pass.port ≡ BusPort → own.new ≡ own.old }
{
    if asks_for_reset(chip.settings.map, register, value) {
        return reset(chip, &ControllerChange::ResetDcan);
    }
    if let Some(change) = change_by(chip.settings.map, register, value) {
        return write_controller(chip, &change);
    }
    match register {
        Register::Request(interface) if is_own(chip.name(), interface) => {
            write_request_by(own, chip, value)
        }
        Register::Request(_) => Err(AccessError::OtherInterface),
        Register::Buffer(interface, reg) => write_own(own, chip.name(), interface, reg, value),
        Register::Control
        | Register::ControlUpper
        | Register::Status
        | Register::ErrorCounter
        | Register::BitTiming
        | Register::Interrupt
        | Register::Test
        | Register::Extension
        | Register::Flags(_, _) => Ok(()),
    }
}

/// Writes the register at an offset, in bytes from where the chip begins.
#[inline(always)]
pub fn write_at(
    own: &mut InterfaceSet,
    chip: &mut ChipPort,
    offset: u32,
    value: u16,
) -> Result<(), OffsetError>
    ensures settings { chip.new.settings ≡ chip.old.settings }
    ensures goes { ChipGoes chip.old.port chip.new.port (λ terms seen added.
        WritesAt terms chip.old.settings.tries chip.old.settings.map offset value own.old seen
        added (at_register result) own.new) }
    ensures bus { chip.old.port.pass.port ≡ BusPort → own.new ≡ own.old }
{
    match chip.settings.map.register_at(chip.profile(), offset) {
        // As in `read_at`.
        Some(Register::Buffer(interface, reg)) => {
            at_offset(write_own(own, chip.name(), interface, reg, value))
        }
        Some(register) => at_offset(write(own, chip, register, value)),
        None => Err(OffsetError::NoRegister),
    }
}
