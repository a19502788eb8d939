//! Reads and writes of one byte of a register.
ghost use Rattle.std.specs.Prelude.{◌≡◌};
ghost use Rattle.ccan_ram.specs.declared.port.PortName.TheVariants.{Bus as BusPort};
ghost use Rattle.ccan_registers.specs.Bytes as says;
ghost use Rattle.ccan_registers.specs.Bytes.{ReadsByte, ResetsInInit, WritesByte, WritesLower, WritesTimingByte, WritesUpper};
ghost use Rattle.ccan_registers.specs.ChipSteps.{ChipGoes};
ghost use Rattle.ccan_registers.specs.Register.{at_register};

use crate::access_error::AccessError;
use crate::byte::Byte;
use crate::controller::look;
use crate::interface_set::InterfaceSet;
use crate::offset_error::OffsetError;
use crate::registers::{at_offset, is_own, read_at, write};
use crate::resetting::reset;
use ccan_chip::{ChipPort, Map, Register};
use ccan_confine::ControllerChange;

// ---- reads

/// The byte of the word that a read answered.
fn byte_told(byte: Byte, word: Result<u16, OffsetError>) -> Result<u8, OffsetError>
    ensures { at_register result ≡ says.byte_told byte (at_register word) }
{
    match word {
        Ok(word) => Ok(byte.of(word)),
        Err(why) => Err(why),
    }
}

/// Reads the byte at an offset, in bytes from where the chip begins: its register is read, by 16 bits. There is no register if
/// the byte is of none.
pub fn read_byte(own: &InterfaceSet, chip: &mut ChipPort, offset: u32) -> Result<u8, OffsetError>
    ensures settings { chip.new.settings ≡ chip.old.settings }
    ensures goes { ChipGoes chip.old.port chip.new.port (λ terms seen added.
        ReadsByte terms chip.old.settings.tries chip.old.settings.map offset own.now seen added
        (at_register result)) }
{
    let word = read_at(own, chip, offset - offset % 2);
    byte_told(Byte::at(offset), word)
}

// ---- writes

/// Writes a byte of Bit Timing: the register, with its other byte as a look at the controller shows it. If another port writes
/// the register in between, its write is lost.
fn write_timing_byte(
    own: &mut InterfaceSet,
    chip: &mut ChipPort,
    byte: Byte,
    value: u8,
) -> Result<(), AccessError>
    ensures settings { chip.new.settings ≡ chip.old.settings }
    ensures goes { ChipGoes chip.old.port chip.new.port (λ terms seen added.
        WritesTimingByte terms chip.old.settings.tries chip.old.settings.map byte value own.old
        seen added result own.new) }
    ensures bus { chip.old.port.pass.port ≡ BusPort → own.new ≡ own.old }
{
    let found = look(chip);
    let word = byte.set(value, found.timing.register());
    write(own, chip, Register::BitTiming, word)
}

/// Whether a write of the upper byte of Control has SWR, which only a D_CAN has.
fn has_reset(map: Map, value: u8) -> bool
    ensures { result ≡ says.has_reset map value }
{
    match map {
        Map::Narrow => false,
        Map::Wide => false,
        Map::Dcan => value >= 1 << 7,
    }
}

/// Resets the chip by software if a look at the controller shows Init.
fn reset_in_init(own: &InterfaceSet, chip: &mut ChipPort) -> Result<(), AccessError>
    ensures settings { chip.new.settings ≡ chip.old.settings }
    ensures goes { ChipGoes chip.old.port chip.new.port (λ terms seen added.
        ResetsInInit terms chip.old.settings.tries own.now seen added result own.now) }
{
    let found = look(chip);
    if found.control.init {
        reset(chip, &ControllerChange::ResetDcan)
    } else {
        Ok(())
    }
}

/// Writes the lower byte of a register. A register of the message buffer and the Command Mask register keep their upper byte; that
/// of the upper half of Control has no bits that can be written; of the others the upper byte is written as 0, since it has none.
/// That of a Command Request register starts the transfer.
fn write_lower(
    own: &mut InterfaceSet,
    chip: &mut ChipPort,
    register: Register,
    value: u8,
) -> Result<(), AccessError>
    ensures settings { chip.new.settings ≡ chip.old.settings }
    ensures goes { ChipGoes chip.old.port chip.new.port (λ terms seen added.
        WritesLower terms chip.old.settings.tries chip.old.settings.map register value own.old seen
        added result own.new) }
    ensures bus { chip.old.port.pass.port ≡ BusPort → own.new ≡ own.old }
{
    match register {
        Register::ControlUpper => Ok(()),
        Register::BitTiming => { write_timing_byte(own, chip, Byte::Lower, value) }
        Register::Buffer(_, reg) => {
            let word = Byte::Lower.set(value, own.registers.get(reg));
            write(own, chip, register, word)
        }
        Register::Control
        | Register::Status
        | Register::ErrorCounter
        | Register::Interrupt
        | Register::Test
        | Register::Extension
        | Register::Request(_)
        | Register::Flags(_, _) => { write(own, chip, register, u16::from(value)) }
    }
}

/// Writes the upper byte of a register. A register of the message buffer, the Command Mask register and Bit Timing keep their
/// lower byte. SWR of a D_CAN resets the chip if Init is 1, and that of the upper half of Control sets PDR. Of the others the
/// upper byte has no bits that can be written; that of a Command Request register starts no transfer.
fn write_upper(
    own: &mut InterfaceSet,
    chip: &mut ChipPort,
    register: Register,
    value: u8,
) -> Result<(), AccessError>
    ensures settings { chip.new.settings ≡ chip.old.settings }
    ensures goes { ChipGoes chip.old.port chip.new.port (λ terms seen added.
        WritesUpper terms chip.old.settings.tries chip.old.settings.map register value own.old seen
        added result own.new) }
    ensures bus { chip.old.port.pass.port ≡ BusPort → own.new ≡ own.old }
{
    match register {
        Register::Control if has_reset(chip.settings.map, value) => reset_in_init(own, chip),
        Register::ControlUpper => {
            let word = Byte::Upper.set(value, 0);
            write(own, chip, register, word)
        }
        Register::BitTiming => { write_timing_byte(own, chip, Byte::Upper, value) }
        Register::Request(interface) if !is_own(chip.name(), interface) => {
            Err(AccessError::OtherInterface)
        }
        Register::Buffer(_, reg) => {
            let word = Byte::Upper.set(value, own.registers.get(reg));
            write(own, chip, register, word)
        }
        Register::Control
        | Register::Status
        | Register::ErrorCounter
        | Register::Interrupt
        | Register::Test
        | Register::Extension
        | Register::Request(_)
        | Register::Flags(_, _) => Ok(()),
    }
}

/// Writes the byte at an offset, in bytes from where the chip begins. There is no register if the byte is of none.
pub fn write_byte(
    own: &mut InterfaceSet,
    chip: &mut ChipPort,
    offset: u32,
    value: u8,
) -> Result<(), OffsetError>
    ensures settings { chip.new.settings ≡ chip.old.settings }
    ensures goes { ChipGoes chip.old.port chip.new.port (λ terms seen added.
        WritesByte terms chip.old.settings.tries chip.old.settings.map offset value own.old seen
        added (at_register result) own.new) }
    ensures bus { chip.old.port.pass.port ≡ BusPort → own.new ≡ own.old }
{
    let start = offset - offset % 2;
    let Some(register) = chip.settings.map.register_at(chip.profile(), start) else {
        return Err(OffsetError::NoRegister);
    };
    match Byte::at(offset) {
        Byte::Lower => at_offset(write_lower(own, chip, register, value)),
        Byte::Upper => at_offset(write_upper(own, chip, register, value)),
    }
}
