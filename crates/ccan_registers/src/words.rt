//! Reads and writes of two registers that make up a word of 32 bits.
ghost use Rattle.std.specs.Prelude.{◌≡◌, ◌+◌, ◌<◌, ◌*◌, ◌/◌, ◌%◌, ◌^◌, ◌⊎◌, true, false, IfNone, IfSome, Some};
ghost use Rattle.ccan_chip.specs.declared.flag_part.FlagPart.{FlagPart};
ghost use Rattle.ccan_ram.specs.declared.flag.Flag.{Flag};
ghost use Rattle.ccan_ram.specs.declared.port.PortName.TheVariants.{Bus as BusPort};
ghost use Rattle.ccan_confine.specs.declared.controller_change.ControllerChange.TheVariants.{WriteTiming};
ghost use Rattle.ccan_registers.specs.ChipSteps.{ChipGoes, Makes};
ghost use Rattle.ccan_registers.specs.Register as says;
ghost use Rattle.ccan_registers.specs.Dcan as part;
ghost use Rattle.ccan_registers.specs.Register.{AreControl, AreFlags, AreTiming, ReadsApart, ReadsControl, ReadsFlags};
ghost use Rattle.ccan_registers.specs.Register.{ReadsHalves, ReadsTiming, ReadsWord, WritesApart, at_register};
ghost use Rattle.ccan_registers.specs.Register.{WritesControl, WritesControlWord, WritesHalves, WritesTiming, WritesWord};

use crate::access_error::AccessError;
use crate::controller::look;
use crate::dcan::{asks_for_reset, control_shown, upper_shown};
use crate::interface_set::InterfaceSet;
use crate::objects::flags;
use crate::offset_error::OffsetError;
use crate::registers::{at_offset, read_at, write_at, write_controller};
use crate::resetting::reset;
use ccan_chip::{ChipPort, FlagPart, Map, Register};
use ccan_confine::{BitTiming, ControlRegister, ControllerChange};
use ccan_object::Profile;
use ccan_ram::Flag;

/// What comes of a read of a register.
type Read = Result<u16, OffsetError>;

/// What comes of a write.
type Written = Result<(), OffsetError>;

/// The halves of a word, the lower one first.
fn joined(low: Read, high: Read) -> Result<u32, OffsetError>
    ensures { at_register result ≡ says.joined (at_register low) (at_register high) }
{
    match (low, high) {
        (Err(OffsetError::NoRegister), Err(OffsetError::NoRegister)) => {
            Err(OffsetError::NoRegister)
        }
        (Err(OffsetError::NoRegister), Ok(high)) => Ok(u32::from(high) << 16),
        (Ok(low), Err(OffsetError::NoRegister)) => Ok(u32::from(low)),
        (Ok(low), Ok(high)) => Ok((u32::from(high) << 16) + u32::from(low)),
        (Err(OffsetError::Access(why)), _) => Err(OffsetError::Access(why)),
        (_, Err(OffsetError::Access(why))) => Err(OffsetError::Access(why)),
    }
}

/// Whether an access to one half of a word was refused.
fn is_refused<T: Copy>(told: &Result<T, OffsetError>) -> bool
    ensures { result ≡ says.is_refused (at_register told.now) }
{
    matches!(told, Err(OffsetError::Access(_)))
}

/// How both halves were written.
fn both_written(high: Written, low: Written) -> Written
    ensures { at_register result ≡ says.both_written (at_register high) (at_register low) }
{
    match low {
        Err(OffsetError::NoRegister) => high,
        Err(OffsetError::Access(_)) | Ok(()) => low,
    }
}

/// Reads the two halves of a word.
#[inline(never)]
fn read_halves(own: &InterfaceSet, chip: &mut ChipPort, offset: u32) -> Result<u32, OffsetError>
    requires small { offset + 2 < 2 ^ 32 }
    ensures settings { chip.new.settings ≡ chip.old.settings }
    ensures goes { ChipGoes chip.old.port chip.new.port (λ terms seen added.
        ReadsHalves terms chip.old.settings.tries chip.old.settings.map offset own.now seen added
        (at_register result)) }
{
    let low = read_at(own, chip, offset);
    if is_refused(&low) {
        return joined(low, Err(OffsetError::NoRegister));
    }
    let high = read_at(own, chip, offset + 2);
    joined(low, high)
}

/// The flag that a register shows, and of which objects. None: it shows no flag.
fn flag_shown(register: Option<Register>) -> Option<(Flag, FlagPart)>
    ensures some { IfSome result (λ r. register ≡ Some (Register.Flags r.0 r.1)) }
    ensures each { (flag : Flag) (part : FlagPart) → register ≡ Some (Register.Flags flag part)
        → result ≡ Some (flag, part) }
{
    match register? {
        Register::Flags(flag, part) => Some((flag, part)),
        Register::Control
        | Register::ControlUpper
        | Register::Status
        | Register::ErrorCounter
        | Register::BitTiming
        | Register::Interrupt
        | Register::Test
        | Register::Extension
        | Register::Request(_)
        | Register::Buffer(_, _) => None,
    }
}

/// The flag that both halves of the word at an offset are registers of, with the objects that the lower and the upper half show.
fn flags_at(map: Map, profile: Profile, offset: u32) -> Option<(Flag, FlagPart, FlagPart)>
    requires small { offset + 2 < 2 ^ 32 }
    ensures some { IfSome result (λ r. AreFlags map profile offset r.0 r.1 r.2) }
    ensures none { IfNone result ((flag : Flag) (low high : FlagPart)
        → AreFlags map profile offset flag low high → ⊥) }
{
    let (flag, low) = flag_shown(map.register_at(profile, offset))?;
    let (other, high) = flag_shown(map.register_at(profile, offset + 2))?;
    if flag == other {
        Some((flag, low, high))
    } else {
        None
    }
}

/// Whether the halves of the word at an offset are Bit Timing and BRP Extension.
fn is_timing(map: Map, profile: Profile, offset: u32) -> bool
    requires small { offset + 2 < 2 ^ 32 }
    ensures yes { result ≡ true → AreTiming map profile offset }
    ensures no { result ≡ false → AreTiming map profile offset → ⊥ }
{
    let lower = map.register_at(profile, offset);
    let upper = map.register_at(profile, offset + 2);
    matches!(
        (lower, upper),
        (Some(Register::BitTiming), Some(Register::Extension))
    )
}

/// Bit Timing and BRP Extension in one word, the former in its lower half.
fn timing_word(timing: BitTiming) -> u32
    ensures { result ≡ timing.extension * 2 ^ 16 + timing.register }
{
    (u32::from(timing.extension()) << 16) + u32::from(timing.register())
}

/// Whether the halves of the word at an offset are those of CAN Control.
fn is_control(map: Map, profile: Profile, offset: u32) -> bool
    requires small { offset + 2 < 2 ^ 32 }
    ensures yes { result ≡ true → AreControl map profile offset }
    ensures no { result ≡ false → AreControl map profile offset → ⊥ }
{
    let lower = map.register_at(profile, offset);
    let upper = map.register_at(profile, offset + 2);
    matches!(
        (lower, upper),
        (Some(Register::Control), Some(Register::ControlUpper))
    )
}

/// What CAN Control reads, with both its halves.
fn control_word(map: Map, control: &ControlRegister) -> u32
    ensures { result
        ≡ part.upper_shown map control.now * 2 ^ 16 + part.control_shown map control.now }
{
    (u32::from(upper_shown(map, control)) << 16) + u32::from(control_shown(map, control))
}

/// Reads the word of 32 bits at an offset that is a multiple of 4, if it is not one of flags.
fn read_other(own: &InterfaceSet, chip: &mut ChipPort, offset: u32) -> Result<u32, OffsetError>
    requires small { offset + 2 < 2 ^ 32 }
    requires other { (flag : Flag) (low high : FlagPart)
        → AreFlags chip.old.settings.map chip.old.port.pass.memory.profile offset flag low high → ⊥ }
    ensures settings { chip.new.settings ≡ chip.old.settings }
    ensures goes { ChipGoes chip.old.port chip.new.port (λ terms seen added.
        ReadsTiming terms chip.old.settings.map offset seen added (at_register result)
        ⊎ ReadsControl terms chip.old.settings.map offset seen added (at_register result)
        ⊎ ReadsApart terms chip.old.settings.tries chip.old.settings.map offset own.now seen added
        (at_register result)) }
{
    if is_timing(chip.settings.map, chip.profile(), offset) {
        return Ok(timing_word(look(chip).timing));
    }
    if is_control(chip.settings.map, chip.profile(), offset) {
        return Ok(control_word(chip.settings.map, &look(chip).control));
    }
    read_halves(own, chip, offset)
}

/// Reads the word of 32 bits at an offset that is a multiple of 4.
fn read_aligned(own: &InterfaceSet, chip: &mut ChipPort, offset: u32) -> Result<u32, OffsetError>
    requires small { offset + 2 < 2 ^ 32 }
    ensures settings { chip.new.settings ≡ chip.old.settings }
    ensures goes { ChipGoes chip.old.port chip.new.port (λ terms seen added.
        ReadsFlags terms chip.old.settings.map offset seen added (at_register result)
        ⊎ ReadsTiming terms chip.old.settings.map offset seen added (at_register result)
        ⊎ ReadsControl terms chip.old.settings.map offset seen added (at_register result)
        ⊎ ReadsApart terms chip.old.settings.tries chip.old.settings.map offset own.now seen added
        (at_register result)) }
{
    match flags_at(chip.settings.map, chip.profile(), offset) {
        Some((flag, low, high)) => {
            let word = flags(chip, flag);
            Ok((u32::from(high.of(word)) << 16) + u32::from(low.of(word)))
        }
        None => read_other(own, chip, offset),
    }
}

/// Reads the word of 32 bits at an offset, in bytes from where the chip begins. If both halves are registers of one flag, or Bit
/// Timing and BRP Extension, or those of CAN Control, it is of one moment; otherwise its lower half is read, and then its upper one.
/// A half without a register reads 0. There is no register if the offset is not a multiple of 4, or neither half has a register.
pub fn read_word(own: &InterfaceSet, chip: &mut ChipPort, offset: u32) -> Result<u32, OffsetError>
    ensures settings { chip.new.settings ≡ chip.old.settings }
    ensures goes { ChipGoes chip.old.port chip.new.port (λ terms seen added.
        ReadsWord terms chip.old.settings.tries chip.old.settings.map offset own.now seen added
        (at_register result)) }
{
    if offset % 4 != 0 {
        return Err(OffsetError::NoRegister);
    }
    read_aligned(own, chip, offset)
}

/// Writes the two halves of a word.
#[inline(never)]
fn write_halves(own: &mut InterfaceSet, chip: &mut ChipPort, offset: u32, value: u32) -> Written
    requires small { offset + 2 < 2 ^ 32 }
    ensures settings { chip.new.settings ≡ chip.old.settings }
    ensures goes { ChipGoes chip.old.port chip.new.port (λ terms seen added.
        WritesHalves terms chip.old.settings.tries chip.old.settings.map offset value own.old seen
        added (at_register result) own.new) }
    ensures bus { chip.old.port.pass.port ≡ BusPort → own.new ≡ own.old }
{
    let upper = (value >> 16) as u16;
    let lower = (value % (1 << 16)) as u16;
    let high = write_at(own, chip, offset + 2, upper);
    if is_refused(&high) {
        return high;
    }
    let low = write_at(own, chip, offset, lower);
    both_written(high, low)
}

/// Writes Bit Timing and BRP Extension by one change of the controller.
fn write_timing(chip: &mut ChipPort, value: u32) -> Result<(), AccessError>
    ensures settings { chip.new.settings ≡ chip.old.settings }
    ensures goes { ChipGoes chip.old.port chip.new.port (λ terms seen added.
        Makes terms (WriteTiming (value % 2 ^ 16) (value / 2 ^ 16)) chip.old.settings.tries seen
        added result) }
{
    let register = (value % (1 << 16)) as u16;
    let extension = (value >> 16) as u16;
    write_controller(chip, &ControllerChange::WriteTiming(register, extension))
}

/// Writes CAN Control by one change of the controller, or resets the chip by software if the lower half asks for it.
fn write_control(own: &InterfaceSet, chip: &mut ChipPort, value: u32) -> Result<(), AccessError>
    ensures settings { chip.new.settings ≡ chip.old.settings }
    ensures goes { ChipGoes chip.old.port chip.new.port (λ terms seen added.
        WritesControlWord terms chip.old.settings.tries chip.old.settings.map value own.now seen
        added result own.now) }
{
    if asks_for_reset(
        chip.settings.map,
        Register::Control,
        (value % (1 << 16)) as u16,
    ) {
        return reset(chip, &ControllerChange::ResetDcan);
    }
    let written = ControlRegister::of_word(value);
    write_controller(chip, &ControllerChange::WriteControl(written))
}

/// Writes the word of 32 bits at an offset that is a multiple of 4.
fn write_aligned(own: &mut InterfaceSet, chip: &mut ChipPort, offset: u32, value: u32) -> Written
    requires small { offset + 2 < 2 ^ 32 }
    ensures settings { chip.new.settings ≡ chip.old.settings }
    ensures goes { ChipGoes chip.old.port chip.new.port (λ terms seen added.
        WritesTiming terms chip.old.settings.tries chip.old.settings.map offset value own.old seen
        added (at_register result) own.new
        ⊎ WritesControl terms chip.old.settings.tries chip.old.settings.map offset value own.old
        seen added (at_register result) own.new
        ⊎ WritesApart terms chip.old.settings.tries chip.old.settings.map offset value own.old seen
        added (at_register result) own.new) }
    ensures bus { chip.old.port.pass.port ≡ BusPort → own.new ≡ own.old }
{
    if is_timing(chip.settings.map, chip.profile(), offset) {
        return at_offset(write_timing(chip, value));
    }
    if is_control(chip.settings.map, chip.profile(), offset) {
        return at_offset(write_control(own, chip, value));
    }
    write_halves(own, chip, offset, value)
}

/// Writes the word of 32 bits at an offset, in bytes from where the chip begins. If its halves are Bit Timing and BRP Extension,
/// or those of CAN Control, that is one change of the controller, unless it asks for a software reset. Otherwise its upper half
/// is written, and then its lower one, so that a command of a D_CAN is there before its request. A half without a register drops
/// its bits. There is no register if the offset is not a multiple of 4, or neither half has a register.
pub fn write_word(own: &mut InterfaceSet, chip: &mut ChipPort, offset: u32, value: u32) -> Written
    ensures settings { chip.new.settings ≡ chip.old.settings }
    ensures goes { ChipGoes chip.old.port chip.new.port (λ terms seen added.
        WritesWord terms chip.old.settings.tries chip.old.settings.map offset value own.old seen
        added (at_register result) own.new) }
    ensures bus { chip.old.port.pass.port ≡ BusPort → own.new ≡ own.old }
{
    if offset % 4 != 0 {
        return Err(OffsetError::NoRegister);
    }
    write_aligned(own, chip, offset, value)
}
