//! Steps of a port at objects, as they are in the history of the chip.
ghost use Rattle.std.specs.Prelude.{◌≡◌};
ghost use Rattle.ccan_object.specs.Profile.{Holds};
ghost use Rattle.ccan_ram.specs.SharedRam.{passes_of};
ghost use Rattle.ccan_handler.specs.Moment.{AddsFlagsAtOnce, AddsInterruptAtOnce, IsFirstSet};
ghost use Rattle.ccan_handler.specs.Watch.{AddsWatch};
ghost use Rattle.ccan_endless.specs.ChipPort.{AddsNone, SeesOne};
ghost use Rattle.ccan_endless.specs.Layout.{same_object};
ghost use Rattle.ccan_registers.specs.ChipSteps.{ChipGoes};
ghost use Rattle.ccan_registers.specs.Objects.{ShowsFlags, ShowsInterrupt, ShowsObject, Transfers, WaitsFor, as_line};

use crate::transfer_answer::TransferAnswer;
use crate::transferring::transferred;
use ccan_chip::ChipPort;
use ccan_object::{Iface, ObjectNo, Record};
use ccan_ram::Flag;

/// The interrupt value of the status interrupt (User's Manual, section 3.4.1).
const STATUS_INTERRUPT: u16 = 0x8000;

// ---- in the history of the objects

/// Looks at an object until it shows the flag, at most so many times. Whether it did.
#[inline(always)]
fn watched(chip: &mut ChipPort, object: ObjectNo, flag: Flag, turns: u32) -> bool
    requires held { Holds chip.old.port.pass.memory.profile object }
    requires one { SeesOne chip.old.port }
    ensures settings { chip.new.settings ≡ chip.old.settings }
    ensures none { AddsNone chip.old.port chip.new.port }
    ensures goes { AddsWatch (passes_of same_object chip.old.port.pass)
        (passes_of same_object chip.new.port.pass) object flag turns result }
{
    for turn in 0..turns {
        let shown = chip.look(object);
        if flag.of(&shown) {
            return true;
        }
    }
    false
}

/// A flag of all objects in one moment. Each flag has a look of its own, for which the compiler gathers no other flag.
#[inline(always)]
fn flags_shown(chip: &mut ChipPort, flag: Flag) -> u64
    ensures settings { chip.new.settings ≡ chip.old.settings }
    ensures none { AddsNone chip.old.port chip.new.port }
    ensures goes { AddsFlagsAtOnce (passes_of same_object chip.old.port.pass)
        (passes_of same_object chip.new.port.pass) flag result }
{
    match flag {
        Flag::NewDat => chip.look_all().newdat,
        Flag::MsgLst => chip.look_all().msglst,
        Flag::IntPnd => chip.look_all().intpnd,
        Flag::TxRqst => chip.look_all().txrqst,
        Flag::MsgVal => chip.look_all().msgval,
    }
}

/// The number of the lowest bit that is set, from 1 on; 0 if none is.
fn first_set(word: u64) -> u16
    ensures { IsFirstSet word result }
{
    if word == 0 {
        0
    } else {
        word.trailing_zeros() as u16 + 1
    }
}

/// The interrupt value of one moment.
#[inline(always)]
fn interrupt_shown(chip: &mut ChipPort, pending: bool) -> u16
    requires one { SeesOne chip.old.port }
    ensures settings { chip.new.settings ≡ chip.old.settings }
    ensures none { AddsNone chip.old.port chip.new.port }
    ensures goes { AddsInterruptAtOnce (passes_of same_object chip.old.port.pass)
        (passes_of same_object chip.new.port.pass) pending result }
{
    if pending {
        return STATUS_INTERRUPT;
    }
    first_set(chip.look_all().intpnd)
}

// ---- in the history of the chip

/// The transfer that the Command Mask register says, between these interface registers and the object that the Command Request
/// names.
#[inline(always)]
pub fn transfer(registers: &mut Iface, chip: &mut ChipPort, request: u16) -> TransferAnswer
    ensures settings { chip.new.settings ≡ chip.old.settings }
    ensures goes { ChipGoes chip.old.port chip.new.port (λ terms seen added.
        Transfers terms chip.old.settings.tries request registers.old seen added
        (as_line result) registers.new) }
{
    let object = ObjectNo::from_request(chip.profile(), request);
    let tries = chip.settings.tries;
    transferred(registers, chip, object, tries)
}

/// Looks at an object until it shows the flag, at most so many times. Whether it did.
#[inline(always)]
pub fn wait(chip: &mut ChipPort, object: ObjectNo, flag: Flag, turns: u32) -> bool
    requires held { Holds chip.old.port.pass.memory.profile object }
    ensures settings { chip.new.settings ≡ chip.old.settings }
    ensures goes { ChipGoes chip.old.port chip.new.port (λ terms seen added.
        WaitsFor terms object flag turns seen added result) }
{
    chip.sees_one_history();
    watched(chip, object, flag, turns)
}

/// A flag of all objects in one moment: that of object k in bit k - 1.
#[inline(never)]
pub fn flags(chip: &mut ChipPort, flag: Flag) -> u64
    ensures settings { chip.new.settings ≡ chip.old.settings }
    ensures goes { ChipGoes chip.old.port chip.new.port (λ terms seen added.
        ShowsFlags terms flag seen added result) }
{
    flags_shown(chip, flag)
}

/// The interrupt value of one moment: 0x8000 if the status interrupt is pending; else the number of the first object with IntPnd,
/// or 0.
#[inline(never)]
pub fn interrupt(chip: &mut ChipPort, pending: bool) -> u16
    ensures settings { chip.new.settings ≡ chip.old.settings }
    ensures goes { ChipGoes chip.old.port chip.new.port (λ terms seen added.
        ShowsInterrupt terms pending seen added result) }
{
    chip.sees_one_history();
    interrupt_shown(chip, pending)
}

/// One look at an object.
#[inline(always)]
pub fn peek(chip: &mut ChipPort, object: ObjectNo) -> Record
    requires held { Holds chip.old.port.pass.memory.profile object }
    ensures settings { chip.new.settings ≡ chip.old.settings }
    ensures goes { ChipGoes chip.old.port chip.new.port (λ terms seen added.
        ShowsObject terms object seen added result) }
{
    chip.look(object)
}
