//! What a D_CAN does differently from a C_CAN (Texas Instruments AM335x Technical Reference Manual, chapter DCAN).
ghost use Rattle.std.specs.Prelude.{◌≡◌, false, true, IfNone, IfSome};
ghost use Rattle.ccan_object.specs.Profile.{Holds};
ghost use Rattle.ccan_ram.specs.declared.port.PortName.TheVariants.{Bus};
ghost use Rattle.ccan_endless.specs.Chip.{MayMake};
ghost use Rattle.ccan_registers.specs.ChipSteps.{ChipGoes};
ghost use Rattle.ccan_registers.specs.Dcan as says;
ghost use Rattle.ccan_registers.specs.Dcan.{Sends, is_object_of, number_in};

use crate::access_error::AccessError;
use crate::interface_set::InterfaceSet;
use ccan_chip::{ChipPort, Map, Register};
use ccan_confine::{ControlRegister, Controller, ControllerChange, TestRegister};
use ccan_object::{CommandMask, ObjectNo, Profile};
use ccan_ram::{Change, Changed, Refused, Tries};

// ---- registers of the controller

/// PMD of Control, bits 13 to 10: parity is off.
const NO_PARITY: u16 = 5 << 10;

/// The reset of the layout's part.
#[inline(always)]
pub fn reset_of(map: Map) -> ControllerChange
    ensures value { result ≡ says.reset_of map }
    ensures may { MayMake Bus result }
{
    match map {
        Map::Narrow => ControllerChange::Reset,
        Map::Wide => ControllerChange::Reset,
        Map::Dcan => ControllerChange::ResetDcan,
    }
}

/// PDR of the upper half of Control, bit 8: bit 24 of the whole.
const PDR: u16 = 1 << 8;

/// PDA of Error and Status, bit 10.
const PDA: u16 = 1 << 10;

/// What the low half of Control reads.
#[inline(always)]
pub(crate) fn control_shown(map: Map, control: &ControlRegister) -> u16
    ensures { result ≡ says.control_shown map control.now }
{
    match map {
        Map::Narrow => control.word(),
        Map::Wide => control.word(),
        Map::Dcan => NO_PARITY + control.word(),
    }
}

/// What the upper half of Control reads. A C_CAN has none.
#[inline(always)]
pub(crate) fn upper_shown(map: Map, control: &ControlRegister) -> u16
    ensures { result ≡ says.upper_shown map control.now }
{
    match map {
        Map::Narrow => 0,
        Map::Wide => 0,
        Map::Dcan if control.pdr => PDR,
        Map::Dcan => 0,
    }
}

/// The bits of Control that a write of its low half sets.
#[inline(always)]
fn low_bits() -> ControlRegister
    ensures { result ≡ says.low_bits }
{
    ControlRegister {
        init: true,
        ie: true,
        sie: true,
        eie: true,
        dar: true,
        cce: true,
        test: true,
        pdr: false,
    }
}

/// A Control register in which all bits are 0, except PDR if it is on.
#[inline(always)]
fn pdr_bit(on: bool) -> ControlRegister
    ensures { result ≡ says.pdr_bit on }
{
    ControlRegister {
        init: false,
        ie: false,
        sie: false,
        eie: false,
        dar: false,
        cce: false,
        test: false,
        pdr: on,
    }
}

/// What a write of the low half of Control is to the controller: in a D_CAN PDR stays.
#[inline(always)]
pub(crate) fn control_written(map: Map, word: u16) -> ControllerChange
    ensures { result ≡ says.control_written map word }
{
    let written = ControlRegister::of_word(u32::from(word));
    match map {
        Map::Narrow => ControllerChange::WriteControl(written),
        Map::Wide => ControllerChange::WriteControl(written),
        Map::Dcan => ControllerChange::WriteControlBits(low_bits(), written),
    }
}

/// What a write of the upper half of Control is to the controller: PDR alone is set. A C_CAN has no upper half.
#[inline(always)]
pub(crate) fn upper_written(map: Map, word: u16) -> Option<ControllerChange>
    ensures { result ≡ says.upper_written map word }
{
    let on = (word >> 8) % 2 == 1;
    match map {
        Map::Narrow => None,
        Map::Wide => None,
        Map::Dcan => Some(ControllerChange::WriteControlBits(pdr_bit(true), pdr_bit(on))),
    }
}

/// What the Status register reads: in a D_CAN with PDA.
#[inline(always)]
pub(crate) fn status_shown(map: Map, found: &Controller) -> u16
    ensures { result ≡ says.status_shown map found.now }
{
    let word = found.status_word();
    match map {
        Map::Narrow => word,
        Map::Wide => word,
        Map::Dcan if found.is_powered_down() => PDA + word,
        Map::Dcan => word,
    }
}

/// What a write of Test sets.
#[inline(always)]
pub(crate) fn test_written(map: Map, word: u16) -> TestRegister
    ensures { result ≡ says.test_written map word }
{
    let written = TestRegister::of_word(word);
    match map {
        Map::Narrow => written,
        Map::Wide => written,
        Map::Dcan => TestRegister {
            basic: false,
            ..written
        },
    }
}

/// Whether a write asks for a software reset: a write of Control of a D_CAN does, with SWR and Init.
#[inline(always)]
pub(crate) fn asks_for_reset(map: Map, register: Register, word: u16) -> bool
    ensures { result ≡ says.asks_for_reset map register word }
{
    match map {
        Map::Narrow => false,
        Map::Wide => false,
        Map::Dcan => match register {
            Register::Control => word >= 1 << 15 && word % 2 == 1,
            Register::ControlUpper => false,
            Register::Status => false,
            Register::ErrorCounter => false,
            Register::BitTiming => false,
            Register::Interrupt => false,
            Register::Test => false,
            Register::Extension => false,
            Register::Request(_) => false,
            Register::Buffer(_, _) => false,
            Register::Flags(_, _) => false,
        },
    }
}

// ---- requests

/// Whether the command writes an object, and requests a transmission.
#[inline(always)]
pub(crate) fn is_sending(command: CommandMask) -> bool
    ensures { result ≡ says.is_sending command }
{
    command.is_write() && command.has_txrqst_newdat()
}

/// The object that a request names by its low eight bits, if there is one.
#[inline(always)]
pub(crate) fn object_named(profile: Profile, request: u16) -> Option<ObjectNo>
    ensures none { IfNone result (is_object_of profile (number_in request) ≡ false) }
    ensures some { IfSome result (λ object. (is_object_of profile (number_in request) ≡ true)
        × (object ≡ number_in request) × Holds profile object) }
{
    let number = (request % 256) as u8;
    if number == 0 || number > profile.objects() {
        return None;
    }
    ObjectNo::new(number)
}

/// Makes a transfer that requests a transmission. It sets NewDat of the object in addition to TxRqst, so that new data is sent
/// even if the frame of the object is on its way.
pub(crate) fn send(
    own: &mut InterfaceSet,
    chip: &mut ChipPort,
    object: ObjectNo,
    tries: Tries,
) -> Result<(), AccessError>
    requires held { Holds chip.old.port.pass.memory.profile object }
    ensures settings { chip.new.settings ≡ chip.old.settings }
    ensures goes { ChipGoes chip.old.port chip.new.port (λ terms seen added.
        Sends terms tries object own.old seen added result own.new) }
{
    own.asked = u16::from(object.get());
    let command = own.registers.command();
    let change = Change::Send(command, own.registers.buffer());
    match chip.change(object, &change, tries) {
        Ok(Changed::Done { after, .. }) => {
            own.registers.fill(command, &after);
            Ok(())
        }
        Ok(Changed::NotNow(_)) => unreachable!(),
        Err(Refused::Busy { .. }) => Err(AccessError::Busy),
        Err(Refused::Spent) => Err(AccessError::Spent),
    }
}
