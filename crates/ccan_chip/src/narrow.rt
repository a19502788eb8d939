//! C_CAN with its registers of 16 bits side by side.
ghost use Rattle.std.specs.Prelude.{◌≡◌, IfSome};
ghost use Rattle.ccan_object.specs.declared.register.Reg.{Reg};
ghost use Rattle.ccan_chip.specs.declared.register.Register.{Register};
ghost use Rattle.ccan_chip.specs.Narrow.{buffer_place, narrow_offset, IsAtInterface, IsGeneral};
ghost use Rattle.ccan_chip.specs.Register.{IsInCcan};

use crate::flags;
use crate::interface::Interface;
use crate::register::Register;
use ccan_object::{Profile, Reg};
use ccan_ram::flag::Flag;

/// The register at an offset, of those that a chip has once.
#[inline(always)]
fn general_at(offset: u32) -> Option<Register>
    ensures some { IfSome result (λ r. (narrow_offset r ≡ offset) × IsGeneral r) }
    ensures each { (r : Register) → IsGeneral r → narrow_offset r ≡ offset → result ≡ Some r }
{
    match offset {
        0x00 => Some(Register::Control),
        0x02 => Some(Register::Status),
        0x04 => Some(Register::ErrorCounter),
        0x06 => Some(Register::BitTiming),
        0x08 => Some(Register::Interrupt),
        0x0a => Some(Register::Test),
        0x0c => Some(Register::Extension),
        _ => None,
    }
}

/// The Command Mask or message buffer register at a place, in bytes from where its interface begins.
#[inline(always)]
fn buffer_at(place: u32) -> Option<Reg>
    ensures some { IfSome result (λ register. buffer_place register ≡ place) }
    ensures each { (register : Reg) → buffer_place register ≡ place → result ≡ Some register }
{
    match place {
        0x02 => Some(Reg::CMask),
        0x04 => Some(Reg::Mask1),
        0x06 => Some(Reg::Mask2),
        0x08 => Some(Reg::Arb1),
        0x0a => Some(Reg::Arb2),
        0x0c => Some(Reg::Ctrl),
        0x0e => Some(Reg::DataA1),
        0x10 => Some(Reg::DataA2),
        0x12 => Some(Reg::DataB1),
        0x14 => Some(Reg::DataB2),
        _ => None,
    }
}

/// The register of an interface at a place, in bytes from where the interface begins.
#[inline(always)]
fn interface_at(interface: Interface, place: u32) -> Option<Register>
    ensures some { IfSome result (IsAtInterface interface place) }
    ensures each { (r : Register) → IsAtInterface interface place r → result ≡ Some r }
{
    if place == 0 {
        return Some(Register::Request(interface));
    }
    match buffer_at(place) {
        Some(register) => Some(Register::Buffer(interface, register)),
        None => None,
    }
}

/// The register at an offset, if a chip with this many objects has one there.
#[inline(always)]
pub fn register_at(profile: Profile, offset: u32) -> Option<Register>
    ensures some { IfSome result (λ r. (narrow_offset r ≡ offset) × IsInCcan profile r) }
    ensures each { (r : Register) → IsInCcan profile r → narrow_offset r ≡ offset
        → result ≡ Some r }
{
    match offset {
        0x00..=0x0c => general_at(offset),
        0x10..=0x24 => interface_at(Interface::One, offset - 0x10),
        0x40..=0x54 => interface_at(Interface::Two, offset - 0x40),
        0x80..=0x86 => flags::register_at(profile, Flag::TxRqst, offset - 0x80),
        0x90..=0x96 => flags::register_at(profile, Flag::NewDat, offset - 0x90),
        0xa0..=0xa6 => flags::register_at(profile, Flag::IntPnd, offset - 0xa0),
        0xb0..=0xb6 => flags::register_at(profile, Flag::MsgVal, offset - 0xb0),
        _ => None,
    }
}
