//! What the numbers of C stand for.
ghost use Rattle.std.specs.Prelude.{◌≡◌};
ghost use Rattle.ccan_c.specs.Host.{flag_numbered, number_of, register_numbered};

use ccan_object::Reg;
use ccan_ram::Flag;

/// The register of this number.
pub fn register_numbered(number: u32) -> Option<Reg>
    ensures { result ≡ register_numbered number }
{
    match number {
        0 => Some(Reg::CMask),
        1 => Some(Reg::Mask1),
        2 => Some(Reg::Mask2),
        3 => Some(Reg::Arb1),
        4 => Some(Reg::Arb2),
        5 => Some(Reg::Ctrl),
        6 => Some(Reg::DataA1),
        7 => Some(Reg::DataA2),
        8 => Some(Reg::DataB1),
        9 => Some(Reg::DataB2),
        _ => None,
    }
}

/// The flag of this number.
pub fn flag_numbered(number: u32) -> Option<Flag>
    ensures { result ≡ flag_numbered number }
{
    match number {
        0 => Some(Flag::NewDat),
        1 => Some(Flag::MsgLst),
        2 => Some(Flag::IntPnd),
        3 => Some(Flag::TxRqst),
        4 => Some(Flag::MsgVal),
        _ => None,
    }
}

/// 1 if it is so.
pub(crate) fn number_of(is: bool) -> u32
    ensures { result ≡ number_of is }
{
    if is { 1 } else { 0 }
}
