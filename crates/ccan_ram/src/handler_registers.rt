ghost use Rattle.std.specs.Prelude.{◌≡◌, ◌+◌, ◌<◌, ◌^◌};
ghost use Rattle.ccan_ram.specs.HandlerRegisters.{with_bit};

use crate::flag::Flag;
use ccan_object::{ObjectNo, Record};

/// The Message Handler Registers (User's Manual, section 3.4) as they are at one moment: in each word a flag of all
/// objects, that of object k in bit k - 1.
///
/// The part has NewDat, IntPnd, TxRqst and MsgVal, each in two registers. MsgLst of all objects is this project's own.
#[derive(Clone, Copy, PartialEq, Eq, Debug)]
pub struct HandlerRegisters {
    /// The objects with new data.
    pub newdat: u64,
    /// The objects that lost a message.
    pub msglst: u64,
    /// The objects that ask for an interrupt.
    pub intpnd: u64,
    /// The objects whose transmission is requested.
    pub txrqst: u64,
    /// The objects that take part.
    pub msgval: u64,
}

impl HandlerRegisters {
    ghost use Rattle.std.specs.Prelude.{◌≡◌, ◌+◌, ◌-◌, ◌<◌};
    ghost use Rattle.ccan_object.specs.Bits.{bit};
    ghost use Rattle.ccan_ram.specs.HandlerRegisters.{AreBelow, register_of, with_flags, zero_registers};

    /// The registers of a memory that is all zero.
    pub fn zero() -> HandlerRegisters
        ensures { result ≡ zero_registers }
    {
        HandlerRegisters {
            newdat: 0,
            msglst: 0,
            intpnd: 0,
            txrqst: 0,
            msgval: 0,
        }
    }

    /// The registers with the flags of one more object, in the bits at this place: object k has place k - 1.
    #[inline(always)]
    pub fn with_flags(self, place: u8, object: &Record) -> HandlerRegisters
        requires below { AreBelow place self }
        requires within { place < u64.BITS }
        ensures value { result ≡ with_flags place object.now self }
        ensures below { AreBelow (place + 1) result }
    {
        HandlerRegisters {
            newdat: with_bit(self.newdat, place, object.newdat),
            msglst: with_bit(self.msglst, place, object.msglst),
            intpnd: with_bit(self.intpnd, place, object.intpnd),
            txrqst: with_bit(self.txrqst, place, object.txrqst),
            msgval: with_bit(self.msgval, place, object.valid),
        }
    }

    /// The register of a flag.
    pub fn of(self, flag: Flag) -> u64
        ensures { result ≡ register_of flag self }
    {
        match flag {
            Flag::NewDat => self.newdat,
            Flag::MsgLst => self.msglst,
            Flag::IntPnd => self.intpnd,
            Flag::TxRqst => self.txrqst,
            Flag::MsgVal => self.msgval,
        }
    }

    /// Whether the flag of an object is set.
    pub fn shows(self, flag: Flag, object: ObjectNo) -> bool
        ensures { result ≡ bit (register_of flag self) (object - 1) }
    {
        (self.of(flag) >> (object.get() - 1)) % 2 == 1
    }
}

/// The word with a bit set above all its other bits, or left 0.
#[inline(always)]
pub fn with_bit(word: u64, place: u8, is_set: bool) -> u64
    requires below { word < 2 ^ place }
    requires within { place < u64.BITS }
    ensures value { result ≡ with_bit word place is_set }
    ensures below { result < 2 ^ (place + 1) }
{
    if is_set { word | 1 << place } else { word }
}
