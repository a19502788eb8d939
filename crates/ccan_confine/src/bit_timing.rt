ghost use Rattle.std.specs.Prelude.{◌≡◌, ◌<◌, ◌^◌};
ghost use Rattle.ccan_confine.specs.BitTiming.{Timing, extension_bits, register_bits, timing_of};

use std::marker::Model;

/// The Bit Timing register and the BRP Extension register (C_CAN User's Manual 1.2, sections of these names), by the places of
/// their bits:
///
/// | register | bits | field |
/// |---|---|---|
/// | Bit Timing | 0 to 5 | BRP, the prescaler |
/// | Bit Timing | 6 and 7 | SJW, the synchronization jump width |
/// | Bit Timing | 8 to 11 | TSeg1, the time segment before the sample point |
/// | Bit Timing | 12 to 14 | TSeg2, the time segment after it |
/// | BRP Extension | 0 to 3 | BRPE, the bits of the prescaler above BRP |
///
/// Their other bits are reserved and 0. Contracts see the record of the two words.
#[derive(Clone, Copy, Debug, PartialEq, Eq, Hash)]
pub struct BitTiming {
    register: u16,
    extension: u16,
}

impl Model for BitTiming {
    ghost use Rattle.std.specs.Prelude.{◌<◌, ◌^◌};
    ghost use Rattle.ccan_confine.specs.BitTiming.{Timing, extension_bits, register_bits};

    ghost Value = { Timing };

    ghost view = { λ t. record { register = t.register; extension = t.extension } };

    ghost invariant = { λ t. (t.register < 2 ^ register_bits) × (t.extension < 2 ^ extension_bits) };

    // The fields back from the value: a `Copy` type with a model states it.
    ghost inverse = { λ t. record { register = t.register; extension = t.extension } };
}

impl BitTiming {
    /// These two words, without their reserved bits.
    #[inline(always)]
    pub fn new(register: u16, extension: u16) -> BitTiming
        ensures { result ≡ timing_of register extension }
    {
        BitTiming {
            register: register % (1 << 15),
            extension: extension % (1 << 4),
        }
    }

    /// The word of the Bit Timing register.
    #[inline(always)]
    pub fn register(self) -> u16
        ensures value { result ≡ self.register }
        ensures in_range { result < 2 ^ register_bits }
    {
        self.register
    }

    /// The word of the BRP Extension register.
    #[inline(always)]
    pub fn extension(self) -> u16
        ensures value { result ≡ self.extension }
        ensures in_range { result < 2 ^ extension_bits }
    {
        self.extension
    }

    /// With this word of the Bit Timing register, without its reserved bit.
    #[must_use]
    #[inline(always)]
    pub fn with_register(self, register: u16) -> BitTiming
        ensures { result ≡ timing_of register self.extension }
    {
        BitTiming::new(register, self.extension)
    }

    /// With this word of the BRP Extension register, without its reserved bits.
    #[must_use]
    #[inline(always)]
    pub fn with_extension(self, extension: u16) -> BitTiming
        ensures { result ≡ timing_of self.register extension }
    {
        BitTiming::new(self.register, extension)
    }
}
