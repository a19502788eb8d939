ghost use Rattle.std.specs.Prelude.{◌≡◌, ◌+◌, ◌<◌, ◌^◌, ◌↔◌, IsSome, IfSome};
ghost use Rattle.ccan_object.specs.Bits.{at, part};

use std::marker::Model;

/// The 29 bits of a message identifier, or of an identifier mask. Contracts see the number.
///
/// An extended identifier takes all of them, a standard one the upper eleven, ID28 to ID18 (User's Manual, section 3.3.4).
#[derive(Clone, Copy, PartialEq, Eq, PartialOrd, Ord, Hash, Default, Debug)]
pub struct Identifier {
    bits: u32,
}

impl Model for Identifier {
    ghost use Rattle.std.specs.Prelude.{ℕ, ◌<◌, ◌^◌};

    ghost Value = { ℕ };

    ghost view = { λ a. a.bits };

    ghost invariant = { λ a. a.bits < 2 ^ 29 };

    ghost inverse = { λ n. record { bits = n } };
}

impl Identifier {
    /// The identifier of these bits, if there are no more than 29.
    pub fn new(bits: u32) -> Option<Identifier>
        ensures known { IsSome result ↔ (bits < 2 ^ 29) }
        ensures bits { IfSome result (λ identifier. identifier ≡ bits) }
    {
        if bits < 1 << 29 {
            Some(Identifier { bits })
        } else {
            None
        }
    }

    /// The low 29 bits of a word.
    pub fn of(word: u32) -> Identifier
        ensures { result ≡ part word 0 29 }
    {
        Identifier {
            bits: word % (1 << 29),
        }
    }

    /// No bit set.
    pub fn zero() -> Identifier
        ensures { result ≡ 0 }
    {
        Identifier { bits: 0 }
    }

    /// Its bits, bit 0 of the identifier lowest.
    pub fn get(self) -> u32
        ensures bits { result ≡ self }
        ensures within { result < 2 ^ 29 }
    {
        self.bits
    }

    /// The identifier with bits 15 to 0 replaced.
    pub fn with_low_half(self, half: u16) -> Identifier
        ensures { result ≡ at 16 (part self 16 13) + part half 0 16 }
    {
        Identifier {
            bits: (self.bits >> 16 << 16) + u32::from(half),
        }
    }

    /// The identifier with bits 28 to 16 replaced by the low 13 bits of the half.
    pub fn with_high_half(self, half: u16) -> Identifier
        ensures { result ≡ at 16 (part half 0 13) + part self 0 16 }
    {
        Identifier {
            bits: (u32::from(half) % (1 << 13) << 16) + self.bits % (1 << 16),
        }
    }
}
