ghost use Rattle.std.specs.Prelude.{◌≡◌};
ghost use Rattle.ccan_registers.specs.Bytes.{byte_in, byte_of, with_byte};

/// Which byte of a register of 16 bits. The lower one is at the offset at which the register begins, and the upper one at the
/// next offset.
#[derive(Clone, Copy, PartialEq, Eq, Debug)]
pub enum Byte {
    /// Bits 0 to 7.
    Lower,
    /// Bits 8 to 15.
    Upper,
}

impl Byte {
    /// The byte that is at this offset.
    #[inline(always)]
    pub fn at(offset: u32) -> Byte
        ensures { result ≡ byte_in offset }
    {
        if offset % 2 == 0 {
            Byte::Lower
        } else {
            Byte::Upper
        }
    }

    /// This byte of a word.
    #[inline(always)]
    pub fn of(self, word: u16) -> u8
        ensures { result ≡ byte_of self word }
    {
        match self {
            Byte::Lower => (word % (1 << 8)) as u8,
            Byte::Upper => (word >> 8) as u8,
        }
    }

    /// A word with this byte of it set, and the other one as it was.
    #[inline(always)]
    pub fn set(self, value: u8, word: u16) -> u16
        ensures { result ≡ with_byte self value word }
    {
        match self {
            Byte::Lower => (word >> 8 << 8) + u16::from(value),
            Byte::Upper => (u16::from(value) << 8) + word % (1 << 8),
        }
    }
}
