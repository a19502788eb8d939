ghost use Rattle.std.specs.Prelude.{◌≡◌, ◌*◌};
ghost use Rattle.ccan_object.specs.Bits.{part};
ghost use Rattle.ccan_chip.specs.FlagPart.{index_of};

/// Which 16 objects a register of a flag shows (User's Manual, section 3.4): object k in bit (k - 1) % 16.
#[derive(Clone, Copy, PartialEq, Eq, PartialOrd, Ord, Hash, Debug)]
pub enum FlagPart {
    /// Objects 1 to 16.
    First,
    /// Objects 17 to 32.
    Second,
    /// Objects 33 to 48.
    Third,
    /// Objects 49 to 64.
    Fourth,
}

impl FlagPart {
    /// Those 16 bits of a flag word, in which object k has bit k - 1.
    #[inline(always)]
    pub fn of(self, word: u64) -> u16
        ensures { result ≡ part word (16 * index_of self) 16 }
    {
        ((word >> self.lowest_bit()) % (1 << 16)) as u16
    }

    /// The bit of a flag word that the first of them has.
    #[inline(always)]
    fn lowest_bit(self) -> u32
        ensures { result ≡ 16 * index_of self }
    {
        match self {
            FlagPart::First => 0,
            FlagPart::Second => 16,
            FlagPart::Third => 32,
            FlagPart::Fourth => 48,
        }
    }
}
