ghost use Rattle.std.specs.Prelude.{◌≡◌, ◌<◌};
ghost use Rattle.ccan_confine.specs.RegisterWords.{test_in, test_word};

use crate::bits::{bit, flag};

/// What a host writes into the Test register (C_CAN User's Manual 1.2, "Test Register"), without the bits of the pins.
/// Every bit is 0 in its `default`.
#[derive(Clone, Copy, Debug, Default, PartialEq, Eq, Hash)]
pub struct TestRegister {
    /// Basic, bit 2: IF1 is the transmit buffer and IF2 the receive buffer. It is stored and read back, nothing else.
    pub basic: bool,
    /// Silent, bit 3: the controller sends nothing onto the bus.
    pub silent: bool,
    /// LBack, bit 4: the controller receives what it sends itself.
    pub lback: bool,
}

impl TestRegister {
    /// The word of the register, by the places of its bits; the others are 0.
    #[inline(always)]
    pub fn word(&self) -> u16
        ensures word { result ≡ test_word self.now }
        ensures in_range { result < 32 }
    {
        (flag(self.lback, 4) + flag(self.silent, 3) + flag(self.basic, 2)) as u16
    }

    /// What a host writes into the register with this word. The bits of the pins and the reserved ones are dropped.
    #[inline(always)]
    pub fn of_word(word: u16) -> TestRegister
        ensures { result ≡ test_in word }
    {
        let word = u64::from(word);
        TestRegister {
            basic: bit(word, 2),
            silent: bit(word, 3),
            lback: bit(word, 4),
        }
    }
}
