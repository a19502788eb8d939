ghost use Rattle.std.specs.Prelude.{◌≡◌, ◌<◌};
ghost use Rattle.ccan_confine.specs.RegisterWords.{control_in, control_with, control_word};

use crate::bits::{bit, flag};

/// The Control register (C_CAN User's Manual 1.2, "CAN Control Register"), with one bit more that only a D_CAN has. Every bit is 0
/// in its `default`.
#[derive(Clone, Copy, Debug, Default, PartialEq, Eq, Hash)]
pub struct ControlRegister {
    /// Init, bit 0: the controller takes no part in the traffic.
    pub init: bool,
    /// IE, bit 1: the interrupt line follows the Interrupt register.
    pub ie: bool,
    /// SIE, bit 2: the Interrupt register shows a status interrupt that a transfer or an error on the bus raised.
    pub sie: bool,
    /// EIE, bit 3: it shows one that a change of BOff or EWarn raised.
    pub eie: bool,
    /// DAR, bit 5: a frame that was not sent at the first try is not sent again.
    pub dar: bool,
    /// CCE, bit 6: with Init, the host may write the Bit Timing register.
    pub cce: bool,
    /// Test, bit 7: the Test register may be written.
    pub test: bool,
    /// PDR, bit 24, of a D_CAN alone: a host asks for local power down (Texas Instruments, AM335x Technical Reference Manual,
    /// chapter DCAN, "CAN Control Register").
    pub pdr: bool,
}

impl ControlRegister {
    /// The low word of the register, by the places of its bits; the others are 0. PDR is not in it.
    #[inline(always)]
    pub fn word(&self) -> u16
        ensures word { result ≡ control_word self.now }
        ensures in_range { result < 256 }
    {
        (flag(self.test, 7)
            + flag(self.cce, 6)
            + flag(self.dar, 5)
            + flag(self.eie, 3)
            + flag(self.sie, 2)
            + flag(self.ie, 1)
            + flag(self.init, 0)) as u16
    }

    /// The register that a host writes with this word. Its reserved bits are dropped. A word of 16 bits has no PDR.
    #[inline(always)]
    pub fn of_word(word: u32) -> ControlRegister
        ensures { result ≡ control_in word }
    {
        let word = u64::from(word);
        ControlRegister {
            init: bit(word, 0),
            ie: bit(word, 1),
            sie: bit(word, 2),
            eie: bit(word, 3),
            dar: bit(word, 5),
            cce: bit(word, 6),
            test: bit(word, 7),
            pdr: bit(word, 24),
        }
    }

    // The bits that are 1 in `which` as they are in `to`, and the others as they are.
    #[inline(always)]
    pub(crate) fn with(self, which: ControlRegister, to: ControlRegister) -> ControlRegister
        ensures { result ≡ control_with which to self }
    {
        ControlRegister {
            init: if which.init { to.init } else { self.init },
            ie: if which.ie { to.ie } else { self.ie },
            sie: if which.sie { to.sie } else { self.sie },
            eie: if which.eie { to.eie } else { self.eie },
            dar: if which.dar { to.dar } else { self.dar },
            cce: if which.cce { to.cce } else { self.cce },
            test: if which.test { to.test } else { self.test },
            pdr: if which.pdr { to.pdr } else { self.pdr },
        }
    }
}
