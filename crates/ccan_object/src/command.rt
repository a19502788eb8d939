ghost use Rattle.std.specs.Prelude.{⊤, ◌≡◌, ◌==◌, ◌<◌, ◌^◌, [], ◌∷◌, codes};
ghost use Rattle.std.specs.Int.RustNames.{bit_and};

use crate::group::Group;
use bitflags::{Flag, Flags, bitflag_items};

/// What a transfer moves, and which way: the low byte of a Command Mask register (User's Manual, section 3.3.2).
///
/// ```text
///   bit   7      6     5    4        3          2              1       0
///         WR/RD  Mask  Arb  Control  ClrIntPnd  TxRqst/NewDat  Data A  Data B
/// ```
#[derive(Clone, Copy, PartialEq, Eq, Hash, Default, Debug)]
pub struct CommandMask(u8);

bitflag_items! {
    impl CommandMask: u8 {
        const WRITE = 128;
        const MASK = 64;
        const ARB = 32;
        const CONTROL = 16;
        const CLR_INT_PND = 8;
        const TXRQST_NEWDAT = 4;
        const DATA_A = 2;
        const DATA_B = 1;
    }
}

impl Flags for CommandMask {
    type Bits = u8;

    ghost exact = { ⊤ };

    ghost table = { (codes "WRITE", 128) ∷ (codes "MASK", 64) ∷ (codes "ARB", 32) ∷ (codes "CONTROL", 16)
        ∷ (codes "CLR_INT_PND", 8) ∷ (codes "TXRQST_NEWDAT", 4) ∷ (codes "DATA_A", 2) ∷ (codes "DATA_B", 1) ∷ [] };

    ghost set_of = { λ c. c.0 };

    fn flags<'a>() -> &'a [Flag<CommandMask>] {
        CommandMask::FLAGS
    }

    fn bits(&self) -> u8 {
        self.0
    }

    fn from_bits_retain(bits: u8) -> CommandMask {
        CommandMask(bits)
    }
}

#[tactic(auto, using(crate::proofs::Parts::parts))]
impl CommandMask {
    ghost use Rattle.ccan_object.specs.Command.{command_in, is_write, clears_intpnd, has_txrqst_newdat, is_pure_read};
    ghost use Rattle.ccan_object.specs.Group.{selects};

    /// The command in a Command Mask register, whose reserved bits 15 to 8 are dropped.
    pub fn of(register: u16) -> CommandMask
        ensures { result ≡ command_in register }
    {
        CommandMask((register % 256) as u8)
    }

    /// Whether it has all bits of a part. A method of its own, so that the prover goes from masks to places once.
    fn has(self, part: CommandMask) -> bool
        ensures { result ≡ (bit_and self.0 part.0 == part.0) }
    {
        self.contains(part)
    }

    /// Whether a transfer moves the fields of a group.
    pub fn selects(self, group: Group) -> bool
        ensures { result ≡ selects self group }
    {
        match group {
            Group::Mask => self.has(CommandMask::MASK),
            Group::Arb => self.has(CommandMask::ARB),
            Group::Control => self.has(CommandMask::CONTROL),
            Group::DataA => self.has(CommandMask::DATA_A),
            Group::DataB => self.has(CommandMask::DATA_B),
        }
    }

    /// Whether the object is written, and not read: bit 7, WR/RD.
    pub fn is_write(self) -> bool
        ensures { result ≡ is_write self }
    {
        self.has(CommandMask::WRITE)
    }

    /// Whether a read clears the pending interrupt: bit 3, ClrIntPnd.
    pub fn clears_intpnd(self) -> bool
        ensures { result ≡ clears_intpnd self }
    {
        self.has(CommandMask::CLR_INT_PND)
    }

    /// Whether a write requests a transmission, and a read clears the new data: bit 2, TxRqst/NewDat.
    pub fn has_txrqst_newdat(self) -> bool
        ensures { result ≡ has_txrqst_newdat self }
    {
        self.has(CommandMask::TXRQST_NEWDAT)
    }

    /// Whether it is a read that clears no flag.
    pub fn is_pure_read(self) -> bool
        ensures { result ≡ is_pure_read self }
    {
        !self.is_write() && !self.clears_intpnd() && !self.has_txrqst_newdat()
    }
}
