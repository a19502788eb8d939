ghost use Rattle.std.specs.Prelude.{◌≡◌};

use crate::objects::transfer;
use crate::transfer_answer::TransferAnswer;
use ccan_chip::ChipPort;
use ccan_object::{Iface, ObjectNo, Reg};

/// What a host has of its own besides its port: the registers of its interface, IF1 or IF2 (User's Manual, section 3.3).
#[derive(Clone, Copy, PartialEq, Eq, Debug)]
pub struct InterfaceSet {
    /// The Command Mask register and the message buffer.
    pub registers: Iface,
    /// What the Command Request register reads: the number of the object that it named last. Busy, its bit 15, is never set
    /// when it is read, since a transfer is over when the write that starts it returns.
    pub asked: u16,
}

impl InterfaceSet {
    ghost use Rattle.ccan_registers.specs.ChipSteps.{ChipGoes};
    ghost use Rattle.ccan_registers.specs.Objects.{as_line};
    ghost use Rattle.ccan_registers.specs.InterfaceSet.{Transferred, reset_set, zero_set};

    /// Registers that read 0, except the Command Request register, which names object 1.
    pub fn new() -> InterfaceSet
        ensures { result ≡ zero_set }
    {
        InterfaceSet {
            registers: Iface::new(),
            asked: 1,
        }
    }

    /// The registers as they are after a reset: all bits of the masks are 1.
    pub fn reset() -> InterfaceSet
        ensures { result ≡ reset_set }
    {
        let mut set = InterfaceSet::new();
        set.registers.set(Reg::Mask1, 0xffff);
        set.registers.set(Reg::Mask2, 0xffff);
        set
    }

    /// Writes the Command Request register: the transfer that the Command Mask register says, with the object that the request
    /// names (User's Manual, section 3.3.1). If its change is refused, the message buffer stays as it was.
    #[inline(always)]
    pub fn request(&mut self, chip: &mut ChipPort, request: u16) -> TransferAnswer
        ensures settings { chip.new.settings ≡ chip.old.settings }
        ensures goes { ChipGoes chip.old.port chip.new.port (λ terms seen added.
            Transferred terms chip.old.settings.tries request self.old seen added
            (as_line result) self.new) }
    {
        let object = ObjectNo::from_request(chip.profile(), request);
        let answer = transfer(&mut self.registers, chip, request);
        self.asked = u16::from(object.get());
        answer
    }
}
