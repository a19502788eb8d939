use crate::register_set::RegisterSet;
use ccan_object::ObjectNo;
use ccan_ram::Flag;

/// A line of a host port.
#[derive(Drop)]
pub enum HostLine {
    /// Sets registers, then makes the transfer that the Command Mask register says, with the object of the request.
    Transfer {
        request: u16,
        set: RegisterSet,
    },
    /// Looks at an object until it shows the flag, at most this many times.
    Until {
        object: ObjectNo,
        flag: Flag,
        turns: u32,
    },
    /// Asks for the interrupt value.
    Interrupt,
    /// Asks for a flag of all objects.
    Flags(Flag),
}
