use ccan_object::{CommandMask, ObjectNo, Record};
use ccan_ram::Change;

/// A transfer that a host makes at its interface registers (User's Manual, section 4.2.1).
#[derive(Clone, Copy, PartialEq, Eq, Debug)]
pub struct Transfer {
    /// The object of its Command Request.
    pub object: ObjectNo,
    /// Its Command Mask.
    pub command: CommandMask,
    /// The message buffer.
    pub buffer: Record,
}

impl Transfer {
    ghost use Rattle.std.specs.Prelude.{◌≡◌};
    ghost use Rattle.test_contended.specs.Transfer.{change_of};

    /// The change that it makes: a write of the buffer, or a read that clears what the command says.
    pub fn change(&self) -> Change
        ensures { result ≡ change_of self.now }
    {
        if self.command.is_write() {
            Change::Write(self.command, self.buffer)
        } else {
            Change::Clear(self.command)
        }
    }
}
