ghost use Rattle.std.specs.Prelude.{◌≡◌};

use crate::access::Access;
use crate::change::{Change, Changed, Refused};
use crate::handler_registers::HandlerRegisters;
use crate::shared_ram::SharedRam;
use crate::tries::Tries;
use ccan_object::{ObjectNo, Profile, Record};

/// A port of a shared memory, as an access. What it has seen is what the port has seen.
#[derive(Drop)]
pub struct On<'a, R: SharedRam> {
    ram: &'a R,
    port: R::Port,
    ghost belongs: { (R.pass port).memory ≡ R.memory ram.now },
}

impl<'a, R: SharedRam> Access for On<'a, R> {
    ghost use Rattle.ccan_ram.specs.SharedRam.{passes_of};

    ghost passes = { λ on. passes_of R.contends (R.pass on.port) };

    fn profile(&self) -> Profile {
        self.ram.profile()
    }

    fn look(&mut self, object: ObjectNo) -> Record {
        self.ram.look(&mut self.port, object)
    }

    fn look_all(&mut self) -> HandlerRegisters {
        self.ram.look_all(&mut self.port)
    }

    fn change(
        &mut self,
        object: ObjectNo,
        change: &Change,
        tries: Tries,
    ) -> Result<Changed, Refused> {
        self.ram.change(&mut self.port, object, change, tries)
    }

    ghost legal = { λ on seen h. h.1.legal };

    ghost within = { λ on seen port h. h.1.within port };
}

impl<'a, R: SharedRam> On<'a, R> {
    /// The port as an access to its memory.
    pub fn new(ram: &'a R, port: R::Port) -> On<'a, R>
        requires { (R.pass port).memory ≡ R.memory ram.now }
        ensures port { result.port ≡ port }
        ensures ram { result.ram.now ≡ ram.now }
    {
        On { ram, port }
    }

    /// The port, with all that it has seen.
    pub fn into_port(self) -> R::Port
        ensures port { result ≡ self.entry.port }
        ensures memory { (R.pass result).memory ≡ R.memory self.entry.ram.now }
    {
        self.port
    }
}
