ghost use Rattle.std.specs.Prelude.{◌≡◌};

use crate::shared::calls::used;
use ccan_object::{ObjectNo, Profile, Record};
use ccan_ram::{
    Access, Change, Changed, CommitError, HandlerRegisters, On, Refused, SharedRam, Tries,
};

/// An access to a shared memory whose tries are disturbed: between the two steps of each try of a change, another port
/// makes a change of its own at the same object.
#[derive(Drop)]
pub struct Contended<'a, R: SharedRam> {
    ram: &'a R,
    port: R::Port,
    rival: R::Port,
    write: Change,
    quota: u64,
    ghost belongs: { (R.pass port).memory ≡ R.memory ram.now },
    ghost beside: { (R.pass rival).memory ≡ R.memory ram.now },
    ghost quota_is: { quota ≡ (R.memory ram.now).quota },
}

impl<'a, R: SharedRam> Access for Contended<'a, R> {
    ghost use Rattle.ccan_ram.specs.SharedRam.{passes_of};

    ghost passes = { λ c. passes_of R.contends (R.pass c.port) };

    fn profile(&self) -> Profile {
        self.ram.profile()
    }

    fn look(&mut self, object: ObjectNo) -> Record {
        self.ram.look(&mut self.port, object)
    }

    fn look_all(&mut self) -> HandlerRegisters {
        self.ram.look_all(&mut self.port)
    }

    fn change(
        &mut self,
        object: ObjectNo,
        change: &Change,
        tries: Tries,
    ) -> Result<Changed, Refused> {
        if self.ram.used(&self.port) == self.quota {
            return Err(Refused::Spent);
        }
        let most = tries.get();
        let mut last = 0;
        for turn in 0..most {
            let draft = self.ram.prepare(&mut self.port, object);
            let write = self.write;
            let _ = self.ram.change(&mut self.rival, object, &write, tries);
            match self.ram.commit(&mut self.port, draft, change) {
                Ok(changed) => return Ok(changed),
                Err(CommitError::Lost { now }) => last = now,
                Err(CommitError::Spent) => return Err(Refused::Spent),
            }
        }
        Err(Refused::Busy {
            tries: most,
            now: last,
        })
    }

    ghost legal = { λ c seen h. h.1.legal };

    ghost within = { λ c seen port h. h.1.within port };
}

impl<'a, R: SharedRam> Contended<'a, R> {
    /// The port as an access that the rival disturbs by this change. The quota is the memory's.
    pub fn new(
        ram: &'a R,
        port: R::Port,
        rival: R::Port,
        write: Change,
        quota: u64,
    ) -> Contended<'a, R>
        requires port { (R.pass port).memory ≡ R.memory ram.now }
        requires rival { (R.pass rival).memory ≡ R.memory ram.now }
        requires quota { quota ≡ (R.memory ram.now).quota }
    {
        Contended {
            ram,
            port,
            rival,
            write,
            quota,
        }
    }

    /// How many changes the port and the rival have made.
    pub fn used(&self) -> (u64, u64) {
        (used(self.ram, &self.port), used(self.ram, &self.rival))
    }

    /// The port as an access that nobody disturbs.
    pub fn undisturbed(self) -> On<'a, R> {
        On::new(self.ram, self.port)
    }
}
