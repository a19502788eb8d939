ghost use Rattle.std.specs.Prelude.{◌≡◌, []};
ghost use Rattle.std.specs.Borrow.{GName};
ghost use Rattle.ccan_object.specs.declared.profile.Profile.TheVariants.{One};
ghost use Rattle.ccan_ram.specs.declared.port.PortName.TheVariants.{Bus};
ghost use Rattle.ccan_ram.specs.SharedRam.{opened};
ghost use Rattle.ccan_endless.specs.ChipPort.{AddsNone, ChipPass};
ghost use Rattle.ccan_endless.specs.Layout.{same_object};
ghost use Rattle.ccan_chip.specs.Objects.{MadeNone};

use ccan_endless::{EndlessRam, Port};
use ccan_object::{ObjectNo, Profile, Record};
use ccan_ram::{Access, Change, Changed, HandlerRegisters, Refused, SharedRam, Tries};
use std::marker::{Brand, PhantomData};

/// What a port of a chip had seen at some place of the program, and which borrow of the port begins there. The proof of a call
/// that passes `Brand` picks both.
pub trait Earlier {
    ghost earlier: { ChipPass };

    ghost lent: { GName };
}

impl Earlier for Brand {
    ghost earlier = { record {
      pass = opened (record { profile = One; quota = 0; name = [] }) Bus;
      whole = [];
    } };

    ghost lent = { 0 };
}

/// A port of a chip that is borrowed, with its memory.
#[derive(Drop)]
pub struct Lent<'a> {
    pub port: &'a mut Port,
    pub ram: &'a EndlessRam,
    ghost belongs: { port.now.pass.memory ≡ ram.now.words },
}

impl<'a> Lent<'a> {
    /// Ends the borrow.
    #[inline(always)]
    pub fn end(self)
        ensures { self.exit.0.now ≡ self.entry.port.now }
    {}
}

/// A port of a chip, as an access to its objects alone: whatever was done with it since it was borrowed, the port made no step
/// at the controller, and goes on from what it had seen then.
#[derive(Drop)]
pub struct Objects<'a, E: Earlier> {
    port: &'a mut Port,
    ram: &'a EndlessRam,
    of: PhantomData<E>,
    ghost belongs: { port.now.pass.memory ≡ ram.now.words },
    ghost lent: { port.ghost_name ≡ E.lent },
    ghost none: { MadeNone E.earlier port.now },
}

impl<'a, E: Earlier> Access for Objects<'a, E> {
    ghost use Rattle.ccan_ram.specs.SharedRam.{passes_of};

    ghost passes = { λ objects. passes_of same_object objects.port.now.pass };

    fn profile(&self) -> Profile {
        self.ram.profile()
    }

    #[inline(always)]
    fn look(&mut self, object: ObjectNo) -> Record {
        self.ram.look(self.port, object)
    }

    fn look_all(&mut self) -> HandlerRegisters {
        self.ram.look_all(self.port)
    }

    fn change(
        &mut self,
        object: ObjectNo,
        change: &Change,
        tries: Tries,
    ) -> Result<Changed, Refused> {
        self.ram.change(self.port, object, change, tries)
    }

    ghost legal = { λ objects seen h. h.1.legal };

    ghost within = { λ objects seen port h. h.1.within port };
}

impl<'a, E: Earlier> Objects<'a, E> {
    ghost use Rattle.ccan_endless.specs.ChipPort.{SeesOne};

    /// The port as an access to the objects, from here on.
    pub fn new(lent: Lent<'a>) -> Objects<'a, E>
        requires none { AddsNone E.earlier lent.port.now }
        requires lent { lent.port.ghost_name ≡ E.lent }
        ensures port { result.port.now ≡ lent.entry.port.now }
        ensures lent { result.port.ghost_name ≡ lent.entry.port.ghost_name }
    {
        let Lent { port, ram } = lent;
        Objects {
            port,
            ram,
            of: PhantomData,
        }
    }

    /// The borrowed port, with all that it has seen.
    pub fn into_lent(self) -> Lent<'a>
        ensures lent { (result.port.ghost_name ≡ E.lent)
            × (result.port.ghost_name ≡ self.entry.port.ghost_name) }
        ensures port { result.port.now ≡ self.entry.port.now }
        ensures none { MadeNone E.earlier result.port.now }
        ensures one { SeesOne result.port.now }
    {
        let Objects { port, ram, .. } = self;
        port.sees_one_history();
        Lent { port, ram }
    }
}
