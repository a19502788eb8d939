ghost use Rattle.std.specs.Prelude.{◌≡◌, ◌≢◌, ◌≤◌, [], IfErr, IfOk};
ghost use Rattle.ccan_ram.specs.declared.port.PortName.{PortName};
ghost use Rattle.ccan_ram.specs.declared.port.PortName.TheVariants.{Bus, If1, If2};
ghost use Rattle.ccan_ram.specs.Ending.{Ends};
ghost use Rattle.ccan_ram.specs.SharedRam.{IsMemoryOf};
ghost use Rattle.ccan_run.specs.declared.run_error.RunError.TheVariants.{Memory};
ghost use Rattle.ccan_run.specs.Trio.{CatchesUp, seen_by};

use crate::run_error::RunError;
use ccan_object::Profile;
use ccan_ram::{Final, OpenError, SharedRam};
use std::alloc::Global;

/// A shared memory whose three ports are in one thread.
pub(crate) struct Trio<R: SharedRam> {
    pub(crate) ram: R,
    pub(crate) if1: R::Port,
    pub(crate) if2: R::Port,
    pub(crate) bus: R::Port,
    pub(crate) ghost if1_memory: { (R.pass if1).memory ≡ R.memory ram },
    pub(crate) ghost if2_memory: { (R.pass if2).memory ≡ R.memory ram },
    pub(crate) ghost bus_memory: { (R.pass bus).memory ≡ R.memory ram },
    pub(crate) ghost if1_name: { (R.pass if1).port ≡ If1 },
    pub(crate) ghost if2_name: { (R.pass if2).port ≡ If2 },
    pub(crate) ghost bus_name: { (R.pass bus).port ≡ Bus },
}

impl<R: SharedRam> Trio<R> {
    /// A memory that is all zero, in which each port may make this many changes.
    pub(crate) fn open(alloc: Global, profile: Profile, quota: u64) -> Result<Trio<R>, RunError>
        requires least { 1 ≤ quota }
        requires greatest { quota ≤ R.MAX_QUOTA }
        ensures memory { IfOk result (λ trio. IsMemoryOf profile quota (R.memory trio.ram)) }
        ensures seen { IfOk result (λ trio. (name : PortName)
            → seen_by (R.pass trio.if1) (R.pass trio.if2) (R.pass trio.bus) name ≡ []) }
        ensures refused { IfErr result (λ why. why ≡ Memory) }
    {
        match R::open_ram(alloc, profile, quota) {
            Ok((ram, if1, if2, bus)) => Ok(Trio { ram, if1, if2, bus }),
            Err(OpenError::Memory) => Err(RunError::Memory),
            Err(OpenError::QuotaRange) => unreachable!(),
        }
    }

    /// The records that the ports leave.
    pub(crate) fn close(self) -> Final
        ensures { Ends (R.pass self.if1) (R.pass self.if2) (R.pass self.bus) result }
    {
        let Trio { ram, if1, if2, bus } = self;
        ram.close(if1, if2, bus)
    }
}

/// Shows a port all that two others have seen. Nobody makes an event.
pub(crate) fn catch_up<R: SharedRam>(
    ram: &R,
    port: &mut R::Port,
    second: &mut R::Port,
    third: &mut R::Port,
)
    requires port { (R.pass port.old).memory ≡ R.memory ram.now }
    requires second { (R.pass second.old).memory ≡ R.memory ram.now }
    requires third { (R.pass third.old).memory ≡ R.memory ram.now }
    requires two { (R.pass port.old).port ≢ (R.pass second.old).port }
    requires three { (R.pass port.old).port ≢ (R.pass third.old).port }
    ensures { CatchesUp (R.pass port.old) (R.pass second.old) (R.pass third.old)
        (R.pass port.new) (R.pass second.new) (R.pass third.new) }
{
    ram.meet(port, second);
    ram.meet(port, third);
}
