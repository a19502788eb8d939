ghost use Rattle.ccan_ram.specs.declared.port.PortName.TheVariants.{Bus};
ghost use Rattle.ccan_c.specs.Together.{IsNamed};

use crate::handle::Handle;

/// The handle of the bus, or a place for one.
#[repr(C)]
#[derive(Drop)]
pub struct BusHandle {
    pub(crate) handle: Handle,
    ghost named: { IsNamed Bus handle.seal.value },
}
