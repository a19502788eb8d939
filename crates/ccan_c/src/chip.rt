//! A chip as C holds it: its three handles in one place.
ghost use Rattle.ccan_ram.specs.declared.port.PortName.TheVariants.{Bus, If1, If2};
ghost use Rattle.ccan_c.specs.Together.{AreOneMemory, IsNamed};

use crate::bus_handle::BusHandle;
use crate::handle::Handle;
use crate::host_handle::HostHandle;
use std::alloc::Global;

/// The three handles of a chip. C may give each to a thread of its own.
#[repr(C)]
#[derive(Drop)]
pub struct Chip {
    pub if1: HostHandle,
    // Handles of different threads lie on cache lines of their own.
    apart: [u64; 14],
    pub if2: HostHandle,
    apart_too: [u64; 14],
    pub bus: BusHandle,
    ghost second: { AreOneMemory if1.handle.seal.value if2.handle.seal.value },
    ghost third: { AreOneMemory if1.handle.seal.value bus.handle.seal.value },
    ghost named_if1: { IsNamed If1 if1.handle.seal.value },
    ghost named_if2: { IsNamed If2 if2.handle.seal.value },
    ghost named_bus: { IsNamed Bus bus.handle.seal.value },
}

impl Chip {
    ghost use Rattle.std.specs.Prelude.{◌≡◌};
    ghost use Rattle.ccan_c.specs.Chip.{IsClosed, are_open};

    /// A chip of these handles.
    pub(crate) fn of(if1: Handle, if2: Handle, bus: Handle) -> Chip
        requires second { AreOneMemory if1.seal.value if2.seal.value }
        requires third { AreOneMemory if1.seal.value bus.seal.value }
        requires named_if1 { IsNamed If1 if1.seal.value }
        requires named_if2 { IsNamed If2 if2.seal.value }
        requires named_bus { IsNamed Bus bus.seal.value }
        ensures if1 { result.if1.handle ≡ if1 }
        ensures if2 { result.if2.handle ≡ if2 }
        ensures bus { result.bus.handle ≡ bus }
    {
        Chip {
            if1: HostHandle { handle: if1 },
            apart: [0; 14],
            if2: HostHandle { handle: if2 },
            apart_too: [0; 14],
            bus: BusHandle { handle: bus },
        }
    }

    /// A place for a chip.
    pub fn closed(alloc: Global) -> Chip
        ensures { IsClosed result }
    {
        Chip::of(
            Handle::closed(alloc),
            Handle::closed(alloc),
            Handle::closed(alloc),
        )
    }

    /// Whether all three handles are open.
    pub fn is_open(&self) -> bool
        ensures { result ≡ are_open self.now }
    {
        self.if1.handle.is_open() && self.if2.handle.is_open() && self.bus.handle.is_open()
    }
}
