ghost use Rattle.std.specs.Prelude.{◌≡◌, length};

use ccan_line::{BusLine, HostLine, PerPort};

/// How many lines each port has.
pub(crate) fn counts_of(if1: &[HostLine], if2: &[HostLine], bus: &[BusLine]) -> PerPort<usize>
    ensures { result ≡ record {
      if1 = length if1.now;
      if2 = length if2.now;
      bus = length bus.now;
    } }
{
    PerPort {
        if1: if1.len(),
        if2: if2.len(),
        bus: bus.len(),
    }
}
