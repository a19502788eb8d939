ghost use Rattle.std.specs.Prelude.{◌≡◌, ◌≤◌, All, length};
ghost use Rattle.ccan_ram.specs.Port.{IsQuota};
ghost use Rattle.ccan_ram.specs.declared.port.PortName.TheVariants.{If1, If2, Bus};
ghost use Rattle.ccan_line.specs.Limits.{most_lines, most_nodes};
ghost use Rattle.ccan_line.specs.HostLine.{HostFits, HostFits-prop};
ghost use Rattle.ccan_line.specs.BusLine.{BusFits, BusFits-prop};
ghost use Rattle.ccan_line.specs.Lines.{All-prop};
ghost use Rattle.ccan_line.specs.Order.{times};

use crate::bus_line::BusLine;
use crate::host_line::HostLine;
use ccan_object::Profile;
use ccan_ram::{PortName, Tries};

/// What a script says. Its ranges hold of every value, so that a run checks none of them again.
#[derive(Drop)]
pub struct Script {
    /// How many message objects the memory has.
    pub profile: Profile,
    /// How many changes each port may make, 1 to 4,096.
    pub quota: u64,
    /// How often a change may be tried, 1 to 1,000 times.
    pub tries: Tries,
    /// How many nodes the bus has besides the controller, 0 to 8.
    pub nodes: u8,
    /// The lines of IF1, at most 2,000.
    pub if1: Vec<HostLine>,
    /// The lines of IF2, at most 2,000.
    pub if2: Vec<HostLine>,
    /// The lines of the bus, at most 2,000.
    pub bus: Vec<BusLine>,
    /// Which port's line comes next: each port is named as often as it has lines.
    pub order: Vec<PortName>,
    pub ghost quota_range: { IsQuota quota },
    pub ghost few_nodes: { nodes ≤ most_nodes },
    pub ghost if1_few: { length if1.items ≤ most_lines },
    pub ghost if2_few: { length if2.items ≤ most_lines },
    pub ghost bus_few: { length bus.items ≤ most_lines },
    pub ghost if1_fits: { All (HostFits profile) if1.items } by { All-prop _ (HostFits-prop profile) if1.items },
    pub ghost if2_fits: { All (HostFits profile) if2.items } by { All-prop _ (HostFits-prop profile) if2.items },
    pub ghost bus_fits: { All (BusFits nodes) bus.items } by { All-prop _ (BusFits-prop nodes) bus.items },
    pub ghost if1_times: { times If1 order.items ≡ length if1.items },
    pub ghost if2_times: { times If2 order.items ≡ length if2.items },
    pub ghost bus_times: { times Bus order.items ≡ length bus.items },
}
