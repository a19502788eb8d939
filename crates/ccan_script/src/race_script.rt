ghost use Rattle.std.specs.Prelude.{◌≡◌, ◌≤◌, length};
ghost use Rattle.ccan_ram.specs.declared.port.PortName.TheVariants.{If1, If2, Bus};
ghost use Rattle.ccan_line.specs.Order.{times};

use crate::order::times;
use ccan_line::Script;
use ccan_ram::PortName;
use std::alloc::Global;

/// A script for a race of its ports.
#[derive(Drop)]
pub struct RaceScript {
    /// The script. Its order is none of the race.
    pub script: Script,
    /// The ports of which lines run alone, in this order, before the race begins: each name is that of the port's next line. A
    /// port is named no more often than it has lines.
    pub before: Vec<PortName>,
    pub ghost if1_before: { times If1 before.items ≤ length script.if1.items },
    pub ghost if2_before: { times If2 before.items ≤ length script.if2.items },
    pub ghost bus_before: { times Bus before.items ≤ length script.bus.items },
}

impl RaceScript {
    ghost use Rattle.std.specs.Prelude.{[], IfNone, IfSome};
    ghost use Rattle.ccan_line.specs.Script.{fields_of};
    ghost use Rattle.ccan_script.specs.Race.{NamesFew, fields_of_race};

    /// The race of a script behind the next lines of these ports, which run one after the other, or `None` if the list names a
    /// port more often than it has lines.
    pub fn behind(script: Script, before: Vec<PortName>) -> Option<RaceScript>
        ensures is { IfSome result (λ race. fields_of_race race
            ≡ record { script = fields_of script; before = before.items }) }
        ensures none { IfNone result (NamesFew (fields_of script) before.items → ⊥) }
    {
        if times(&before, PortName::If1) > script.if1.len() {
            return None;
        }
        if times(&before, PortName::If2) > script.if2.len() {
            return None;
        }
        if times(&before, PortName::Bus) > script.bus.len() {
            return None;
        }
        Some(RaceScript { script, before })
    }

    /// The race of a script with no line before it.
    pub fn at_once(alloc: Global, script: Script) -> RaceScript
        ensures { fields_of_race result ≡ record { script = fields_of script; before = [] } }
    {
        RaceScript {
            script,
            before: Vec::new(alloc),
        }
    }
}
