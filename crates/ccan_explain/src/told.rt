ghost use Rattle.std.specs.Prelude.{◌≡◌, [], IfOk, OnOk};
ghost use Rattle.ccan_line.specs.Script.{fields_of};
ghost use Rattle.ccan_line.specs.Turn.{opening};
ghost use Rattle.ccan_explain.specs.Bench.{HaveLedTo, Serves, next_of};
ghost use Rattle.ccan_explain.specs.Told.{AreStepsOf, IsOrderOf, in_order};

use crate::bench::Bench;
use crate::step::{Step, Touched, push_one};
use crate::stepping::step_on;
use ccan_accept::Frame;
use ccan_bus::{Decision, LoadAnswer, MemoryStep, RoundAnswer, RoundEnd, RoundReport};
use ccan_confine::NodeState;
use ccan_object::{DataLength, Identifier, ObjectNo, Profile, Record};
use ccan_ram::{Access, Array, Flag, PortName};
use ccan_script::{LineAnswer, Script};
use std::alloc::{AllocError, Global};

/// A script that has run, line by line, and the memory as it was left.
#[derive(Drop)]
pub struct Told {
    /// What came of each line, in the script's order.
    pub steps: Vec<Step>,
    /// The memory at the end.
    pub ram: Array,
}

/// Runs the lines of a script in this order, and keeps what came of each.
fn run_all(
    script: &Script,
    order: &[PortName],
    bench: &mut Bench,
    steps: &mut Vec<Step>,
) -> Result<(), AllocError>
    requires order { IsOrderOf (fields_of script.now) order.now }
    requires opened { HaveLedTo (opening script.now.nodes) bench.old }
    requires serves { Serves (⟦<Array as Access>⟧.passes bench.old.ram).terms
        (fields_of script.now) bench.old }
    requires seen { (⟦<Array as Access>⟧.passes bench.old.ram).has_seen [] }
    requires none { (port : PortName) → next_of bench.old port ≡ 0 }
    requires empty { steps.old.items ≡ [] }
    ensures ran { OnOk result (AreStepsOf (in_order (fields_of script.now) order.now)
        steps.new.items (⟦<Array as Access>⟧.passes bench.new.ram)) }
    ensures profile { OnOk result
        ((⟦<Array as Access>⟧.passes bench.new.ram).terms.profile ≡ script.now.profile) }
{
    for port in order {
        push_one(steps, step_on(bench, script, *port))?;
    }
    Ok(())
}

/// Runs the lines of a script in an order of the caller's, over a plain memory, and keeps what came of each line.
///
/// The order names each port as often as the script has lines of it; the script's own order is not looked at.
pub fn tell_in(alloc: Global, script: &Script, order: &[PortName]) -> Result<Told, AllocError>
    requires order { IsOrderOf (fields_of script.now) order.now }
    ensures ran { IfOk result (λ told. AreStepsOf (in_order (fields_of script.now) order.now)
        told.steps.items (⟦<Array as Access>⟧.passes told.ram)) }
    ensures profile { IfOk result (λ told.
        (⟦<Array as Access>⟧.passes told.ram).terms.profile ≡ script.now.profile) }
{
    let mut steps = Vec::new(alloc);
    let mut bench = Bench::new(script);
    run_all(script, order, &mut bench, &mut steps)?;
    Ok(Told {
        steps,
        ram: bench.into_ram(),
    })
}

/// Runs a script in its order, over a plain memory, and keeps what came of each line.
///
/// The answers are those of [`ccan_run::run_ordered`], which writes the one text that they have.
pub fn tell(alloc: Global, script: &Script) -> Result<Told, AllocError>
    ensures { IfOk result (λ told. AreStepsOf (fields_of script.now) told.steps.items
        (⟦<Array as Access>⟧.passes told.ram)) }
{
    tell_in(alloc, script, script.order.as_slice())
}
