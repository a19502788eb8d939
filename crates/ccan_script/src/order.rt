ghost use Rattle.std.specs.Prelude.{◌≡◌, ◌≤◌, ◌==◌, ◌++◌, Some, None, codes, replicate, MatchResult, IfOk, IfErr, if◌then◌else◌};
ghost use Rattle.std.specs.Result.{result_err};
ghost use Rattle.serde_json.specs.Find.{get};
ghost use Rattle.serde_json.specs.View.{view};
ghost use Rattle.ccan_ram.specs.declared.port.PortName.{PortName};
ghost use Rattle.ccan_line.specs.Limits.{most_nodes};
ghost use Rattle.ccan_script.specs.LineCounts.{count_of};
ghost use Rattle.ccan_line.specs.Order.{times};
ghost use Rattle.ccan_script.specs.Order.{default_order, ChecksTimes};
ghost use Rattle.ccan_script.specs.Reader.{ReadsOrder};

use crate::line_context::LineContext;
use crate::list_name::ListName;
use crate::list_reader::lines_of;
use crate::script_error::ScriptError;
use ccan_line::{MAX_NAMES, PerPort};
use ccan_ram::PortName;
use serde_json::Value;
use std::alloc::Global;

/// Names a port this many times.
fn push_times(order: &mut Vec<PortName>, port: PortName, count: usize) -> Result<(), ScriptError>
    ensures items { MatchResult result
        (λ _. order.new.items ≡ order.old.items ++ replicate count port)
        (λ e. e ≡ ScriptError.Memory) }
{
    for _named in 0..count {
        order.push(port)?;
    }
    Ok(())
}

/// All lines of IF1, then all of IF2, then all of the bus.
fn default_order(alloc: Global, counts: PerPort<usize>) -> Result<Vec<PortName>, ScriptError>
    ensures { MatchResult result (λ order. order.items ≡ default_order (count_of counts))
        (λ e. e ≡ ScriptError.Memory) }
{
    let mut order = Vec::new(alloc);
    push_times(&mut order, PortName::If1, counts.if1)?;
    push_times(&mut order, PortName::If2, counts.if2)?;
    push_times(&mut order, PortName::Bus, counts.bus)?;
    Ok(order)
}

/// How often an order names a port.
pub fn times(order: &[PortName], port: PortName) -> usize
    ensures { result ≡ times port order.now }
{
    order
        .iter()
        .filter(|name| port.index() == name.index())
        .count()
}

/// Checks that the order names a port as often as it has lines.
fn check_times(order: &[PortName], port: PortName, lines: usize) -> Result<(), ScriptError>
    ensures { result_err result
        ≡ (if times port order.now == lines then None else Some (ScriptError.Order port)) }
{
    if times(order, port) == lines {
        Ok(())
    } else {
        Err(ScriptError::Order { port })
    }
}

/// Checks how often the order names each port.
fn check_all_times(order: &[PortName], counts: PerPort<usize>) -> Result<(), ScriptError>
    ensures { ChecksTimes (count_of counts) order.now result }
{
    check_times(order, PortName::If1, counts.if1)?;
    check_times(order, PortName::If2, counts.if2)?;
    check_times(order, PortName::Bus, counts.bus)
}

/// The order in which the ports run: each is named as often as it has lines.
pub(crate) fn read_order(
    alloc: Global,
    script: &Value,
    counts: PerPort<usize>,
    context: LineContext,
) -> Result<Vec<PortName>, ScriptError>
    requires { context.nodes ≤ most_nodes }
    ensures reads { ReadsOrder (count_of counts) (get (codes "order") (view script.now)) result }
    ensures times { IfOk result (λ order.
        (port : PortName) → times port order.items ≡ count_of counts port) }
{
    let Some(member) = script.get("order") else {
        return default_order(alloc, counts);
    };
    let order = lines_of(alloc, ListName::Order, MAX_NAMES, Some(member), context)?;
    check_all_times(&order, counts)?;
    Ok(order)
}
