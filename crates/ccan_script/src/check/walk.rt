ghost use Rattle.std.specs.Prelude.{◌≤◌};
ghost use Rattle.ccan_line.specs.Limits.{most_nodes};

use crate::bus_op::{BusOp, bus_op};
use crate::check::fault_path::context_of;
use crate::check::json_text::item_after;
use crate::check::member_remark::{remark_on, remark_on_name};
use crate::check::reading::Reading;
use crate::check::report::{Fault, Remark, Report};
use crate::check::spot::{Spot, joined};
use crate::check::told_line::ToldLine;
use crate::check::warning::warn_of_twice;
use crate::line_context::LineContext;
use crate::list_name::ListName;
use crate::number::number_member;
use crate::script_error::ScriptError;
use crate::script_number::{NumberRow, SCRIPT_NUMBERS, ScriptNumber};
use ccan_line::{BusLine, HostLine, MAX_LINES, MAX_NAMES};
use ccan_ram::PortName;
use serde_json::Value;
use std::alloc::{AllocError, Global};

const TOP_SHAPE: ScriptError = ScriptError::Shape {
    list: ListName::Top,
    index: 0,
};

/// Adds a fault for each member that a script can't have.
fn add_unknown(
    alloc: Global,
    top: Spot<'_>,
    reading: Reading,
    report: &mut Report,
) -> Result<(), AllocError> {
    let Some(members) = top.value.as_object() else {
        let remark = remark_on(alloc, "the script", top, "is not an object, such as {}")?;
        report.faults.push(Fault {
            error: TOP_SHAPE,
            remark,
        })?;
        return Ok(());
    };
    for name in members.keys() {
        if reading.knows(name.as_str()) {
            continue;
        }
        let offset = top
            .member(name.as_str())
            .map_or(top.offset, |spot| spot.offset);
        let wrong = reading.unknown();
        let remark = remark_on_name(alloc, "the script", name.as_str(), wrong, offset)?;
        report.faults.push(Fault {
            error: TOP_SHAPE,
            remark,
        })?;
    }
    Ok(())
}

/// Adds the fault of a number of the script, if it has one.
fn add_number(
    alloc: Global,
    top: Spot<'_>,
    number: ScriptNumber,
    report: &mut Report,
) -> Result<(), AllocError> {
    if let Err(error) = number_member(top.value, number) {
        let NumberRow {
            name,
            least,
            greatest,
            default: _,
        } = number.row();
        let spot = top.member(name).unwrap_or(top);
        let wrong = format!(in alloc; "is not a whole number in {least} to {greatest}")?;
        let remark = remark_on(alloc, name, spot, wrong.as_str())?;
        report.faults.push(Fault { error, remark })?;
    }
    Ok(())
}

/// Adds the fault of a line of a list, or what is rarely meant in it.
fn add_line<L: ToldLine>(
    alloc: Global,
    list: ListName,
    index: usize,
    line: Spot<'_>,
    context: LineContext,
    report: &mut Report,
) -> Result<(), AllocError>
    requires { context.nodes ≤ most_nodes }
{
    let path = format!(in alloc; "{list}[{index}]")?;
    match L::read(line.value, context) {
        Ok(read) => read.warn(alloc, path.as_str(), line, context, &mut report.warnings)?,
        Err(fault) => {
            let remark = L::remark(alloc, path.as_str(), line, context)?;
            let error = fault.at(list, index);
            report.faults.push(Fault { error, remark })?;
        }
    }
    warn_of_twice(alloc, path.as_str(), line, &mut report.warnings)
}

/// Adds the faults of the lines of a list, and what is rarely meant in the others.
fn add_lines<L: ToldLine>(
    alloc: Global,
    list: ListName,
    values: &[Value],
    spot: Spot<'_>,
    context: LineContext,
    report: &mut Report,
) -> Result<(), AllocError>
    requires { context.nodes ≤ most_nodes }
{
    let mut offset = spot.offset;
    for (index, value) in values.iter().enumerate() {
        let (begin, end) = item_after(spot.text, offset);
        let line = Spot {
            value,
            text: spot.text,
            offset: begin,
        };
        add_line::<L>(alloc, list, index, line, context, report)?;
        offset = end;
    }
    Ok(())
}

/// Adds the faults of a list of at most this many lines, if the script has it.
fn add_list<L: ToldLine>(
    alloc: Global,
    list: ListName,
    most: usize,
    member: Option<Spot<'_>>,
    context: LineContext,
    report: &mut Report,
) -> Result<(), AllocError>
    requires { context.nodes ≤ most_nodes }
{
    let Some(spot) = member else {
        return Ok(());
    };
    let path = format!(in alloc; "{list}")?;
    let Some(values) = spot.value.as_array() else {
        let error = ScriptError::Shape { list, index: 0 };
        let remark = remark_on(alloc, path.as_str(), spot, "is not a list")?;
        report.faults.push(Fault { error, remark })?;
        return Ok(());
    };
    if values.len() > most {
        let error = ScriptError::TooMany { list };
        let text = format!(in alloc; "{path}: has more than {most} lines")?;
        report.faults.push(Fault {
            error,
            remark: Remark {
                offset: spot.offset,
                text,
            },
        })?;
        return Ok(());
    }
    add_lines::<L>(alloc, list, values, spot, context, report)
}

/// How many lines a list of the script has.
fn lines_in(top: Spot<'_>, name: &str) -> usize {
    match top.value.get(name).and_then(Value::as_array) {
        Some(lines) => lines.len(),
        None => 0,
    }
}

/// How often a list has this name.
fn times_in(names: &[Value], name: &str) -> usize {
    names
        .iter()
        .filter(|value| value.as_str() == Some(name))
        .count()
}

/// Adds a fault if the order doesn't name a port as often as it has lines.
fn add_times(
    alloc: Global,
    top: Spot<'_>,
    order: Spot<'_>,
    port: PortName,
    name: &str,
    report: &mut Report,
) -> Result<(), AllocError> {
    let Some(names) = order.value.as_array() else {
        return Ok(());
    };
    let lines = lines_in(top, name);
    let times = times_in(names, name);
    if times != lines {
        let error = ScriptError::Order { port };
        let text = format!(in alloc;
            "order: names {name} {times} times, and {name} has {lines} lines"
        )?;
        report.faults.push(Fault {
            error,
            remark: Remark {
                offset: order.offset,
                text,
            },
        })?;
    }
    Ok(())
}

/// Adds the faults of the order.
fn add_order(
    alloc: Global,
    top: Spot<'_>,
    reading: Reading,
    context: LineContext,
    report: &mut Report,
) -> Result<(), AllocError>
    requires { context.nodes ≤ most_nodes }
{
    let Some(order) = top.member("order") else {
        return warn_of_default(alloc, top, reading, report);
    };
    let before = report.faults.len();
    add_list::<PortName>(
        alloc,
        ListName::Order,
        MAX_NAMES,
        Some(order),
        context,
        report,
    )?;
    if report.faults.len() != before {
        return Ok(());
    }
    add_times(alloc, top, order, PortName::If1, "if1", report)?;
    add_times(alloc, top, order, PortName::If2, "if2", report)?;
    add_times(alloc, top, order, PortName::Bus, "bus", report)
}

/// Whether an operation of the bus sends.
fn is_send(op: BusOp) -> bool {
    matches!(op, BusOp::Load | BusOp::Round)
}

/// Whether the bus has a line that sends.
fn has_sends(top: Spot<'_>) -> bool {
    match top.value.get("bus").and_then(Value::as_array) {
        Some(lines) => lines.iter().any(|line| bus_op(line).is_some_and(is_send)),
        None => false,
    }
}

/// Adds a fault if a port is named more often than it has lines.
fn add_share(
    alloc: Global,
    top: Spot<'_>,
    before: Spot<'_>,
    port: PortName,
    name: &str,
    report: &mut Report,
) -> Result<(), AllocError> {
    let Some(names) = before.value.as_array() else {
        return Ok(());
    };
    let lines = lines_in(top, name);
    let times = times_in(names, name);
    if times > lines {
        let error = ScriptError::Before { port };
        let text = format!(in alloc;
            "before: names {name} {times} times, and {name} has {lines} lines"
        )?;
        report.faults.push(Fault {
            error,
            remark: Remark {
                offset: before.offset,
                text,
            },
        })?;
    }
    Ok(())
}

/// Adds the faults of the ports of which lines run before a race.
fn add_before(
    alloc: Global,
    top: Spot<'_>,
    reading: Reading,
    context: LineContext,
    report: &mut Report,
) -> Result<(), AllocError>
    requires { context.nodes ≤ most_nodes }
{
    let Some(before) = reading.before(top) else {
        return Ok(());
    };
    let earlier = report.faults.len();
    add_list::<PortName>(
        alloc,
        ListName::Before,
        MAX_NAMES,
        Some(before),
        context,
        report,
    )?;
    if report.faults.len() != earlier {
        return Ok(());
    }
    add_share(alloc, top, before, PortName::If1, "if1", report)?;
    add_share(alloc, top, before, PortName::If2, "if2", report)?;
    add_share(alloc, top, before, PortName::Bus, "bus", report)
}

/// Adds a warning if two ports that depend on each other run one after the other, since no order is given, and no line is to run
/// before a race.
fn warn_of_default(
    alloc: Global,
    top: Spot<'_>,
    reading: Reading,
    report: &mut Report,
) -> Result<(), AllocError> {
    if reading.before(top).is_some() {
        return Ok(());
    }
    let hosts = usize::from(lines_in(top, "if1") > 0) + usize::from(lines_in(top, "if2") > 0);
    if hosts == 2 || hosts == 1 && has_sends(top) {
        let text = joined(
            alloc,
            &[
                "order: is missing, so a run in order has all lines of if1 first, then those of if2, then those of \
                 bus; outcomes need no order",
            ],
        )?;
        report.warnings.push(Remark {
            offset: top.offset,
            text,
        })?;
    }
    Ok(())
}

/// Adds the faults of the numbers of a script.
fn add_numbers(alloc: Global, top: Spot<'_>, report: &mut Report) -> Result<(), AllocError> {
    for number in &SCRIPT_NUMBERS {
        add_number(alloc, top, *number, report)?;
    }
    Ok(())
}

/// Adds what is said of the lines of a port.
fn add_port<L: ToldLine>(
    alloc: Global,
    top: Spot<'_>,
    list: ListName,
    name: &str,
    context: LineContext,
    report: &mut Report,
) -> Result<(), AllocError>
    requires { context.nodes ≤ most_nodes }
{
    let member = top.member(name);
    add_list::<L>(alloc, list, MAX_LINES, member, context, report)
}

/// All that is said of a script, in the order of the checks.
pub(crate) fn walk(alloc: Global, top: Spot<'_>, reading: Reading) -> Result<Report, AllocError> {
    let mut report = Report {
        faults: Vec::new(alloc),
        warnings: Vec::new(alloc),
    };
    warn_of_twice(alloc, "the script", top, &mut report.warnings)?;
    add_unknown(alloc, top, reading, &mut report)?;
    add_numbers(alloc, top, &mut report)?;
    let context = context_of(top.value);
    add_port::<HostLine>(alloc, top, ListName::If1, "if1", context, &mut report)?;
    add_port::<HostLine>(alloc, top, ListName::If2, "if2", context, &mut report)?;
    add_port::<BusLine>(alloc, top, ListName::Bus, "bus", context, &mut report)?;
    add_order(alloc, top, reading, context, &mut report)?;
    add_before(alloc, top, reading, context, &mut report)?;
    Ok(report)
}
