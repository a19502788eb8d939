ghost use Rattle.std.specs.Prelude.{◌≤◌};
ghost use Rattle.ccan_line.specs.Limits.{most_nodes};

use crate::bus_op::{BusOp, bus_op};
use crate::check::first_fault::{bus_place, host_place};
use crate::check::line_remark::{line_remark, operation_remark};
use crate::check::member_remark::remark_on;
use crate::check::report::Remark;
use crate::check::spot::{Spot, with_names};
use crate::check::warning::warn_of_transfer;
use crate::host_op::{HostOp, host_op};
use crate::line_context::LineContext;
use crate::member::{bus_row, host_row};
use crate::script_line::ScriptLine;
use ccan_line::{BusLine, HostLine};
use ccan_ram::PortName;
use std::alloc::{AllocError, Global};

/// A line of a script, about which something can be said.
pub(crate) trait ToldLine: ScriptLine {
    /// A remark on a value that is not such a line.
    fn remark(
        alloc: Global,
        path: &str,
        line: Spot<'_>,
        context: LineContext,
    ) -> Result<Remark, AllocError>
        requires { context.nodes ≤ most_nodes };

    /// Adds what is rarely meant in a line.
    fn warn(
        &self,
        alloc: Global,
        path: &str,
        line: Spot<'_>,
        context: LineContext,
        warnings: &mut Vec<Remark>,
    ) -> Result<(), AllocError>;
}

impl ToldLine for HostLine {
    fn remark(
        alloc: Global,
        path: &str,
        line: Spot<'_>,
        context: LineContext,
    ) -> Result<Remark, AllocError> {
        match host_op(line.value) {
            Some(op) => {
                let place = host_place(line.value, context);
                line_remark(alloc, path, line, host_row(op), place, context)
            }
            None if bus_op(line.value).is_some() => {
                operation_remark(
                    alloc,
                    path,
                    line,
                    "is an operation of the bus, not of a host",
                )
            }
            None => {
                let names = HostOp::ALL.map(HostOp::name);
                let wrong = with_names(alloc, "is no operation of a host: ", &names)?;
                operation_remark(alloc, path, line, wrong.as_str())
            }
        }
    }

    fn warn(
        &self,
        alloc: Global,
        path: &str,
        line: Spot<'_>,
        context: LineContext,
        warnings: &mut Vec<Remark>,
    ) -> Result<(), AllocError> {
        match self {
            HostLine::Transfer { request, set } => {
                warn_of_transfer(alloc, path, line, context, *request, set, warnings)
            }
            HostLine::Until { .. } | HostLine::Interrupt | HostLine::Flags(_) => Ok(()),
        }
    }
}

impl ToldLine for BusLine {
    fn remark(
        alloc: Global,
        path: &str,
        line: Spot<'_>,
        context: LineContext,
    ) -> Result<Remark, AllocError> {
        match bus_op(line.value) {
            Some(op) => {
                let place = bus_place(line.value, context);
                line_remark(alloc, path, line, bus_row(op), place, context)
            }
            None if host_op(line.value).is_some() => {
                operation_remark(
                    alloc,
                    path,
                    line,
                    "is an operation of a host, not of the bus",
                )
            }
            None => {
                let names = BusOp::ALL.map(BusOp::name);
                let wrong = with_names(alloc, "is no operation of the bus: ", &names)?;
                operation_remark(alloc, path, line, wrong.as_str())
            }
        }
    }

    fn warn(
        &self,
        _alloc: Global,
        _path: &str,
        _line: Spot<'_>,
        _context: LineContext,
        _warnings: &mut Vec<Remark>,
    ) -> Result<(), AllocError> {
        Ok(())
    }
}

impl ToldLine for PortName {
    fn remark(
        alloc: Global,
        path: &str,
        line: Spot<'_>,
        _context: LineContext,
    ) -> Result<Remark, AllocError> {
        remark_on(alloc, path, line, "is no port: if1, if2 or bus")
    }

    fn warn(
        &self,
        _alloc: Global,
        _path: &str,
        _line: Spot<'_>,
        _context: LineContext,
        _warnings: &mut Vec<Remark>,
    ) -> Result<(), AllocError> {
        Ok(())
    }
}
