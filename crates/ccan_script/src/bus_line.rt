ghost use Rattle.std.specs.Prelude.{◌≤◌, ◌≡◌, codes, IfOk, None, Some};
ghost use Rattle.serde_json.specs.View.{view};
ghost use Rattle.ccan_line.specs.BusLine.{BusFits};
ghost use Rattle.ccan_line.specs.Limits.{most_groups, most_nodes};
ghost use Rattle.ccan_script.specs.Json.{number_in};
ghost use Rattle.ccan_script.specs.LineFault.{ReadsLine};
ghost use Rattle.ccan_script.specs.BusLine.{bus_fault, bus_fault_by, members_fault_by};
ghost use Rattle.ccan_script.specs.BusLine.{BusSays, BusSaysBy};

use crate::bus_op::{BusOp, bus_op};
use crate::flag_line::flag_of_line;
use crate::line_context::LineContext;
use crate::line_fault::LineFault;
use crate::member::bus_row;
use crate::member_name::MemberName;
use crate::members::{check_members, number_of};
use crate::round::read_round;
use crate::script_line::ScriptLine;
use ccan_line::{BusLine, ControllerLine};
use serde_json::Value;

/// The node of a line without faults that asks for its error counters.
#[tactic(auto, using(crate::proofs::MemberRows::within), unfolding(crate::specs::BusLine::bus_fault_by))]
fn node_of(line: &Value, nodes: u8) -> u8
    requires { bus_fault_by nodes (Some BusOp.Counters) (view line.now) ≡ None }
    ensures node { result ≡ number_in (codes "node") (view line.now) }
    ensures within { result ≤ nodes }
{
    number_of(line, MemberName::Node) as u8
}

/// The groups of a line without faults that lets recessive bits pass.
#[tactic(auto, using(crate::proofs::MemberRows::within), unfolding(crate::specs::BusLine::bus_fault_by))]
fn groups_of(line: &Value, nodes: u8) -> u16
    requires { bus_fault_by nodes (Some BusOp.Recessive) (view line.now) ≡ None }
    ensures groups { result ≡ number_in (codes "groups") (view line.now) }
    ensures within { (1 ≤ result) × (result ≤ most_groups) }
{
    number_of(line, MemberName::Groups) as u16
}

/// The line of a value whose members have no fault; a round's frames are read here.
#[tactic(auto, unfolding(crate::specs::BusLine::members_fault_by, crate::specs::BusLine::BusSaysBy))]
fn bus_line(op: BusOp, line: &Value, context: LineContext) -> Result<BusLine, LineFault>
    requires nodes { context.nodes ≤ most_nodes }
    requires members { members_fault_by context.nodes op (view line.now) ≡ None }
    ensures reads { let d = view line.now in
        ReadsLine (bus_fault_by context.nodes (Some op) d) (BusSaysBy (Some op) d) result }
    ensures fits { IfOk result (BusFits context.nodes) }
{
    match op {
        BusOp::Load => Ok(BusLine::Load),
        BusOp::Round => Ok(BusLine::Round(read_round(line, context)?)),
        BusOp::Status => Ok(BusLine::Controller(ControllerLine::Status)),
        BusOp::Control => Ok(BusLine::Controller(ControllerLine::Control {
            sie: number_of(line, MemberName::Sie) == 1,
            eie: number_of(line, MemberName::Eie) == 1,
        })),
        BusOp::Interrupt => Ok(BusLine::Interrupt),
        BusOp::Flags => Ok(BusLine::Flags(flag_of_line(line))),
        BusOp::Counters => Ok(BusLine::Controller(ControllerLine::Counters(node_of(
            line,
            context.nodes,
        )))),
        BusOp::Init => Ok(BusLine::Controller(ControllerLine::Init)),
        BusOp::Recessive => Ok(BusLine::Controller(ControllerLine::Recessive(groups_of(
            line,
            context.nodes,
        )))),
        BusOp::LoopBack => Ok(BusLine::Controller(ControllerLine::LoopBack(
            number_of(line, MemberName::On) == 1,
        ))),
    }
}

impl ScriptLine for BusLine {
    ghost fault = { λ context. bus_fault context.nodes };

    ghost says = { BusSays };

    ghost fits = { λ context. BusFits context.nodes };

    #[tactic(auto, unfolding(crate::specs::BusLine::bus_fault_by))]
    fn read(value: &Value, context: LineContext) -> Result<BusLine, LineFault> {
        let Some(op) = bus_op(value) else {
            return Err(LineFault::Shape);
        };
        let row = bus_row(op);
        check_members(value, row, row, context)?;
        bus_line(op, value, context)
    }
}
