//! Where the first fault of a line is, by the order of the checks. Whether a line has a fault is what the readers of lines
//! say.

ghost use Rattle.std.specs.Prelude.{◌≡◌, ◌≤◌, is_some, None, unwrap_or};
ghost use Rattle.std.specs.List.{position};
ghost use Rattle.serde_json.specs.View.{view};
ghost use Rattle.ccan_line.specs.Limits.{most_nodes};
ghost use Rattle.ccan_script.specs.FrameLine.{frame_fault};
ghost use Rattle.ccan_script.specs.Member.{frame_row, frame_numbers};
ghost use Rattle.ccan_script.specs.FirstFault.{part_found, operation_part, round_place, behind_members};
ghost use Rattle.ccan_script.specs.FirstFault.{host_place, bus_place};

use crate::bus_op::{BusOp, bus_op};
use crate::check::line_path::{LinePath, Part};
use crate::check::member_checks::part_found;
use crate::frame_line::read_frame;
use crate::host_op::host_op;
use crate::json::items_in;
use crate::line_context::LineContext;
use crate::member::{bus_row, frame_numbers, frame_row, host_row};
use crate::member_name::MemberName;
use serde_json::Value;

/// The part at fault in a line without a known operation.
fn operation_part(line: &Value) -> Part
    ensures { result ≡ operation_part (view line.now) }
{
    match line.get("op") {
        Some(_) => Part::Member(MemberName::Op),
        None => Part::Whole,
    }
}

/// A part of a line.
fn in_line(part: Part) -> LinePath
    ensures { result ≡ record { frame = None; part = part } }
{
    LinePath { frame: None, part }
}

/// Whether a frame is at fault.
fn is_frame_at_fault(frame: &Value, context: LineContext) -> bool
    requires { context.nodes ≤ most_nodes }
    ensures { result ≡ is_some (frame_fault context.nodes (view frame.now)) }
{
    read_frame(frame, context).is_err()
}

/// The index of the first frame that is at fault.
fn frame_at_fault(frames: &[Value], context: LineContext) -> Option<usize>
    requires { context.nodes ≤ most_nodes }
    ensures { result ≡ position
        (λ frame. is_some (frame_fault context.nodes (view frame))) frames.now }
{
    frames
        .iter()
        .position(|frame| is_frame_at_fault(frame, context))
}

/// The part of a frame at fault that has its first fault.
fn frame_part(frame: &Value, context: LineContext) -> Part
    ensures { result
        ≡ unwrap_or (part_found context frame_row frame_numbers (view frame.now)) Part.Whole }
{
    part_found(frame, frame_row(), frame_numbers(), context).unwrap_or(Part::Whole)
}

/// Where the first fault is in a round whose members are in order.
#[tactic(auto, unfolding(crate::specs::FirstFault::round_place))]
fn round_place(line: &Value, context: LineContext) -> LinePath
    requires { context.nodes ≤ most_nodes }
    ensures { result ≡ round_place context (view line.now) }
{
    let frames = items_in(line, "send");
    let Some(index) = frame_at_fault(frames, context) else {
        return in_line(Part::Member(MemberName::Send));
    };
    match frames.get(index) {
        Some(frame) => LinePath {
            frame: Some(index),
            part: frame_part(frame, context),
        },
        None => LinePath {
            frame: Some(index),
            part: Part::Whole,
        },
    }
}

/// Where the first fault is in a host's line that is at fault.
#[tactic(auto, unfolding(crate::specs::FirstFault::host_place_by))]
pub(crate) fn host_place(line: &Value, context: LineContext) -> LinePath
    ensures { result ≡ host_place context (view line.now) }
{
    let Some(op) = host_op(line) else {
        return in_line(operation_part(line));
    };
    let members = host_row(op);
    in_line(part_found(line, members, members, context).unwrap_or(Part::Whole))
}

/// Where the first fault is in a line of the bus that is at fault.
#[tactic(auto, unfolding(crate::specs::FirstFault::bus_place_by, crate::specs::FirstFault::behind_members))]
pub(crate) fn bus_place(line: &Value, context: LineContext) -> LinePath
    requires { context.nodes ≤ most_nodes }
    ensures { result ≡ bus_place context (view line.now) }
{
    let Some(op) = bus_op(line) else {
        return in_line(operation_part(line));
    };
    let members = bus_row(op);
    match part_found(line, members, members, context) {
        Some(part) => in_line(part),
        None => behind_members(line, op, context),
    }
}

/// Where a fault is that comes after the members of a line of the bus.
#[tactic(auto, unfolding(crate::specs::FirstFault::behind_members))]
fn behind_members(line: &Value, op: BusOp, context: LineContext) -> LinePath
    requires { context.nodes ≤ most_nodes }
    ensures { result ≡ behind_members context op (view line.now) }
{
    let BusOp::Round = op else {
        return in_line(Part::Whole);
    };
    round_place(line, context)
}
