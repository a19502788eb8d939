ghost use Rattle.std.specs.Prelude.{◌≡◌, ◌≤◌, ◌==◌, true, length, IfOk};
ghost use Rattle.serde_json.specs.View.{view};
ghost use Rattle.ccan_accept.specs.Frame.{data_count};
ghost use Rattle.ccan_line.specs.Limits.{most_nodes};
ghost use Rattle.ccan_script.specs.LineFault.{ReadsLine, shape_check};
ghost use Rattle.ccan_script.specs.FrameLine.{is_data_text, is_in_range, has_its_length};
ghost use Rattle.ccan_script.specs.FrameLine.{frame_fault, frame_of, words_of, sending_of};
ghost use Rattle.ccan_script.specs.FrameParts.{words_in};

use crate::frame_data::{data_of, eight_bytes};
use crate::line_context::LineContext;
use crate::line_fault::LineFault;
use crate::member::{frame_numbers, frame_row};
use crate::member_name::MemberName;
use crate::members::{check_members, number_of};
use ccan_accept::Frame;
use serde_json::Value;

/// The parts of a frame in a script.
#[derive(Clone, Copy)]
pub(crate) struct FrameParts<'a> {
    node: u64,
    id: u64,
    xtd: u64,
    rtr: u64,
    dlc: u64,
    digits: &'a str,
}

/// The parts of a frame whose members have no fault.
#[tactic(auto, using(crate::proofs::MemberKinds::same_number))]
fn frame_parts(value: &Value) -> FrameParts<'_>
    ensures words { words_in result ≡ words_of (view value.now) }
    ensures data { is_data_text result.digits.now ≡ true }
{
    FrameParts {
        node: number_of(value, MemberName::Node),
        id: number_of(value, MemberName::Id),
        xtd: number_of(value, MemberName::Xtd),
        rtr: number_of(value, MemberName::Rtr),
        dlc: number_of(value, MemberName::Dlc),
        digits: data_of(value),
    }
}

/// How many data bytes the frame has.
fn data_count(parts: FrameParts) -> usize
    requires { parts.dlc ≤ 15 }
    ensures count { result ≡ data_count (parts.entry.rtr == 1) parts.entry.dlc }
    ensures within { result ≤ 8 }
{
    if parts.rtr == 1 {
        0
    } else {
        (parts.dlc as usize).min(8)
    }
}

/// The frame of these parts.
fn frame_of(parts: FrameParts) -> Frame
    requires range { is_in_range most_nodes (words_in parts) ≡ true }
    requires short { length parts.digits.now ≤ 16 }
    requires data { is_data_text parts.digits.now ≡ true }
    ensures { result ≡ frame_of (words_in parts.entry) }
{
    let bytes = eight_bytes(parts.digits);
    Frame::new(
        parts.id as u32,
        parts.xtd == 1,
        parts.rtr == 1,
        parts.dlc as u8,
        bytes,
    )
    .unwrap()
}

/// The frame of these parts with its sender, if its data has its length.
fn sending_of(parts: FrameParts, nodes: u8) -> Result<(u8, Frame), LineFault>
    requires nodes { nodes ≤ most_nodes }
    requires range { is_in_range nodes (words_in parts) ≡ true }
    requires data { is_data_text parts.digits.now ≡ true }
    ensures reads { let words = words_in parts.entry in
        ReadsLine (shape_check (has_its_length words))
        (λ sending. sending ≡ (words.node, frame_of words)) result }
    ensures sender { IfOk result (λ sending. (1 ≤ sending.0) × (sending.0 ≤ nodes)) }
{
    if parts.digits.len() != 2 * data_count(parts) {
        return Err(LineFault::Shape);
    }
    Ok((parts.node as u8, frame_of(parts)))
}

/// A frame with its sender, one of this many nodes: its members first, then their ranges, then the length of its data.
pub fn read_frame(value: &Value, context: LineContext) -> Result<(u8, Frame), LineFault>
    requires { context.nodes ≤ most_nodes }
    ensures reads { let d = view value.now in
        ReadsLine (frame_fault context.nodes d) (λ sending. sending ≡ sending_of d) result }
    ensures sender { IfOk result (λ sending. (1 ≤ sending.0) × (sending.0 ≤ context.nodes)) }
{
    check_members(value, frame_row(), frame_numbers(), context)?;
    sending_of(frame_parts(value), context.nodes)
}
