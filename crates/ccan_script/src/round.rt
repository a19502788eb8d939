ghost use Rattle.std.specs.Prelude.{◌≡◌, ◌≤◌, true, map, length, unwrap_or, All, IfOk};
ghost use Rattle.serde_json.specs.View.{view};
ghost use Rattle.ccan_bus.specs.RoundLine.{AreSenders};
ghost use Rattle.ccan_bus.specs.declared.round_line.Fault.TheVariants.{Quiet};
ghost use Rattle.ccan_line.specs.Limits.{most_nodes, most_frames};
ghost use Rattle.ccan_script.specs.LineFault.{ReadsLine};
ghost use Rattle.ccan_script.specs.FrameLine.{sending_of};
ghost use Rattle.ccan_script.specs.FaultName.{fault_in};
ghost use Rattle.ccan_script.specs.Round.{is_round, frames_in, frames_fault, round_fault, SaysRound};

use crate::fault_name::fault_in;
use crate::frame_line::read_frame;
use crate::json::items_in;
use crate::line_context::LineContext;
use crate::line_fault::LineFault;
use arrayvec::ArrayVec;
use ccan_accept::Frame;
use ccan_bus::{Fault, RoundLine};
use serde_json::Value;

/// The frames of a round, each with the node that sends it.
type Sends = ArrayVec<(u8, Frame), 8>;

/// The values of the frames of a round whose members have no fault.
#[tactic(auto, using(crate::proofs::Frames::few), unfolding(crate::specs::Round::frames_in))]
fn frame_values(line: &Value) -> &[Value]
    requires { is_round (view line.now) ≡ true }
    ensures are { map view result.now ≡ frames_in (view line.now) }
    ensures few { length result.now ≤ most_frames }
{
    items_in(line, "send")
}

/// The frames, one after another.
fn read_frames(values: &[Value], context: LineContext) -> Result<Sends, LineFault>
    requires nodes { context.nodes ≤ most_nodes }
    requires few { length values.now ≤ most_frames }
    ensures reads { let frames = map view values.now in
        ReadsLine (frames_fault context.nodes frames)
        (λ sends. sends.items ≡ map sending_of frames) result }
    ensures senders { IfOk result (λ sends.
        All (λ sending. (1 ≤ sending.0) × (sending.0 ≤ context.nodes)) sends.items) }
{
    let mut sends = Sends::new();
    for value in values {
        match read_frame(value, context) {
            Ok(sending) => sends.push(sending),
            Err(fault) => return Err(fault),
        }
    }
    Ok(sends)
}

/// What spoils the frame of a round whose members have no fault.
fn fault_of(line: &Value) -> Fault
    ensures { result ≡ unwrap_or (fault_in (view line.now)) Quiet }
{
    fault_in(line).unwrap_or(Fault::Quiet)
}

/// The round of a line whose members have no fault: its frames first, then that no node sends twice.
pub(crate) fn read_round(line: &Value, context: LineContext) -> Result<RoundLine, LineFault>
    requires nodes { context.nodes ≤ most_nodes }
    requires members { is_round (view line.now) ≡ true }
    ensures reads { let d = view line.now in
        ReadsLine (round_fault context.nodes d) (SaysRound d) result }
    ensures fits { IfOk result (λ round. AreSenders context.nodes round.send.items) }
{
    let sends = read_frames(frame_values(line), context)?;
    match RoundLine::new(context.nodes, sends, fault_of(line)) {
        Some(round) => Ok(round),
        None => Err(LineFault::Shape),
    }
}
