//! What the calls from C answer. C sees these numbers, and no others.
ghost use Rattle.std.specs.Prelude.{◌≡◌};
ghost use Rattle.ccan_line.specs.declared.line_answer.LineAnswer.TheVariants.{Load, Round};
ghost use Rattle.ccan_registers.specs.Objects.{as_line};
ghost use Rattle.ccan_c.specs.Answer.{code_of};

use ccan_bus::{LoadAnswer, RoundAnswer};
use ccan_registers::TransferAnswer;

/// Done.
pub const DONE: u32 = 0;
/// The handle is closed.
pub const CLOSED: u32 = 1;
/// Each try was lost to a change of another port.
pub const BUSY: u32 = 2;
/// The port has made all the changes that the memory numbers, see `ccan_endless::MOST`.
pub const SPENT: u32 = 3;
/// Memory ran out.
pub const NO_MEMORY: u32 = 4;
/// Somebody else holds the memory.
pub const SHARED: u32 = 5;
/// There is no such profile.
pub const PROFILE_RANGE: u32 = 6;
/// There are too many nodes.
pub const NODES_RANGE: u32 = 7;
// 8 is not a code any more: it was that of a quota out of its range.
/// A change may not be tried so few or so many times.
pub const TRIES_RANGE: u32 = 9;
/// There is no such register.
pub const REGISTER_RANGE: u32 = 10;
/// The chip has no such object.
pub const OBJECT_RANGE: u32 = 11;
/// There is no such flag.
pub const FLAG_RANGE: u32 = 12;
/// An object may not be looked at so few or so many times.
pub const TURNS_RANGE: u32 = 13;
/// The bus has no such node.
pub const NODE_RANGE: u32 = 14;
/// So few or so many groups of recessive bits may not pass in one call.
pub const GROUPS_RANGE: u32 = 15;
/// There are too many frames.
pub const FRAMES_RANGE: u32 = 16;
/// The identifier or the length of a frame is out of its range.
pub const FRAME_RANGE: u32 = 17;
/// There is no such fault.
pub const FAULT_RANGE: u32 = 18;
/// A sender is not one of the other nodes, or sends twice.
pub const SENDERS: u32 = 19;

/// No register of the layout begins at this offset.
pub const OFFSET_RANGE: u32 = 20;
/// The register is of another port's interface.
pub const OTHER_INTERFACE: u32 = 21;
/// There is no such layout.
pub const MAP_RANGE: u32 = 22;
/// These bytes are not a saved chip, or are one of a version that is not known.
pub const NO_SAVED_CHIP: u32 = 23;
/// No chip can be as the bytes say.
pub const NO_CHIP: u32 = 24;

/// The note says nothing.
pub const UNTOLD: u32 = 25;

/// There are too many members of a bus.
pub const MEMBERS_RANGE: u32 = 26;
/// A member's role, fault or frame is out of its range.
pub const MEMBER_RANGE: u32 = 27;
/// What is on the bus is out of its range: its kind, or its frame.
pub const WIRE_RANGE: u32 = 28;
/// No bus has such a position.
pub const PLACE_RANGE: u32 = 29;
/// There is no such event of a controller.
pub const EVENT_RANGE: u32 = 30;
/// A node's error counters are out of their range.
pub const COUNTERS_RANGE: u32 = 31;

/// The code of a load.
#[inline(always)]
pub(crate) fn code_of_load(loading: &LoadAnswer) -> u32
    ensures { result ≡ code_of (Load loading.now) }
{
    match loading {
        LoadAnswer::Busy(_) => BUSY,
        LoadAnswer::Spent(_) => SPENT,
        LoadAnswer::Loaded(_, _) | LoadAnswer::Held(_) | LoadAnswer::Nothing => DONE,
    }
}

/// The code of a round's answer.
#[inline(always)]
pub(crate) fn code_of_reply(reply: &RoundAnswer) -> u32
    ensures { result ≡ code_of (Round reply.now) }
{
    match reply {
        RoundAnswer::Busy(_) => BUSY,
        RoundAnswer::Spent(_) => SPENT,
        RoundAnswer::Idle
        | RoundAnswer::Sent(_, _)
        | RoundAnswer::Received(_)
        | RoundAnswer::Passed
        | RoundAnswer::Collision
        | RoundAnswer::NoAck
        | RoundAnswer::Fault
        | RoundAnswer::Looped(_, _, _) => DONE,
    }
}

/// The code of a transfer.
#[inline(always)]
pub(crate) fn code_of_transfer(answer: &TransferAnswer) -> u32
    ensures { result ≡ code_of (as_line answer.now) }
{
    match answer {
        TransferAnswer::Busy(_) => BUSY,
        TransferAnswer::Spent(_) => SPENT,
        TransferAnswer::Write(_, _) | TransferAnswer::Read(_, _) => DONE,
    }
}
