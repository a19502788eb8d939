ghost use Rattle.std.specs.Prelude.{◌≡◌};
ghost use Rattle.ccan_c.specs.Outcome.{c_outcome, code_of_round, finished_of, is_lost, kind_of};
ghost use Rattle.ccan_c.specs.Outcome.{loaded_by, node_shown, refused_number};
ghost use Rattle.ccan_c.specs.Outcome.{object_of, step_number, stored_object, stored_of};
ghost use Rattle.ccan_c.specs.Outcome.{stored_record, winner_in};

use crate::code::{BUSY, code_of_reply};
use crate::shown_frame::ShownFrame;
use crate::shown_record::ShownRecord;
use ccan_accept::Frame;
use ccan_bus::{Decision, LoadAnswer, MemoryStep, RoundAnswer};
use ccan_chip::ChipReport;
use ccan_endless::{ControllerBusy, ControllerChanged};
use ccan_object::{ObjectNo, Record};

/// The number that stands for no node.
pub const NO_NODE: u32 = 255;

/// The number that `refused` has if the round's event was not made at the controller.
pub const NOT_NOTED: u32 = 4;

/// What came of a round.
#[repr(C)]
#[derive(Clone, Copy, PartialEq, Eq, Debug)]
pub struct ShownOutcome {
    /// 0 idle, 1 sent, 2 received, 3 passed, 4 collision, 5 not acknowledged, 6 fault, 7 looped, 8 busy, 9 spent.
    pub kind: u32,
    /// The object that was sent, or at which a step of the memory was given up, 0 if there is none.
    pub object: u32,
    /// Its record after the finish, zero if none was finished.
    pub finished: ShownRecord,
    /// The object that stored the frame, 0 if there is none.
    pub stored: u32,
    /// Its record after the store, zero if there is none.
    pub stored_record: ShownRecord,
    /// The object that this round itself loaded, 0 if an earlier load did or none was loaded.
    pub loaded: u32,
    /// What was refused: 0 nothing, 1 the start of the load, 2 the finish, 3 the store, 4 the round's event at the controller.
    pub refused: u32,
    /// The node whose frame was on the bus, 0 the controller; `NO_NODE` if no single frame was.
    pub winner: u32,
    /// That frame, zero if no single frame was.
    pub frame: ShownFrame,
}

/// Which kind of answer it is.
fn kind_of(reply: &RoundAnswer) -> u32
    ensures { result ≡ kind_of reply.now }
{
    match reply {
        RoundAnswer::Idle => 0,
        RoundAnswer::Sent(_, _) => 1,
        RoundAnswer::Received(_) => 2,
        RoundAnswer::Passed => 3,
        RoundAnswer::Collision => 4,
        RoundAnswer::NoAck => 5,
        RoundAnswer::Fault => 6,
        RoundAnswer::Looped(_, _, _) => 7,
        RoundAnswer::Busy(_) => 8,
        RoundAnswer::Spent(_) => 9,
    }
}

/// The object that was sent, or at which a step was given up.
pub(crate) fn object_of(reply: &RoundAnswer) -> u32
    ensures { result ≡ object_of reply.now }
{
    match reply {
        RoundAnswer::Sent(object, _) => u32::from(object.get()),
        RoundAnswer::Looped(object, _, _) => u32::from(object.get()),
        RoundAnswer::Busy(object) => u32::from(object.get()),
        RoundAnswer::Spent(object) => u32::from(object.get()),
        RoundAnswer::Idle
        | RoundAnswer::Received(_)
        | RoundAnswer::Passed
        | RoundAnswer::Collision
        | RoundAnswer::NoAck
        | RoundAnswer::Fault => 0,
    }
}

/// Its record after the finish.
pub(crate) fn finished_of(reply: &RoundAnswer) -> Record
    ensures { result ≡ finished_of reply.now }
{
    match reply {
        RoundAnswer::Sent(_, finished) => *finished,
        RoundAnswer::Looped(_, finished, _) => *finished,
        RoundAnswer::Idle
        | RoundAnswer::Received(_)
        | RoundAnswer::Passed
        | RoundAnswer::Collision
        | RoundAnswer::NoAck
        | RoundAnswer::Fault
        | RoundAnswer::Busy(_)
        | RoundAnswer::Spent(_) => Record::zero(),
    }
}

/// The object that stored the frame, with its record.
pub(crate) fn stored_of(reply: &RoundAnswer) -> Option<(ObjectNo, Record)>
    ensures { result ≡ stored_of reply.now }
{
    match reply {
        RoundAnswer::Received(stored) => *stored,
        RoundAnswer::Looped(_, _, stored) => *stored,
        RoundAnswer::Idle
        | RoundAnswer::Sent(_, _)
        | RoundAnswer::Passed
        | RoundAnswer::Collision
        | RoundAnswer::NoAck
        | RoundAnswer::Fault
        | RoundAnswer::Busy(_)
        | RoundAnswer::Spent(_) => None,
    }
}

/// The object that stored a frame, 0 if there is none.
pub(crate) fn stored_object(stored: &Option<(ObjectNo, Record)>) -> u32
    ensures { result ≡ stored_object stored.now }
{
    match stored {
        Some((object, _)) => u32::from(object.get()),
        None => 0,
    }
}

/// Its record.
pub(crate) fn stored_record(stored: &Option<(ObjectNo, Record)>) -> Record
    ensures { result ≡ stored_record stored.now }
{
    match stored {
        Some((_, found)) => *found,
        None => Record::zero(),
    }
}

/// The object that a round itself loaded.
fn loaded_by(loading: &LoadAnswer) -> u32
    ensures { result ≡ loaded_by loading.now }
{
    match loading {
        LoadAnswer::Loaded(object, _) => u32::from(object.get()),
        LoadAnswer::Held(_) | LoadAnswer::Nothing | LoadAnswer::Busy(_) | LoadAnswer::Spent(_) => 0,
    }
}

/// The step that was refused.
pub fn step_number(refused: Option<MemoryStep>) -> u32
    ensures { result ≡ step_number refused }
{
    match refused {
        None => 0,
        Some(MemoryStep::Start) => 1,
        Some(MemoryStep::Finish) => 2,
        Some(MemoryStep::Store) => 3,
    }
}

/// The node and the frame that won the bus.
fn winner_in(decision: &Option<Decision>) -> Option<(u8, Frame)>
    ensures { result ≡ winner_in decision.now }
{
    match decision {
        Some(decided) => decided.winner(),
        None => None,
    }
}

/// The node whose frame was on the bus.
fn node_shown(winner: &Option<(u8, Frame)>) -> u32
    ensures { result ≡ node_shown winner.now }
{
    match winner {
        Some((node, _)) => u32::from(*node),
        None => NO_NODE,
    }
}

/// Whether the round's event was to be made at the controller, and each try was lost.
pub(crate) fn is_lost(noted: &Option<Result<ControllerChanged, ControllerBusy>>) -> bool
    ensures { result ≡ is_lost noted.now }
{
    match noted {
        Some(Err(_)) => true,
        Some(Ok(_)) | None => false,
    }
}

/// What was refused: the event at the controller, or else a step of the message RAM.
fn refused_number(told: &ChipReport) -> u32
    ensures { result ≡ refused_number told.now }
{
    if is_lost(&told.noted) {
        NOT_NOTED
    } else {
        step_number(told.report.end.refused)
    }
}

/// The code of a round.
pub(crate) fn code_of_round(told: &ChipReport) -> u32
    ensures { result ≡ code_of_round told.now }
{
    if is_lost(&told.noted) {
        BUSY
    } else {
        code_of_reply(&told.report.end.answer)
    }
}

impl ShownOutcome {
    /// What came of a round as C sees it.
    pub fn of(told: &ChipReport) -> ShownOutcome
        ensures { result ≡ c_outcome told.now }
    {
        let report = &told.report;
        let reply = report.end.answer;
        let stored = stored_of(&reply);
        let winner = winner_in(&report.decision);
        ShownOutcome {
            kind: kind_of(&reply),
            object: object_of(&reply),
            finished: ShownRecord::of(&finished_of(&reply)),
            stored: stored_object(&stored),
            stored_record: ShownRecord::of(&stored_record(&stored)),
            loaded: loaded_by(&report.loading),
            refused: refused_number(told),
            winner: node_shown(&winner),
            frame: ShownFrame::of(&winner),
        }
    }
}
