//! The end of a frame at a chip, as C sees it.
ghost use Rattle.std.specs.Prelude.{◌≡◌, IfSome};
ghost use Rattle.ccan_confine.specs.StatusEvent.{HasFaultCode};
ghost use Rattle.ccan_c.specs.Finished.{c_finished, code_of_end, counts_in, counts_number, event_code};
ghost use Rattle.ccan_c.specs.Finished.{event_in, event_number, refused_at_end, status_in};

use crate::code::{BUSY, code_of_reply};
use crate::shown_outcome::{
    NOT_NOTED, finished_of, is_lost, object_of, step_number, stored_object, stored_of,
    stored_record,
};
use crate::shown_record::ShownRecord;
use ccan_chip::OwnEvent;
use ccan_confine::{BusEvent, StatusEvent};
use ccan_station::Ended;

/// What a frame was to a chip.
#[repr(C)]
#[derive(Clone, Copy, PartialEq, Eq, Debug)]
pub struct ShownFinished {
    /// 0 nothing, 1 sent, 2 received, 3 looped, 4 an error.
    pub event: u32,
    /// The last error code of an error, 0 of none.
    pub code: u32,
    /// What it is to the error counters: 0 nothing, 1 sent, 2 received, 3 an error of a sender, 4 not acknowledged, 5 an error of a
    /// receiver.
    pub counts: u32,
    /// The object that was sent, or at which a step was given up, 0 if there is none.
    pub object: u32,
    /// Its record after the finish, zero if none was finished.
    pub finished: ShownRecord,
    /// The object that stored the frame, 0 if there is none.
    pub stored: u32,
    /// Its record after the store, zero if there is none.
    pub stored_record: ShownRecord,
    /// What was refused: 0 nothing, 2 the finish, 3 the store, 4 the event at the controller.
    pub refused: u32,
}

/// What an event is to the Status register.
pub(crate) fn event_number(own: &Option<OwnEvent>) -> u32
    ensures { result ≡ event_number own.now }
{
    match own {
        None => 0,
        Some((_, StatusEvent::Sent)) => 1,
        Some((_, StatusEvent::Received)) => 2,
        Some((_, StatusEvent::Looped)) => 3,
        Some((_, StatusEvent::Fault(_))) => 4,
        Some((_, StatusEvent::Recovery)) => 0,
        Some((_, StatusEvent::Level)) => 0,
    }
}

fn event_code(own: &Option<OwnEvent>) -> u32
    ensures { result ≡ event_code own.now }
{
    match own {
        None => 0,
        Some((_, StatusEvent::Fault(code))) => u32::from(*code),
        Some((_, StatusEvent::Sent)) => 0,
        Some((_, StatusEvent::Received)) => 0,
        Some((_, StatusEvent::Looped)) => 0,
        Some((_, StatusEvent::Recovery)) => 0,
        Some((_, StatusEvent::Level)) => 0,
    }
}

fn counts_number(own: &Option<OwnEvent>) -> u32
    ensures { result ≡ counts_number own.now }
{
    match own {
        None => 0,
        Some((BusEvent::Sent, _)) => 1,
        Some((BusEvent::Received, _)) => 2,
        Some((BusEvent::SendFault, _)) => 3,
        Some((BusEvent::SendNoAck, _)) => 4,
        Some((BusEvent::ReceiveFault, _)) => 5,
    }
}

fn counts_in(number: u32) -> Option<BusEvent>
    ensures { result ≡ counts_in number }
{
    match number {
        1 => Some(BusEvent::Sent),
        2 => Some(BusEvent::Received),
        3 => Some(BusEvent::SendFault),
        4 => Some(BusEvent::SendNoAck),
        5 => Some(BusEvent::ReceiveFault),
        _ => None,
    }
}

fn status_in(number: u32, code: u32) -> Option<StatusEvent>
    ensures is { result ≡ status_in number code }
    ensures known { IfSome result HasFaultCode }
{
    match number {
        1 => Some(StatusEvent::Sent),
        2 => Some(StatusEvent::Received),
        3 => Some(StatusEvent::Looped),
        4 if code >= 1 && code <= 6 => Some(StatusEvent::Fault(code as u8)),
        _ => None,
    }
}

fn refused_at_end(told: &Ended) -> u32
    ensures { result ≡ refused_at_end told.now }
{
    if is_lost(&told.noted) {
        NOT_NOTED
    } else {
        step_number(told.end.refused)
    }
}

/// The code of the end of a frame.
pub(crate) fn code_of_end(told: &Ended) -> u32
    ensures { result ≡ code_of_end told.now }
{
    if is_lost(&told.noted) {
        BUSY
    } else {
        code_of_reply(&told.end.answer)
    }
}

impl ShownFinished {
    /// The end of a frame as C sees it.
    pub(crate) fn of(told: &Ended) -> ShownFinished
        ensures { result ≡ c_finished told.now }
    {
        let reply = told.end.answer;
        let stored = stored_of(&reply);
        ShownFinished {
            event: event_number(&told.own),
            code: event_code(&told.own),
            counts: counts_number(&told.own),
            object: object_of(&reply),
            finished: ShownRecord::of(&finished_of(&reply)),
            stored: stored_object(&stored),
            stored_record: ShownRecord::of(&stored_record(&stored)),
            refused: refused_at_end(told),
        }
    }

    /// The event that was lost. None if there is no such event.
    pub(crate) fn event(&self) -> Option<OwnEvent>
        ensures is { result ≡ event_in self.now }
        ensures known { IfSome result (λ own. HasFaultCode own.1) }
    {
        let counted = counts_in(self.counts)?;
        let noted = status_in(self.event, self.code)?;
        Some((counted, noted))
    }
}
