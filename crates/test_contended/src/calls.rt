//! The handler's calls, without their promises. What each adds to the history is proved in its own crate, and here it would only
//! stay known from call to call, which makes the proof of a test long.
use ccan_accept::Frame;
use ccan_handler::{ScanRefused, Stored};
use ccan_object::{ObjectNo, Record};
use ccan_ram::{Access, Flag, Sending, Tries};

/// The first object that is ready, and what its start left.
pub fn choose<A: Access>(
    access: &mut A,
    tries: Tries,
) -> Result<Option<(ObjectNo, Record)>, ScanRefused> {
    ccan_handler::choose(access, tries)
}

/// The same from an object on, by its request.
pub fn choose_from<A: Access>(
    access: &mut A,
    from: u16,
    tries: Tries,
) -> Result<Option<(ObjectNo, Record)>, ScanRefused> {
    let from = ObjectNo::from_request(access.profile(), from);
    ccan_handler::choose_from(access, from, tries)
}

/// The first object that was ready at one moment, and what its start left.
pub fn choose_at_once<A: Access>(
    access: &mut A,
    sending: Sending,
    tries: Tries,
) -> Result<Option<(ObjectNo, Record)>, ScanRefused> {
    ccan_handler::choose_at_once(access, sending, tries)
}

/// Where a frame is stored.
pub fn receive<A: Access>(
    access: &mut A,
    frame: &Frame,
    tries: Tries,
) -> Result<Option<Stored>, ScanRefused> {
    ccan_handler::receive(access, frame, tries)
}

/// The same from an object on, by its request.
pub fn receive_from<A: Access>(
    access: &mut A,
    frame: &Frame,
    from: u16,
    tries: Tries,
) -> Result<Option<Stored>, ScanRefused> {
    let from = ObjectNo::from_request(access.profile(), from);
    ccan_handler::receive_from(access, frame, from, tries)
}

/// A flag of all objects, in turn.
pub fn flags<A: Access>(access: &mut A, flag: Flag) -> u64 {
    ccan_handler::flags(access, flag)
}

/// A flag of all objects, at one moment.
pub fn flags_at_once<A: Access>(access: &mut A, flag: Flag) -> u64 {
    ccan_handler::flags_at_once(access, flag)
}

/// The interrupt value, by looks in turn.
pub fn interrupt<A: Access>(access: &mut A, status_pending: bool) -> u16 {
    ccan_handler::interrupt(access, status_pending)
}

/// The interrupt value, at one moment.
pub fn interrupt_at_once<A: Access>(access: &mut A, status_pending: bool) -> u16 {
    ccan_handler::interrupt_at_once(access, status_pending)
}

/// Whether an object, by its request, shows a flag within so many looks.
pub fn until<A: Access>(access: &mut A, request: u16, flag: Flag, turns: u32) -> bool {
    let object = ObjectNo::from_request(access.profile(), request);
    ccan_handler::until(access, object, flag, turns)
}
