ghost use Rattle.std.specs.Prelude.{◌≡◌};
ghost use Rattle.ccan_accept.specs.Store.{stored, stored_data, stored_header, stored_remote, stored_turned};

use crate::frame::{Frame, first_bytes};
use ccan_object::Record;

/// The record after a frame's header: identifier, width and length.
fn stored_header(object: &Record, frame: &Frame) -> Record
    ensures { result ≡ stored_header object.now frame.now }
{
    Record {
        id: frame.identifier(),
        xtd: frame.xtd(),
        dlc: frame.dlc(),
        newdat: true,
        intpnd: object.intpnd || object.rxie,
        txrqst: false,
        ..*object
    }
}

/// The record after a data frame.
fn stored_data(object: &Record, frame: &Frame) -> Record
    ensures { result ≡ stored_data object.now frame.now }
{
    Record {
        dir: false,
        bytes: first_bytes(&frame.bytes(), frame.dlc().byte_count()),
        msglst: object.msglst || object.newdat && !object.dir,
        ..stored_header(object, frame)
    }
}

/// The record after a remote frame, at an object that receives. From now on it transmits.
fn stored_turned(object: &Record, frame: &Frame) -> Record
    ensures { result ≡ stored_turned object.now frame.now }
{
    Record {
        dir: true,
        msglst: object.msglst || object.newdat,
        ..stored_header(object, frame)
    }
}

/// The record after a remote frame.
fn stored_remote(object: &Record, frame: &Frame) -> Record
    ensures { result ≡ stored_remote object.now frame.now }
{
    match (object.dir, object.rmten, object.umask) {
        (false, _, _) => stored_turned(object, frame),
        (true, true, _) => Record {
            txrqst: true,
            ..*object
        },
        (true, false, true) => stored_header(object, frame),
        (true, false, false) => *object,
    }
}

/// The record of a message object after a frame that it accepts (User's Manual, section 4.2): a data frame is stored
/// whole, a remote frame requests a transmission, stores its header or does nothing.
pub fn stored(object: &Record, frame: &Frame) -> Record
    ensures { result ≡ stored object.now frame.now }
{
    if frame.rtr() {
        stored_remote(object, frame)
    } else {
        stored_data(object, frame)
    }
}
