ghost use Rattle.std.specs.Prelude.{◌≡◌};
ghost use Rattle.ccan_accept.specs.Frame.{IsFrame};
ghost use Rattle.ccan_accept.specs.Send.{finished, finished_once, frame_of, is_ready, started, started_once};

use crate::frame::Frame;
use ccan_object::Record;

/// Whether a message object is to be sent.
pub fn ready(object: &Record) -> bool
    ensures { result ≡ is_ready object.now }
{
    object.valid && object.txrqst
}

/// The record as its transmission starts: NewDat 0.
pub fn started(object: &Record) -> Record
    ensures { result ≡ started object.now }
{
    Record {
        newdat: false,
        ..*object
    }
}

/// The record once its transmission has ended well: the request is met unless new data came meanwhile, and TxIE asks for
/// an interrupt.
pub fn finished(object: &Record) -> Record
    ensures { result ≡ finished object.now }
{
    Record {
        txrqst: object.txrqst && object.newdat,
        intpnd: object.intpnd || object.txie,
        ..*object
    }
}

/// The record as its transmission starts, if its frame is tried once (DAR 1 of the CAN Control register): TxRqst 0. NewDat
/// stays, and says until the end that the frame was not sent.
pub fn started_once(object: &Record) -> Record
    ensures { result ≡ started_once object.now }
{
    Record {
        txrqst: false,
        ..*object
    }
}

/// The record once a transmission that was started once has ended well: NewDat 0, and TxIE asks for an interrupt. A request
/// that came meanwhile remains.
pub fn finished_once(object: &Record) -> Record
    ensures { result ≡ finished_once object.now }
{
    Record {
        newdat: false,
        intpnd: object.intpnd || object.txie,
        ..*object
    }
}

/// The frame that a message object sends: a data frame if Dir is 1, else a remote frame.
pub fn frame_of(object: &Record) -> Frame
    ensures frame { result ≡ frame_of object.now }
    ensures is_frame { IsFrame result }
{
    let identifier = object.id.get();
    let id = if object.xtd {
        identifier
    } else {
        identifier >> 18
    };
    Frame::made(id, object.xtd, !object.dir, object.dlc, &object.bytes)
}
