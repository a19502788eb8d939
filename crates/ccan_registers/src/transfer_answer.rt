use ccan_object::{ObjectNo, Record};

/// What a transfer answers. The record is the message buffer after it.
#[derive(Clone, Copy, PartialEq, Eq, Debug)]
pub enum TransferAnswer {
    /// The object was written.
    Write(ObjectNo, Record),
    /// The object was read.
    Read(ObjectNo, Record),
    /// Nothing was moved: each try was lost to a change of another port.
    Busy(ObjectNo),
    /// Nothing was moved: the port has made all the changes of message objects that the memory numbers.
    Spent(ObjectNo),
}
