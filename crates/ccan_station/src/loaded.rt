use ccan_object::{ObjectNo, Record};
use ccan_ram::Sending;

/// An object whose transmission was started, and whose frame has not been sent yet.
#[derive(Clone, Copy, PartialEq, Eq, Hash, Debug)]
pub struct Loaded {
    /// The object.
    pub object: ObjectNo,
    /// Its record after the start.
    pub started: Record,
    /// How often its frame is tried, as DAR was when it was started.
    pub sending: Sending,
}
