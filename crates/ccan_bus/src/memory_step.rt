/// A memory step of a round.
#[derive(Clone, Copy, PartialEq, Eq, Hash, Debug)]
pub enum MemoryStep {
    /// The start of the object that is loaded. No frame was on the bus yet.
    Start,
    /// The finish of the object that was sent. Its frame was on the bus.
    Finish,
    /// The store of the frame that was received. The frame was on the bus; in loop back mode its object was finished.
    Store,
}
