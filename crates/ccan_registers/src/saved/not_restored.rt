use thiserror::Error;

/// Why a chip was not put back. The chip has made some steps then, and is to be closed.
#[derive(Clone, Copy, PartialEq, Eq, Debug, Error)]
pub enum NotRestored {
    /// The chip has another number of objects than the saved one. It has made no step.
    #[error("the chip has another number of objects")]
    OtherProfile,
    /// No chip that was saved is like this: the last looks found something else.
    #[error("no chip can be like this")]
    NotAChip,
    /// Each try of a change was lost to a change of another port.
    #[error("each try was lost to a change of another port")]
    Busy,
    /// The bus's port has made all the changes of message objects that the memory numbers.
    #[error("the port has made all the changes that it can")]
    Spent,
}
