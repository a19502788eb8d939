use thiserror::Error;

/// Why an access to a register failed.
#[derive(Clone, Copy, PartialEq, Eq, Debug, Error)]
pub enum AccessError {
    /// The register is of another port's interface: those of IF1 are for IF1's port only, and those of IF2 for IF2's.
    #[error("the register is of another port's interface")]
    OtherInterface,
    /// Each try was lost to a change of another port; the access may be made again.
    #[error("each try was lost to a change of another port")]
    Busy,
    /// The port has made all the changes of message objects that the memory numbers.
    #[error("the port has made all the changes that it can")]
    Spent,
}
