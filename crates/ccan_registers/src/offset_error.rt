use crate::access_error::AccessError;
use thiserror::Error;

/// Why an access by an offset failed.
#[derive(Clone, Copy, PartialEq, Eq, Debug, Error)]
pub enum OffsetError {
    /// No register of the layout begins at the offset, and nothing happened.
    #[error("no register begins at the offset")]
    NoRegister,
    /// The access to the register that begins there failed.
    #[error("{0}")]
    Access(AccessError),
}
