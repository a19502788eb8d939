use crate::list_name::ListName;
use ccan_ram::PortName;
use std::alloc::{AllocError, AllocFailed};
use thiserror::Error;

/// Why bytes are not a script. It prints as the line that the program writes on standard error.
#[derive(Clone, Copy, PartialEq, Eq, PartialOrd, Ord, Hash, Debug, Error)]
pub enum ScriptError {
    /// The bytes are not a JSON value, or not UTF-8.
    #[error("ccan: script: not JSON")]
    NotJson,
    /// A value isn't of its shape. The index is that of the line in its list, from 0.
    #[error("ccan: script: shape, {list} {index}")]
    Shape { list: ListName, index: usize },
    /// A number is out of its range. The index is that of the line in its list, from 0.
    #[error("ccan: script: range, {list} {index}")]
    Range { list: ListName, index: usize },
    /// A list has more lines than a script may have.
    #[error("ccan: script: too many, {list}")]
    TooMany { list: ListName },
    /// The order names a port more or less often than it has lines.
    #[error("ccan: script: order, {port}")]
    Order { port: PortName },
    /// The lines that run before a race are more of a port than it has.
    #[error("ccan: script: before, {port}")]
    Before { port: PortName },
    /// Memory ran out.
    #[error("ccan: out of memory")]
    Memory,
}

impl From<AllocError> for ScriptError {
    ghost use Rattle.std.specs.Prelude.{◌≡◌};
    ghost use Rattle.ccan_script.specs.declared.script_error.ScriptError.TheVariants.{Memory};

    ghost from_gives = { λ _ e. e ≡ Memory };

    fn from(_refused: AllocError) -> ScriptError {
        ScriptError::Memory
    }
}

impl<T: Drop> From<AllocFailed<T>> for ScriptError {
    ghost use Rattle.std.specs.Prelude.{◌≡◌};
    ghost use Rattle.ccan_script.specs.declared.script_error.ScriptError.TheVariants.{Memory};

    ghost from_gives = { λ _ e. e ≡ Memory };

    fn from(_refused: AllocFailed<T>) -> ScriptError {
        ScriptError::Memory
    }
}

impl From<serde_json::Error> for ScriptError {
    ghost use Rattle.ccan_script.specs.ScriptError.{IsRefusalOf};

    ghost from_gives = { λ from e. IsRefusalOf from e };

    fn from(error: serde_json::Error) -> ScriptError {
        if error.is_memory() {
            ScriptError::Memory
        } else {
            ScriptError::NotJson
        }
    }
}
