use ccan_ram::{OpenError, PortName};
use ccan_script::ScriptError;
use std::alloc::AllocError;
use thiserror::Error;

/// Why a run stopped. It prints as the line that the program writes on standard error.
#[derive(Clone, Copy, PartialEq, Eq, PartialOrd, Ord, Hash, Debug, Error)]
pub enum RunError {
    /// A read failed.
    #[error("ccan: input could not be read")]
    Read,
    /// The input has more bytes than it may have.
    #[error("ccan: input too long")]
    TooLong,
    /// The input is not a script.
    #[error(transparent)]
    Script(ScriptError),
    /// The quota is more than the memory's form can number for a port.
    #[error("ccan: quota out of range")]
    Quota,
    /// Memory ran out.
    #[error("ccan: out of memory")]
    Memory,
    /// A thread could not be started.
    #[error("ccan: threads could not be started")]
    Spawn,
    /// A gate stopped this port before the line of this index, from 0.
    #[error("ccan: held, {port} {line}")]
    Held { port: PortName, line: usize },
    /// A write failed, or took no byte.
    #[error("ccan: output could not be written")]
    Write,
}

impl RunError {
    ghost use Rattle.std.specs.Prelude.{◌≡◌};
    ghost use Rattle.ccan_run.specs.RunError.{exit_status};

    /// The exit status of the program.
    pub fn status(&self) -> u8
        ensures { result ≡ exit_status self.now }
    {
        match self {
            RunError::Script(ScriptError::Memory) | RunError::Memory => 3,
            RunError::TooLong | RunError::Script(_) | RunError::Quota => 1,
            RunError::Read | RunError::Spawn | RunError::Held { .. } | RunError::Write => 4,
        }
    }
}

impl From<AllocError> for RunError {
    ghost use Rattle.std.specs.Prelude.{◌≡◌};
    ghost use Rattle.ccan_run.specs.declared.run_error.RunError.TheVariants.{Memory};

    ghost from_gives = { λ _ e. e ≡ Memory };

    fn from(_refused: AllocError) -> RunError {
        RunError::Memory
    }
}

impl From<ScriptError> for RunError {
    ghost use Rattle.std.specs.Prelude.{◌≡◌};
    ghost use Rattle.ccan_run.specs.declared.run_error.RunError.TheVariants.{Script};

    ghost from_gives = { λ from e. e ≡ Script from };

    fn from(refusal: ScriptError) -> RunError {
        RunError::Script(refusal)
    }
}

impl From<OpenError> for RunError {
    ghost use Rattle.ccan_run.specs.RunError.{IsOpenFault};

    ghost from_gives = { λ from e. IsOpenFault from e };

    fn from(refusal: OpenError) -> RunError {
        match refusal {
            OpenError::QuotaRange => RunError::Quota,
            OpenError::Memory => RunError::Memory,
        }
    }
}
