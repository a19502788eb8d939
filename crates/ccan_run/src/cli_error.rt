use clap::error::ErrorKind;
use std::alloc::AllocError;
use thiserror::Error;

/// Why the command line says no mode. It prints as the line that the program writes on standard error.
#[derive(Clone, Copy, PartialEq, Eq, PartialOrd, Ord, Hash, Debug, Error)]
pub enum CliError {
    /// The words are not those of a mode. A request for help is not one either.
    #[error("ccan: command line")]
    Words,
    /// Memory ran out.
    #[error("ccan: out of memory")]
    Memory,
}

impl CliError {
    ghost use Rattle.std.specs.Prelude.{◌≡◌};
    ghost use Rattle.ccan_run.specs.CliError.{cli_status};

    /// The exit status of the program.
    pub fn status(&self) -> u8
        ensures { result ≡ cli_status self.now }
    {
        match self {
            CliError::Words => 2,
            CliError::Memory => 3,
        }
    }
}

impl From<AllocError> for CliError {
    ghost use Rattle.std.specs.Prelude.{◌≡◌};
    ghost use Rattle.ccan_run.specs.declared.cli_error.CliError.TheVariants.{Memory};

    ghost from_gives = { λ _ e. e ≡ Memory };

    fn from(_refused: AllocError) -> CliError {
        CliError::Memory
    }
}

impl From<clap::Error> for CliError {
    ghost use Rattle.std.specs.Prelude.{◌≡◌};
    ghost use Rattle.ccan_run.specs.CliError.{error_from};

    ghost from_gives = { λ from e. e ≡ error_from from };

    fn from(error: clap::Error) -> CliError {
        match error.kind() {
            ErrorKind::OutOfMemory => CliError::Memory,
            _ => CliError::Words,
        }
    }
}
