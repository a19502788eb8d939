use ccan_run::RunError;
use std::alloc::AllocError;
use thiserror::Error;

/// Why a question has no answer. It prints as the line that the program writes on standard error.
#[derive(Clone, Copy, Debug, Error)]
pub enum LabError {
    /// The words of the command line can't be had.
    #[error("ccan-lab: command line")]
    Words,
    /// The file could not be opened.
    #[error("ccan-lab: file could not be opened")]
    Open,
    /// The input could not be read, or is no script. It prints as `ccan` reports it.
    #[error(transparent)]
    Input(RunError),
    /// The ports can come to more states than this.
    #[error("ccan-lab: outcomes: more than {0} states; --most allows more, more tries may need fewer")]
    More(usize),
    /// The outcomes need more nodes than this to be put together.
    #[error("ccan-lab: outcomes: more than {0} nodes; --most allows more")]
    Nodes(usize),
    /// The name of this number, from 1, of those that are to be observed is that of no line and no object.
    #[error("ccan-lab: outcomes: --observe: name {0} is no line or object of the script")]
    NoPlace(usize),
    /// No printed line of the script can begin with what is to be searched for.
    #[error("ccan-lab: outcomes: no printed line of this script can begin with that LINE")]
    NoLine,
    /// The log is no text.
    #[error("ccan-lab: log: not UTF-8")]
    Log,
    /// The log has more frames than a script may have lines.
    #[error("ccan-lab: log: more than 2000 frames")]
    Frames,
    /// There is no outcome of this number; so many are listed.
    #[error("ccan-lab: draw: no outcome {0}, the list has {1}")]
    NoOutcome(usize, usize),
    /// Memory ran out.
    #[error("ccan-lab: out of memory")]
    Memory,
    /// A write failed.
    #[error("ccan-lab: output could not be written")]
    Write,
}

impl LabError {
    ghost use Rattle.std.specs.Prelude.{◌≡◌};
    ghost use Rattle.ccan_lab.specs.LabError.{exit_status};

    /// The exit status of the program.
    pub fn status(&self) -> u8
        ensures { result ≡ exit_status self.now }
    {
        match self {
            LabError::Input(fault) => fault.status(),
            LabError::Log | LabError::Frames => 1,
            LabError::Words | LabError::NoPlace(_) | LabError::NoLine => 2,
            LabError::Memory => 3,
            LabError::Open | LabError::Write => 4,
            LabError::More(_) | LabError::Nodes(_) => 5,
            LabError::NoOutcome(_, _) => 9,
        }
    }
}

impl From<AllocError> for LabError {
    ghost use Rattle.std.specs.Prelude.{◌≡◌};
    ghost use Rattle.ccan_lab.specs.declared.lab_error.LabError.TheVariants.{Memory};

    ghost from_gives = { λ _ e. e ≡ Memory };

    fn from(_refused: AllocError) -> LabError {
        LabError::Memory
    }
}

impl From<RunError> for LabError {
    ghost use Rattle.std.specs.Prelude.{◌≡◌};
    ghost use Rattle.ccan_lab.specs.declared.lab_error.LabError.TheVariants.{Input};

    ghost from_gives = { λ from e. e ≡ Input from };

    fn from(fault: RunError) -> LabError {
        LabError::Input(fault)
    }
}
