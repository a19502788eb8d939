use std::error::Error;
use std::fmt;

/// Why there is no frame of these parts.
#[derive(Clone, Copy, PartialEq, Eq, Hash, Debug)]
pub enum FrameError {
    /// The identifier has more bits than a standard one (11) or an extended one (29).
    IdRange,
    /// The data length code is above 15.
    DlcRange,
}

impl fmt::Display for FrameError {
    ghost use Rattle.std.specs.Prelude.{Some};
    ghost use Rattle.ccan_accept.specs.FrameError.{error_text};

    ghost output = { λ e. Some (error_text e) };

    fn fmt<W: fmt::Write>(&self, f: &mut fmt::Formatter<W>) -> fmt::Result {
        f.write_str(match self {
            FrameError::IdRange => "identifier out of range",
            FrameError::DlcRange => "data length code above 15",
        })
    }
}

impl Error for FrameError {}
