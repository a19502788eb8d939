use std::error::Error;
use std::fmt;

/// Why a memory was not opened.
#[derive(Clone, Copy, PartialEq, Eq, Debug)]
pub enum OpenError {
    /// The quota is 0, or more changes than such a memory can number for a port. This is found first.
    QuotaRange,
    /// There is no room for its words.
    Memory,
}

impl fmt::Display for OpenError {
    ghost use Rattle.std.specs.Prelude.{Some};
    ghost use Rattle.ccan_ram.specs.ErrorText.{open_error_text};

    ghost output = { λ e. Some (open_error_text e) };

    fn fmt<W: fmt::Write>(&self, f: &mut fmt::Formatter<W>) -> fmt::Result {
        f.write_str(match self {
            OpenError::QuotaRange => "the quota is out of range",
            OpenError::Memory => "out of memory",
        })
    }
}

impl Error for OpenError {}
