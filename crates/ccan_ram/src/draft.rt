ghost use Rattle.std.specs.Prelude.{◌≡◌};

use ccan_object::{ObjectNo, Record};
use std::error::Error;
use std::fmt;

/// The beginning of a change: what one look at an object showed. A commit spends it, whatever it answers.
///
/// Only a memory makes one, by `SharedRam::prepare`, and only the port that it was made for may commit it.
#[derive(Debug, Drop)]
pub struct Draft {
    object: ObjectNo,
    held: Record,
    number: u64,
}

impl Draft {
    /// A draft, for a memory to hand out.
    pub fn new(object: ObjectNo, held: Record, number: u64) -> Draft
        ensures { result ≡ record { object = object; held = held; number = number } }
    {
        Draft {
            object,
            held,
            number,
        }
    }

    /// The object that the change is to be made to.
    pub fn object(&self) -> ObjectNo
        ensures { result ≡ self.now.object }
    {
        self.object
    }

    /// The record that the look showed.
    pub fn held(&self) -> Record
        ensures { result ≡ self.now.held }
    {
        self.held
    }

    /// The number of the last change that contends, as the look found it: 0 if there was none.
    pub fn number(&self) -> u64
        ensures { result ≡ self.now.number }
    {
        self.number
    }
}

/// Why a draft was not committed. Nothing was changed.
#[derive(Clone, Copy, PartialEq, Eq, Debug)]
pub enum CommitError {
    /// Since the draft was made, a change that contends was made, by any port.
    Lost {
        /// The number of the last such change.
        now: u64,
    },
    /// The port has made as many changes as it may.
    Spent,
}

impl fmt::Display for CommitError {
    ghost use Rattle.std.specs.Prelude.{Some};
    ghost use Rattle.ccan_ram.specs.ErrorText.{commit_error_text};

    ghost output = { λ e. Some (commit_error_text e) };

    fn fmt<W: fmt::Write>(&self, f: &mut fmt::Formatter<W>) -> fmt::Result {
        f.write_str(match self {
            CommitError::Lost { .. } => "lost to a change that contends",
            CommitError::Spent => "the port has made as many changes as it may",
        })
    }
}

impl Error for CommitError {}
