ghost use Rattle.std.specs.Prelude.{◌≡◌};
ghost use Rattle.ccan_process.specs.Act.{attempted};
ghost use Rattle.ccan_line.specs.Engine.{attempted_of};

use ccan_object::Record;
use ccan_ram::{Changed, Refused};

/// How an attempt of a change ends.
#[derive(Clone, Copy, PartialEq, Eq, Debug)]
pub enum AttemptEnd {
    /// It is made.
    Made {
        /// The record that it found.
        before: Record,
        /// The record that it left.
        after: Record,
    },
    /// A look showed a record that it does not fit.
    Unfit(Record),
    /// It is given up after the last try.
    GaveUp,
    /// No change is left to the port.
    WasSpent,
}

/// What an access answers to a change, as the end of an attempt.
#[inline(always)]
pub(crate) fn attempted(outcome: &Result<Changed, Refused>) -> AttemptEnd
    ensures { attempted_of result ≡ attempted outcome.now }
{
    match outcome {
        Ok(Changed::Done { before, after, .. }) => AttemptEnd::Made {
            before: *before,
            after: *after,
        },
        Ok(Changed::NotNow(shown)) => AttemptEnd::Unfit(*shown),
        Err(Refused::Busy { .. }) => AttemptEnd::GaveUp,
        Err(Refused::Spent) => AttemptEnd::WasSpent,
    }
}
