ghost use Rattle.std.specs.Prelude.{◌≡◌, None, Some};
ghost use Rattle.ccan_bus.specs.RoundReport.{refused_start};

use crate::answer::{LoadAnswer, RoundAnswer};
use crate::decision::Decision;
use crate::memory_step::MemoryStep;
use crate::round_end::RoundEnd;

/// What came of a round, step by step.
#[derive(Clone, Copy, PartialEq, Eq, Hash, Debug)]
pub struct RoundReport {
    /// What came of its load: `Loaded` if this round loaded what it may send, `Held` if an earlier load did.
    pub loading: LoadAnswer,
    /// What was decided with what is loaded. None: the load was refused, and no frame was on the bus.
    pub decision: Option<Decision>,
    /// How it ended.
    pub end: RoundEnd,
}

impl RoundReport {
    /// A round whose load was refused.
    pub(crate) fn of_refused_load(loading: LoadAnswer, answer: RoundAnswer) -> RoundReport
        ensures { result
            ≡ record { loading = loading; decision = None; end = refused_start answer } }
    {
        RoundReport {
            loading,
            decision: None,
            end: RoundEnd {
                answer,
                refused: Some(MemoryStep::Start),
            },
        }
    }

    /// A round whose load was not refused.
    pub(crate) fn of_steps(loading: LoadAnswer, decision: Decision, end: RoundEnd) -> RoundReport
        ensures { result ≡ record { loading = loading; decision = Some decision; end = end } }
    {
        RoundReport {
            loading,
            decision: Some(decision),
            end,
        }
    }
}
