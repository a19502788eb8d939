//! How the line of a script ends.
ghost use Rattle.std.specs.Prelude.{◌≡◌};
ghost use Rattle.std.specs.Prelude.{option_and_then};
ghost use Rattle.ccan_line.specs.LineEnd.{reported, told_answer, told_end, told_round, unframed};
ghost use Rattle.ccan_line.specs.LineEnd.{winning_frame};

use crate::line_answer::LineAnswer;
use ccan_accept::Frame;
use ccan_bus::{Decision, RoundAnswer, RoundReport};
use ccan_object::Record;

/// What came of a round as it is reported. In loop back mode a printed line doesn't show the record of the object that was sent:
/// zero stands for it.
fn told_round(round: RoundAnswer) -> RoundAnswer
    ensures { result ≡ told_round round }
{
    match round {
        RoundAnswer::Looped(object, _, storing) => {
            RoundAnswer::Looped(object, Record::zero(), storing)
        }
        RoundAnswer::Idle
        | RoundAnswer::Sent(_, _)
        | RoundAnswer::Received(_)
        | RoundAnswer::Passed
        | RoundAnswer::Collision
        | RoundAnswer::NoAck
        | RoundAnswer::Fault
        | RoundAnswer::Busy(_)
        | RoundAnswer::Spent(_) => round,
    }
}

/// An answer as it is reported.
fn told_answer(answer: LineAnswer) -> LineAnswer
    ensures { result ≡ told_answer answer }
{
    let LineAnswer::Round(round) = answer else {
        return answer;
    };
    LineAnswer::Round(told_round(round))
}

/// The frame that won the bus, by what was decided, if a round came to a decision.
fn winning_frame(decided: Option<Decision>) -> Option<Frame>
    ensures { result ≡ option_and_then winning_frame decided }
{
    let (_, frame) = decided?.winner()?;
    Some(frame)
}

/// How a line ends: what it answers, and what was on the bus.
#[derive(Clone, Copy, PartialEq, Eq, Hash, Debug)]
pub struct LineEnd {
    /// What the line answers.
    pub answer: LineAnswer,
    /// The frame that won the bus in a round, whatever came of it afterwards. A round without a winner has none, and no other
    /// line has one.
    pub frame: Option<Frame>,
}

impl LineEnd {
    /// An end in which no frame was on the bus.
    pub fn unframed(answer: LineAnswer) -> LineEnd
        ensures { result ≡ unframed answer }
    {
        LineEnd {
            answer,
            frame: None,
        }
    }

    /// The end of a round that its steps report.
    pub fn reported(round: &RoundReport) -> LineEnd
        ensures { result ≡ reported round.now.decision round.now.end.answer }
    {
        LineEnd {
            answer: LineAnswer::Round(round.end.answer),
            frame: winning_frame(round.decision),
        }
    }

    /// The end as it is reported, with its frame or without, and with zero for a record that no printed line shows.
    pub fn told(&self, frames: bool) -> LineEnd
        ensures { result ≡ told_end frames self.now }
    {
        LineEnd {
            answer: told_answer(self.answer),
            frame: if frames { self.frame } else { None },
        }
    }
}
