ghost use Rattle.std.specs.Prelude.{◌≡◌, IfNone, IfSome};
ghost use Rattle.ccan_object.specs.declared.profile.Profile.{Profile};
ghost use Rattle.ccan_ram.specs.Access.{Goes};
ghost use Rattle.ccan_bus.specs.Bus.{LedTo};
ghost use Rattle.ccan_line.specs.BusPort.{TakesLine};
ghost use Rattle.ccan_line.specs.Side.{GoesOn};
ghost use Rattle.ccan_explain.specs.Reported.{ReportsLine};

use ccan_bus::{Bus, RoundReport};
use ccan_ram::{Access, Tries};
use ccan_run::Side;
use ccan_script::{BusLine, LineAnswer};

/// The answer to a line of the bus, and for a round what came of its steps.
#[derive(Clone, Copy, PartialEq, Eq, Debug)]
pub struct Reported {
    pub answer: LineAnswer,
    pub report: Option<RoundReport>,
}

impl Reported {
    ghost use Rattle.std.specs.Prelude.{None, Some};

    /// An answer with the report of its round.
    fn of_parts(answer: LineAnswer, report: RoundReport) -> Reported
        ensures { result ≡ record { answer = answer; report = Some report } }
    {
        Reported {
            answer,
            report: Some(report),
        }
    }

    /// The answer to a round with this report.
    fn of_round(report: RoundReport) -> Reported
        ensures { result
            ≡ record { answer = LineAnswer.Round report.end.answer; report = Some report } }
    {
        Reported::of_parts(answer_of(&report), report)
    }

    /// The answer to another line.
    pub(crate) fn of_other(answer: LineAnswer) -> Reported
        ensures { result ≡ record { answer = answer; report = None } }
    {
        Reported {
            answer,
            report: None,
        }
    }
}

/// The answer of a round with this report.
fn answer_of(report: &RoundReport) -> LineAnswer
    ensures { result ≡ LineAnswer.Round report.now.end.answer }
{
    LineAnswer::Round(report.end.answer)
}

/// Runs a line of the bus as [`Side::run_line`] does, and keeps the report of a round.
pub(crate) fn run_reported<A: Access>(
    bus: &mut Bus,
    access: &mut A,
    line: &BusLine,
    tries: Tries,
) -> Reported
    requires { TakesLine (A.passes access.old).terms.profile bus.old line.now }
    ensures takes { (profile : Profile) (other : BusLine)
        → TakesLine profile bus.old other → TakesLine profile bus.new other }
    ensures runs { Goes (A.passes access.old) (A.passes access.new) (λ terms seen added.
        GoesOn LedTo bus.old bus.new (λ past after. ReportsLine terms tries line.now past
        seen added result.answer result.report after)) }
{
    match line.round() {
        Some(round) => Reported::of_round(bus.report_round(access, round, tries)),
        None => Reported::of_other(bus.run_line(access, line, tries)),
    }
}
