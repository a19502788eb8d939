//! Rounds.

ghost use Rattle.std.specs.Prelude.{◌≡◌};
ghost use Rattle.ccan_bus.specs.Round.{Round, refusal_of_round};
ghost use Rattle.ccan_bus.specs.RoundReport.{RunsSteps};

use crate::answer::{LoadAnswer, RoundAnswer};
use crate::bus::Bus;
use crate::round_line::RoundLine;
use crate::round_report::RoundReport;
use ccan_ram::{Access, Sending, Tries};

/// The answer of a round whose load was refused.
fn refusal_of_round(loading: &LoadAnswer) -> Option<RoundAnswer>
    ensures { result ≡ refusal_of_round loading.now }
{
    match loading {
        LoadAnswer::Busy(object) => Some(RoundAnswer::Busy(*object)),
        LoadAnswer::Spent(object) => Some(RoundAnswer::Spent(*object)),
        LoadAnswer::Loaded(_, _) => None,
        LoadAnswer::Held(_) => None,
        LoadAnswer::Nothing => None,
    }
}

impl Bus {
    ghost use Rattle.ccan_bus.specs.Bus.{GoesOnWith, IsSameBus};

    /// A round: a load, and then the frames of all nodes that are on contend for the bus; or, in loop back mode, the
    /// controller sends to itself. A memory step that is refused is given up, and all else remains.
    pub fn round<A: Access>(
        &mut self,
        access: &mut A,
        line: &RoundLine,
        tries: Tries,
    ) -> RoundAnswer
        requires { (A.passes access.old).terms.profile ≡ self.old.profile }
        ensures same { IsSameBus self.old self.new }
        ensures goes_on { GoesOnWith (A.passes access.old) (A.passes access.new) self.old self.new
            (λ terms seen added past after.
            Round terms line.now tries seen added past after result) }
    {
        self.report_round(access, line, tries).end.answer
    }

    /// A round, with what came of each of its steps: a load, a decision that needs no memory (`decide`), and the memory
    /// steps that are due (`Decision::complete`).
    pub fn report_round<A: Access>(
        &mut self,
        access: &mut A,
        line: &RoundLine,
        tries: Tries,
    ) -> RoundReport
        requires { (A.passes access.old).terms.profile ≡ self.old.profile }
        ensures same { IsSameBus self.old self.new }
        ensures goes_on { GoesOnWith (A.passes access.old) (A.passes access.new) self.old self.new
            (λ terms seen added past after.
            RunsSteps terms line.now tries seen added past after result) }
    {
        let loading = self.load(access, tries);
        match refusal_of_round(&loading) {
            Some(answer) => RoundReport::of_refused_load(loading, answer),
            None => {
                let decision = self.decide(line);
                let end = decision.complete(access, Sending::UntilSent, tries);
                RoundReport::of_steps(loading, decision, end)
            }
        }
    }
}
