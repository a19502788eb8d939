//! Laws of what is answered. The functions do nothing: their contracts are the laws.
ghost use Rattle.ccan_lab.specs.Answer.{LinesOfOutcomesAreTaken};
ghost use Rattle.ccan_lab.specs.ToldLines.{ReportsPrintTheirOutcomes, ToldEndsPrintTheirLines};
ghost use Rattle.ccan_lab.specs.ToldLines.{ToldOutcomesPrintAlike};

/// A line that is searched for is not refused if a printed line of some outcome that the promise allows begins so: it is refused
/// by a list that has each of these (`list_of`).
pub fn lines_of_outcomes_are_taken()
    ensures { LinesOfOutcomesAreTaken }
{}

/// What is reported of an end of a line prints that end's line, byte by byte, and what is reported of an outcome all its lines: a
/// record that is left out is in none.
pub fn what_is_reported_prints_alike()
    ensures ends { ToldEndsPrintTheirLines }
    ensures endings { ToldOutcomesPrintAlike }
    ensures outcomes { ReportsPrintTheirOutcomes }
{}
