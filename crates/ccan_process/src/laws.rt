//! Runs of processes where nobody else acts. The functions do nothing: their contracts are the laws.
ghost use Rattle.ccan_process.specs.Laws.{HasOneRun, RunsApart};

/// Over a one-thread memory a process adds one list of events and has one result, whatever results are.
pub fn processes_run_once<A>()
    ensures { HasOneRun A }
{}

/// A run during which nobody else acts is one over a one-thread memory.
pub fn runs_are_apart<A>()
    ensures { RunsApart A }
{}
