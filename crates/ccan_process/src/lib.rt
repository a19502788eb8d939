//! Processes: what a line does, step by step, with what comes next by what came of each step.
//!
//! ```text
//! Ended result                  nothing more
//! Does act next                 an act, and then next of what came of it
//!
//! act = Looks object            a record comes of it
//!     | Attempts object change  how the attempt ended
//!     | DecidesRound line past  the past of the bus after the round, and the decision
//! ```
//!
//! Processes are definitions alone. Which acts there are is a parameter of them (`Process.antt`), and those of lines are given
//! (`Act.antt`). So what holds of each act holds of each process, by one induction for all lines ([`laws`]).
#![tactic(auto)]

pub mod laws;
