//! Runs in threads: over both memories, with gates that make ports wait for one another or stop them, and with three threads
//! of a caller's own.

mod callers;
mod gates;
mod tests;

use callers::{run_by_callers, run_gated_by_callers};
use gates::{AllTogether, HeldFrom, Meeting, Together};
pub use tests::outcome_of;
