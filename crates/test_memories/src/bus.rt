//! Worked examples of arbitration, rounds on the bus and loop back mode.

mod arbitrations;
mod bench;
mod steps;
