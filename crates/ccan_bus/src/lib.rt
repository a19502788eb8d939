//! The bus of a C_CAN controller: arbitration, rounds, and the error counters and the Status register over them, for any
//! access to the message RAM.
//!
//! A `Bus` is the controller (node 0) and up to eight other nodes. In a round it loads an object, lets the frames of all
//! nodes that are on contend, gives each node the event that comes of it, and makes the memory step that follows:
//!
//! ```text
//!   message RAM                     bus                              nodes
//!   object, TxRqst --start--> loaded frame --+
//!                                            +--> arbitration --> a bus event for each node that is on,
//!                    frames of a RoundLine --+         |          a status event for the controller
//!   object <--finish-- the controller's frame won <----+
//!   object <--store--- another node's frame won <------+
//! ```
//!
//! `Bus::round` makes these steps to their end. They can also be made one by one: `Bus::load`, with an access to the memory;
//! `Bus::decide`, which needs none; and `Decision::complete`, which makes the memory steps that the decision calls for.
//! `Bus::report_round` reports what came of each. Which object a load starts, if several are ready, is the bus's `Choice`.
//!
//! A `Bus` stores no list of what happened. Contracts speak of its past: each past that may have led to the value before a
//! call goes on to one that leads to the value after it.
#![tactic(auto)]

pub mod answer;
pub mod arbitration;
pub mod bus;
pub mod choice;
mod complete;
mod contenders;
mod controller;
mod decide;
pub mod decision;
pub mod laws;
mod lead;
mod load;
mod loop_back;
pub mod memory_step;
mod nodes;
mod own;
mod renewed;
mod round;
pub mod round_end;
pub mod round_line;
pub mod round_report;

pub use answer::{LoadAnswer, RoundAnswer};
pub use arbitration::{Bits, Outcome, arbitrate, arbitration_bits};
pub use bus::Bus;
pub use choice::Choice;
pub use decision::Decision;
pub use memory_step::MemoryStep;
pub use round_end::RoundEnd;
pub use round_line::{Fault, RoundLine};
pub use round_report::RoundReport;
