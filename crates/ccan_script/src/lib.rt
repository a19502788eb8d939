//! Scripts of a CAN controller: JSON to what the two hosts and the bus do, and answers to printed lines.
//!
//! A script is one JSON object: a few numbers, a list of lines for each port, and the order in which the ports run.
//!
//! ```text
//!   bytes --> JSON value --> Script { profile, quota, tries, nodes, if1, if2, bus, order }
//!                |
//!                +--> the first fault in the order of the checks, with the list and the line where it is
//!
//!   bytes --> JSON value --> RaceScript { script, before }, for a race, with lines that run alone before it
//!
//!   LineAnswer --> one printed line        Record --> the final line of an object
//! ```
//!
//! What a value means is defined apart from the reader, in `specs/`. Its faults are a set, each at a place, and the fault
//! of the least place is reported. If there is none, the value says what the script is. A [`Script`] holds all that its
//! lines have to keep as an invariant, so that a run checks none of it again. The first fault of each line, with its place in
//! the text and the remedy, is found by [`check`].
#![tactic(auto)]

pub mod bus_line;
pub mod bus_op;
pub mod check;
pub mod fault_name;
mod flag_line;
pub mod flag_name;
pub mod frame_data;
pub mod frame_line;
pub mod host_line;
pub mod host_op;
pub mod json;
pub mod laws;
pub mod line_context;
mod line_counts;
pub mod line_fault;
pub mod list_name;
mod list_reader;
pub mod member;
pub mod member_name;
pub mod members;
pub mod number;
pub mod order;
mod order_name;
pub mod print;
mod print_answer;
mod print_bus;
pub mod printed_line;
pub mod race;
pub mod race_script;
pub mod reader;
pub mod register_set;
mod round;
pub mod script_error;
pub mod script_line;
pub mod script_number;

pub use ccan_line::{
    BusLine, DEFAULT_NODES, DEFAULT_PROFILE, DEFAULT_QUOTA, DEFAULT_TRIES, HostLine, LineAnswer,
    MAX_FRAMES, MAX_GROUPS, MAX_LINES, MAX_NAMES, MAX_NODES, MAX_PROFILE, MAX_QUOTA, MAX_TRIES,
    MAX_TURNS, RegisterSet, Script,
};
pub use line_context::LineContext;
pub use line_fault::LineFault;
pub use list_name::ListName;
pub use order::times;
pub use print::{print_final, print_line};
pub use printed_line::PrintedLine;
pub use race::{RACE_MEMBERS, read_race};
pub use race_script::RaceScript;
pub use reader::{SCRIPT_MEMBERS, read_script};
pub use script_error::ScriptError;
pub use script_line::ScriptLine;
