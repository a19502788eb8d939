//! The lines of a CAN controller's two hosts and of its bus: what they are, what they stand for, and how a port runs them.
//!
//! ```text
//!   Script { if1, if2, bus, .. }        HostLine, BusLine
//!        |                                   |
//!     run_port: line after line, as its Gate lets it
//!        |                                   |
//!   IF1, IF2: registers                 Side::run_line --> Access --> events in the history of the message RAM
//!   bus: ccan_bus::Bus                       |
//!        |                              LineAnswer
//!     Engine: enter, next, after_look, after_attempt, decide
//! ```
//!
//! A line stands for the runs of its process: which events it adds, what it answers, and how it leaves what the next line of its
//! port finds ([`Side`], [`run_lines`]). Its code is an [`Engine`]: a line is entered, says what it does next, and learns what
//! came of that, up to its end. [`drive`] runs it so over any access, and a search of all outcomes goes from point to point of
//! the same engine. What a line adds is also said as the memory handler and the bus have it, and that both are the same is
//! proved ([`line_process_laws`]). There is neither text nor thread here:
//! `ccan_script` reads lines from JSON and prints answers, `ccan_run` runs the lines of three ports in an order or at once.
#![tactic(auto)]

pub mod asking;
pub mod attempt_end;
pub mod bus_course;
pub mod bus_engine;
pub mod bus_enter;
pub mod bus_line;
pub mod bus_point;
pub mod bus_port;
pub mod controller_line;
pub mod course;
pub mod driver;
pub mod engine;
pub mod gate;
pub mod host;
pub mod host_engine;
pub mod host_line;
pub mod limits;
pub mod line_answer;
pub mod line_end;
pub mod line_process_laws;
pub mod next_act;
pub mod per_port;
pub mod port;
pub mod register_set;
pub mod script;
pub mod side;

pub use attempt_end::AttemptEnd;
pub use bus_line::BusLine;
pub use bus_point::{Aim, BusCourse, BusPoint, Job, ScanEnd};
pub use bus_port::run_bus_line;
pub use controller_line::ControllerLine;
pub use course::Course;
pub use driver::drive;
pub use engine::Engine;
pub use gate::{FreeGate, Gate};
pub use host_engine::HostPoint;
pub use host_line::HostLine;
pub use limits::{
    DEFAULT_NODES, DEFAULT_PROFILE, DEFAULT_QUOTA, DEFAULT_TRIES, MAX_FRAMES, MAX_GROUPS,
    MAX_LINES, MAX_NAMES, MAX_NODES, MAX_PROFILE, MAX_QUOTA, MAX_TRIES, MAX_TURNS,
};
pub use line_answer::LineAnswer;
pub use line_end::LineEnd;
pub use next_act::NextAct;
pub use per_port::PerPort;
pub use port::run_port;
pub use register_set::RegisterSet;
pub use script::Script;
pub use side::{Side, run_lines};
