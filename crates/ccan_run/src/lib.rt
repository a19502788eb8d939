//! Runs of register scripts: bytes to printed lines.
//!
//! ```text
//!   input --> read_input, by ccan_script::read_script --> Script
//!                                                         |
//!     order: if1 if2 bus if1 ..    each name takes the next line of that port
//!                                                         v
//!                    IF1: registers ---+
//!                    IF2: registers ---+--> Access --> one history of the message RAM
//!                    bus: ccan_bus::Bus+                  |
//!                                                         v
//!                      answers, and the objects at the end --> text --> output
//! ```
//!
//! The memory of an ordered run is one that three threads could share with no lock, with its three ports in one thread.
//! Before each of its lines a port meets both others, so that it has seen all that any of them has. That is why no
//! other events are between those of a line, and why each line is answered as by a one-thread memory. Nothing at run
//! time tests it: the one history that the memory's end gives has no room for another event.
//!
//! What a line stands for is said once, for hosts and for the bus, over any access: which events it adds, what it answers,
//! and how it leaves what the next line of its port finds ([`Side`], [`run_lines`]). The text of a script is a relation
//! between a script and a text, over a one-thread memory, in which the program does not appear; [`laws`] say that a script
//! has at most one text, and that a run that ended well has written it. [`run_ordered`] and [`run_stream`] are proved to
//! write a text of their script.
//!
//! Without an order the three ports run at once. [`read_input`] gives the script, [`run_threads`] the [`Outcome`], which
//! is the answers of each port and the objects at the end, and [`print_outcome`] writes it.
#![tactic(auto)]

pub mod cli_error;
mod input;
mod lane;
pub mod laws;
pub mod ordered;
pub mod outcome;
mod outcome_text;
mod output;
mod port_run;
mod ports;
pub mod run_error;
pub mod run_mode;
pub mod stream;
mod text;
pub mod threads;
mod trio;
mod waiting;

pub use ccan_line::{FreeGate, Gate, Side, run_lines, run_port};
pub use cli_error::CliError;
pub use input::{MAX_INPUT, read_all, read_input};
pub use ordered::run_ordered;
pub use outcome::Outcome;
pub use outcome_text::print_outcome;
pub use run_error::RunError;
pub use run_mode::{RunMode, mode};
pub use stream::run_stream;
pub use threads::run_threads;
