//! A run of a script, reported line by line for the writers of drivers: the records decoded, and the frame that was on the bus in
//! each round. [`draw`] makes a picture of it.
//!
//! ```text
//!   Script --> tell: the lines in their order, over a plain memory --> Told { steps, ram }
//!                                                                        |
//!                            each step: answer, report of the round, the objects before and after
//! ```
//!
//! The answers are those of an ordered run. [`tell`] is proved to answer what [`ccan_run::run_ordered`] is proved to write,
//! and a script has at most one such text. The frame and its sender are those that the steps of the round itself report.
#![tactic(auto)]

mod answer_faces;
pub mod bench;
pub mod bus_log;
mod contest;
pub mod digits;
pub mod draw;
pub mod frame_text;
pub mod from_log;
pub mod json_lines;
mod json_members;
pub mod line_words;
pub mod log_line;
pub mod people;
pub mod record_words;
pub mod reported;
pub mod round_words;
pub mod step;
mod stepping;
pub mod told;
mod words;

pub use bus_log::log_of;
pub use digits::{push_decimal, push_hex};
pub use frame_text::{push_frame, push_id};
pub use from_log::{FromLog, LogError, script_of_log};
pub use json_lines::json_of;
pub use line_words::push_step;
pub use log_line::LeftOut;
pub use people::text_of;
pub use record_words::push_left;
pub use round_words::push_winner;
pub use step::{Step, Touched};
pub use told::{Told, tell, tell_in};
