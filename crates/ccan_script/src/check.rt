//! The faults of a register script, the first of each of its lines, each with its place and the remedy, and what is accepted
//! but rarely meant.
//!
//! ```text
//!   bytes --> Report { faults, warnings }
//!                         |
//!                         +--> file.json:20:18: if1[15].set.cmask: "00g0" is not four hexadecimal digits
//! ```
//!
//! Whether a script has a fault, and which comes first, is what [`crate::read_script`] says, or
//! [`crate::read_race`] of a script for a race, and for each line it is what its reader says. Which member of a line is
//! at fault first is proved here, by the order of the checks (`specs/FirstFault.antt`). The rest finds the place of that member
//! in the text, and words for it.

mod fault_path;
mod first_fault;
mod json_text;
pub mod laws;
mod line_path;
mod line_remark;
pub mod line_texts;
mod member_checks;
mod member_remark;
mod not_json;
mod object_image;
pub mod place;
pub mod print;
mod reading;
pub mod report;
pub mod script_check;
mod script_image;
mod script_warning;
mod spot;
mod told_line;
mod walk;
mod warning;

pub use line_texts::{LineSpan, has_member, line_spans};
pub use place::Place;
pub use print::{print_report, remark_line};
pub use report::{Fault, Remark, Report};
pub use script_check::{check, check_race};
