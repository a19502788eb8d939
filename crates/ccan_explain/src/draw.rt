//! One picture of a run, as a text in SVG: three lanes for IF1, IF2 and the bus, a row for each step, and bars that run down
//! while a flag of an object is set.
//!
//! ```text
//!   Told (a run)      --> picture_of_run --> Picture { rows, columns } --> svg_of --> text
//!   another history   --> a Picture of the caller's own --^
//! ```
//!
//! A text is in lines of fixed width: a glyph takes [`layout::GLYPH`] units, and what is longer than its place is broken. Heights
//! add up without overflow, since the additions stop at the greatest number. A script has at most 6,000 lines, and a row some
//! 1,000 units at most, so a run is far below that.

pub mod bar;
pub mod column;
pub mod elements;
pub mod escape;
pub mod flag_bars;
pub mod head;
pub mod label;
pub mod layout;
pub mod picture;
pub mod run_picture;
pub mod svg;
pub mod wrapping;

pub use column::Column;
pub use picture::{Picture, Row};
pub use run_picture::picture_of_run;
pub use svg::svg_of;
