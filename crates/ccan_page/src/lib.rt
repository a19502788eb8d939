//! A page to step through a race: one text in HTML that a browser shows without a network.
//!
//! ```text
//!   Page { outcomes, lines of the script } --> data_of: JSON --> page_of: head, data, script --> text
//! ```
//!
//! All that differs from page to page is the data. It is in an element that the browser doesn't read as HTML, and no byte of it
//! is a `<`, so nothing in it can end that element. The head, the body and the script that shows the steps are constant texts.
//! The script computes none of what it shows: it only lays out the steps of the data.
#![tactic(auto)]

mod body;
pub mod bytes;
pub mod data;
mod head;
pub mod page;
pub mod page_text;
pub mod record_data;
pub mod step_data;
mod stepping;
mod style;

pub use data::data_of;
pub use page::{Change, LineText, ObjectChange, Outcome, Page, SentFrame, Step};
pub use page_text::page_of;
