//! The message handler: what it finds by looking at the message objects one after another, over any access.
//!
//! A scan takes the objects in rising order and makes one change, a start or a store, at the first whose record it
//! fits. It asks for no lock, so the hosts go on writing while it runs:
//!
//! ```text
//!        object 1      object 2               object 3
//! bus    look (no)     look (ready)  look     look (ready)  look  start
//! IF1                         makes 2 invalid
//!                                    (no more: on to 3)
//! ```
//!
//! What is found is therefore said of the points of the looks in the one history, not of one moment. The calls of
//! [`moment`] answer for one moment: they look at all objects at one point in the history, and a choice then tries the
//! objects that were ready there. Nothing here knows which memory is used: everything goes through `Access`.
#![tactic(auto)]

pub mod laws;
pub mod moment;
mod objects;
pub mod scan;
pub mod watch;

pub use moment::{choose_at_once, flags_at_once, interrupt_at_once};
pub use scan::{ScanRefused, Stored, choose, choose_from, receive, receive_from};
pub use watch::{flags, interrupt, until};
