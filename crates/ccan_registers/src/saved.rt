//! A chip saved to bytes and put back from them, so that a simulator can take a snapshot of it.
//!
//! What is saved is all that a driver can read of the chip: its registers, with what is behind them, and the records of its
//! objects. Two things are not saved: the error counters of the other nodes, which begin again; and the frame that is loaded for
//! sending, whose object stays requested and is loaded again. A driver can notice both later: data that its host wrote after the
//! load is then sent once and not after the loaded frame; and a node that was bus off is on again.
//!
//! ```text
//!   chip --- look_at_all ---> Saved --- to_bytes ---> 1672 bytes
//!    ^                          |  ^                       |
//!    |                          |  |                       |
//!    '---- put_back <-----------'  '----- from_bytes <-----'
//! ```
//!
//! No call allocates. No event of a chip says "restored": `put_back` brings a chip after its reset, by steps that every chip can
//! make, to where the saved one was, and then looks to see whether it is there. So each law about chips holds for it.
//!
//! # Calling
//!
//! To save, read `look_at_all` by any port while no other call runs, and fill a `Saved`. A look at the controller and one at each
//! object are not one moment: if other ports change the chip meanwhile, what is saved may be a chip that never was. To put back,
//! open a chip with `EndlessRam::open_reset`, hand `put_back` the bus's port before any other port is used, and if it fails,
//! close the chip. `from_bytes` refuses what no `Saved` is written as; `put_back` finds out whether no chip can be like it.

mod bytes;
mod chip;
mod field;
mod fields;
mod follow;
mod format_error;
mod look;
mod not_restored;
mod objects;
mod plan;
mod refusal;
mod restoring;
mod words;

pub use bytes::{LENGTH, from_bytes, to_bytes};
pub use chip::Saved;
pub use field::Field;
pub use format_error::FormatError;
pub use look::look_at_all;
pub use not_restored::NotRestored;
pub use restoring::put_back;
