//! The message RAM as its ports see it.
//!
//! A memory has three ports: the hosts behind the interface registers IF1 and IF2, and the message handler on the bus. What
//! they do is reported as one history, a list of events. Each event is at one object, finds the record that the events
//! before it left there, and is a look, which leaves that record, or a change, which leaves another. Here is a history at
//! object 4, the oldest event at the left, with the number of each change in parentheses:
//!
//! ```text
//!             1         2          3        4        5           6        7
//! IF1      look 4    write 4
//!                    (1)
//! IF2                            look 4                       look 4   clear 4
//!                                                                      (65537)
//! bus                                     look 4   start 4
//!                                                  (131073)
//! ```
//!
//! A port has seen a part of the history from its beginning: IF2 has seen events 1 to 3 after its first look. No program
//! stores a history; contracts speak of it. [`Access`] is what all upper layers use: each call says which events it adds to
//! what its port has seen, and its answer is that of the memory at the point of those events. [`Array`] is a plain memory
//! for one thread. [`SharedRam`] is a memory that three threads share, and [`On`] one of its ports as an `Access`.
//! [`HandlerRegisters`] are the flags of all objects at one point in the history. [`laws`] hold in every history of every
//! memory.
#![tactic(auto)]

pub mod access;
pub mod array;
pub mod by_port;
pub mod change;
pub mod draft;
pub mod ending;
pub mod event;
pub mod flag;
pub mod handler_registers;
pub mod laws;
pub mod on;
pub mod open_error;
pub mod port;
pub mod sending;
pub mod shared_ram;
pub mod tries;

pub use access::Access;
pub use array::Array;
pub use by_port::ByPort;
pub use change::{Change, Changed, Refused};
pub use draft::{CommitError, Draft};
pub use ending::Final;
pub use event::{Event, Operation};
pub use flag::Flag;
pub use handler_registers::HandlerRegisters;
pub use on::On;
pub use open_error::OpenError;
pub use port::PortName;
pub use sending::Sending;
pub use shared_ram::SharedRam;
pub use tries::Tries;
