//! The registers of a C_CAN for whoever has a port of the chip.
//!
//! A port reads and writes a register by its offset, as a driver does. What the access does is in the chip's one history: a
//! register of the controller is one look or one change of the controller's word; a register of flags is all objects in one
//! moment; a write of Command Request is a transfer; the other registers of an interface are the port's own, and no other port
//! has them. Besides these, whoever drives the bus plays its rounds here, and resets the chip: a change of the controller and one
//! of each object.
//!
//! ```text
//!   read_at, write_at             load, round, recessive
//!   which register is there?      a round of the bus
//!      |        |        |             |        |
//!      v        v        v             v        v
//!   controller  objects  own set    controller  objects
//!    one look or  one moment or      a look, and   the steps
//!    one change   a transfer         at last its   in between
//!         |          |               event  |      |
//!         \----------\--- EndlessRam ----------/------/
//! ```
//!
//! Whoever drives a bus of several chips has for each chip the start and the end of a frame, and a look in between (`begin`,
//! `stay`, `end`): a round, cut at the points where other chips and time come in.
//!
//! A port shows another what it has seen by a note (`tell`, `heed`).
//!
//! A word of 32 bits (`read_word`, `write_word`) is two registers, one after the other; two of one flag, Bit Timing with BRP
//! Extension, and both halves of CAN Control are one access. A byte (`read_byte`, `write_byte`) is read by a read of its register,
//! and its write leaves the other byte of the register. What a D_CAN does differently from a C_CAN is in `dcan`, the
//! initialisation of its message RAM in `clearing`, and its local power down in `powering`.
//!
//! A chip at rest can be written as bytes, and put back from them ([`saved`]).
#![tactic(auto)]

mod access_error;
mod all_objects;
mod byte;
mod bytes;
mod clearing;
mod controller;
mod dcan;
mod frames;
mod interface_set;
mod notes;
mod objects;
mod offset_error;
mod powering;
mod registers;
mod resetting;
mod rounds;
pub mod saved;
mod transfer_answer;
mod transferring;
mod words;

pub use access_error::AccessError;
pub use bytes::{read_byte, write_byte};
pub use clearing::clear_objects;
pub use controller::{change, look};
pub use dcan::reset_of;
pub use frames::{begin, end, stay};
pub use interface_set::InterfaceSet;
pub use notes::{heed, tell};
pub use objects::{flags, interrupt, peek, transfer, wait};
pub use offset_error::OffsetError;
pub use powering::power_down;
pub use registers::{
    interrupt_value, line, read, read_at, read_status, write, write_at, write_controller,
};
pub use resetting::reset;
pub use rounds::{load, recessive, round};
pub use transfer_answer::TransferAnswer;
pub use words::{read_word, write_word};
