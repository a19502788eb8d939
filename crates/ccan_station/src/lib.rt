//! A chip's part in what is on a bus of several, with time between the start and the end of a frame. What is on the bus is
//! decided by `ccan_wire`, from the members that the chips and the other nodes are.
//!
//! ```text
//!   the start of a frame       until its end              its end
//!   begin: look, join, load    stay: look                 end: look, finish or store, event
//!        |                          |                          ^
//!        v member                   v member                   | wire, place, flaw
//!        +--> decide --> wire       +--> decide_again --> wire-+
//! ```
//!
//! A [`Station`] keeps what is loaded and what is under way between these calls. Meanwhile hosts do what they like. A request
//! that they make then is not in this frame. If a host sets Init, the controller has left the bus, even if Init is 0 again before
//! the next look: `stay` answers with a member that is absent, and neither it nor `end` leaves anything under way or loaded, so
//! the frame is no event to it. The next `begin` joins and chooses again. A reset of the chip calls `unload` to the same end.
//!
//! DAR of the CAN Control register says how often a frame is tried, as `begin` finds it when it starts an object: `end`
//! finishes that object in the same way, whatever a host makes of DAR meanwhile.
//!
//! | | DAR 0 | DAR 1 |
//! |---|---|---|
//! | at the start | NewDat 0 | TxRqst 0 |
//! | once it was sent | TxRqst 0, unless NewDat is 1 again | NewDat 0 |
//! | if it failed, lost or was dropped | it stays requested and is tried again | NewDat stays as it was; a host has to set TxRqst |
//!
//! A frame is lost if another wins the arbitration, and dropped if the controller leaves the bus.
//!
//! Members are settled at the start: a chip that has not begun by then begins with the next frame. The caller chooses the order
//! of several `end` calls: those who listen come first, if a stored frame is to be there before its sender's TxOk.
//!
//! A chip in loop back mode is a member that never stops (`Role::Looped`), or one that nobody sees, if Silent is 1 too
//! (`Role::Alone`). Its frame is sent and received by itself, whatever else is on the bus.
//!
//! A [`Plain`] is a node without a chip.
#![tactic(auto)]

mod begun;
mod due;
mod ended;
pub mod laws;
mod load;
mod loaded;
mod note;
mod part;
mod plain;
mod station;
mod stayed;

pub use begun::Begun;
pub use ended::Ended;
pub use loaded::Loaded;
pub use plain::Plain;
pub use station::Station;
pub use stayed::Stayed;
