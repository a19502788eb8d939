//! Fault confinement of a C_CAN controller and of the other nodes on its bus: the error counters of a node, and the
//! Status register of the controller.
//!
//! Each node counts the errors in the frames that it sends (TEC) and receives (REC), and takes less part in the traffic
//! the more it has counted, so that a broken node can't keep the others from the bus (CAN Specification 2.0, "Fault
//! Confinement"; ISO 11898-1):
//!
//! ```text
//!        +----------------+    TEC or REC at least 128    +-----------------+
//!  open  |  error active  | ----------------------------> |  error passive  |
//! -----> |                | <---------------------------- |                 |
//!        +----------------+      TEC and REC below 128    +-----------------+
//!                 ^                                                | TEC at least 256: only at
//!                 | 128 groups of eleven recessive bits,           | an error in an own frame
//!                 | for the controller from the first              v
//!                 | clearing of Init on                   +-----------------+
//!                 +-------------------------------------- |     bus off     |
//!                       TEC and REC are 0 again           +-----------------+
//! ```
//!
//! [`Counters`] are those of one node. They take whole frames: a [`BusEvent`] says how a frame ended for the node. The
//! rules of the CAN Specification 2.0, section 8, "Fault Confinement", that need single bits are left out:
//! - dominant bit after an error flag (rule 2): a receiver that sees it first after its flag adds 8 to REC;
//! - the first exception of rule 3: a passive sender without an acknowledgement adds 8 to TEC after all if it sees a
//!   dominant bit in its own flag;
//! - the second exception of rule 3: a stuff error during arbitration, of a stuff bit sent recessive before the RTR bit
//!   and seen dominant, adds nothing to TEC;
//! - bit errors while an active error flag or an overload flag is sent (rules 4 and 5): 8 to TEC of a sender, to REC of
//!   a receiver;
//! - runs of dominant bits after a flag (rule 6): 8 for each eight of them, to TEC of a sender, to REC of a receiver.
//!
//! [`Status`] follows the counters of the controller and says when the status interrupt is pending (C_CAN User's Manual
//! 1.2, "Status Register" and "CAN Control Register").
//!
//! [`Controller`] has all registers of a controller in one value, which packs into one word: Control, Status, the error
//! counters, Bit Timing, BRP Extension and Test. A [`ControllerChange`] is what one step of a host or of the message
//! handler makes of it.
//!
//! Neither counters nor Status register store what happened. Their contracts do: whatever list of events led to a value, the
//! value after a call is that of the list with one more event. [`laws`] says what follows over whole lists.
#![tactic(auto)]

pub mod bit_timing;
mod bits;
pub mod bus_event;
pub mod control_register;
pub mod controller;
pub mod controller_change;
pub mod counters;
pub mod laws;
pub mod node_state;
pub mod status;
pub mod status_event;
pub mod status_flags;
pub mod test_register;

pub use bit_timing::BitTiming;
pub use bus_event::BusEvent;
pub use control_register::ControlRegister;
pub use controller::Controller;
pub use controller_change::ControllerChange;
pub use counters::Counters;
pub use node_state::NodeState;
pub use status::Status;
pub use status_event::StatusEvent;
pub use status_flags::StatusFlags;
pub use test_register::TestRegister;
