//! A C_CAN controller for programs in C: what `include/ccan.h` declares.
//!
//! A chip has three handles, one for each port, which lie in C's memory; what they lead to is from `malloc`. A handle is a mark
//! and a pointer that says nothing about what it leads to: a port of the memory without a lock, with a share of that memory,
//! interface registers, and a bus. A call makes steps on these, at the objects and at the controller, and its contract says what
//! these steps are; all of them are in one history of all three handles.
//!
//! ```text
//!  thread A     thread B     thread C
//!  chip.if1     chip.if2     chip.bus        in C's memory, on cache lines of their own
//!      |            |            |
//!    Held         Held         Held          a port, registers, a bus
//!      \------------|------------/
//!              one EndlessRam
//! ```
#![tactic(auto)]

mod access_code;
mod begin;
mod bus;
mod bus_handle;
mod bus_lines;
mod chip;
pub mod code;
mod deciding;
mod ending;
mod frame;
mod frame_lines;
mod handle;
mod held;
mod host;
mod host_handle;
mod host_lines;
pub mod laws;
mod meeting;
mod note_handle;
mod numbers;
mod offer;
mod opening;
mod register_lines;
mod resetting;
mod saved_chip;
mod saving;
mod seal;
mod settings;
mod shown_counters;
mod shown_final;
mod shown_finished;
mod shown_frame;
mod shown_load;
mod shown_member;
mod shown_node;
mod shown_outcome;
mod shown_record;
mod shown_wire;
mod telling;
mod timing;
mod version;

pub use bus::{
    ccan_bus_flags, ccan_bus_interrupt, ccan_bus_line, ccan_bus_read8, ccan_bus_read16,
    ccan_bus_read32, ccan_bus_write8, ccan_bus_write16, ccan_bus_write32, ccan_control,
    ccan_counters, ccan_init, ccan_load, ccan_loop_back, ccan_recessive, ccan_round, ccan_status,
};
pub use bus_handle::BusHandle;
pub use chip::Chip;
pub use deciding::{ccan_decide, ccan_decide_again};
pub use ending::ccan_end;
pub use frame::{ccan_begin, ccan_finish, ccan_power_down, ccan_retry_event, ccan_stay};
pub use handle::{Handle, handles_may_cross};
pub use host::{
    ccan_clear_objects, ccan_flags, ccan_get, ccan_interrupt, ccan_line, ccan_peek, ccan_read8,
    ccan_read16, ccan_read32, ccan_request, ccan_set, ccan_until, ccan_write8, ccan_write16,
    ccan_write32,
};
pub use host_handle::HostHandle;
pub use meeting::ccan_meet;
pub use note_handle::{NoteHandle, notes_may_cross};
pub use numbers::{flag_numbered, register_numbered};
pub use offer::{Offer, fault_numbered};
pub use opening::{ccan_is_open, ccan_open, ccan_open_reset};
pub use resetting::ccan_reset;
pub use saved_chip::SavedChip;
pub use saving::{ccan_restore, ccan_save};
pub use settings::map_numbered;
pub use shown_counters::{ShownCounters, state_number};
pub use shown_final::ShownFinal;
pub use shown_finished::ShownFinished;
pub use shown_frame::ShownFrame;
pub use shown_load::ShownLoad;
pub use shown_member::ShownMember;
pub use shown_node::{ShownNode, ccan_node_begin, ccan_node_finish, ccan_node_recessive};
pub use shown_outcome::{NO_NODE, NOT_NOTED, ShownOutcome, step_number};
pub use shown_record::ShownRecord;
pub use shown_wire::ShownWire;
pub use telling::{ccan_bus_heed, ccan_bus_tell, ccan_forget, ccan_heed, ccan_tell};
pub use timing::{ccan_bit_time, ccan_frame_bits};
pub use version::ccan_version;
