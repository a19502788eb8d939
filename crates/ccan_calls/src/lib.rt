//! The calls on the handles of a host and of the bus, in the library for C, as processes of steps.
//!
//! A process is an end, or an act and what comes next by what came of it. An act is a look at an object or an attempt to change
//! it, a picture of all objects, a look at the controller or a change of it; or the port makes no step, and tells or heeds a note,
//! recalls what it has seen, decides a round, or pauses. Nothing here runs: the crate has definitions, and laws that tie them to
//! the contracts of the calls.
//!
//! ```text
//! a call ─ host_calls_are_processes ── host_process ──┐
//! a call ─ bus_calls_are_processes ─── bus_process ───┼─ a Process of Acts ─ Runs: the events that it adds, and its result
//! a call ─ frame_calls_are_processes ─ frame_process ─┘
//! ```
//!
//! So is what the bus's port does in `ccan_reset` and in `ccan_save`. The other calls that take a whole chip are no processes
//! here: `ccan_open`, `ccan_open_reset`, `ccan_end`, `ccan_meet` and `ccan_restore`. These make no step at a chip: `ccan_version`,
//! `ccan_is_open`, `ccan_forget`, `ccan_decide`, `ccan_decide_again`, `ccan_node_begin`, `ccan_node_finish`,
//! `ccan_node_recessive`, `ccan_frame_bits` and `ccan_bit_time`. Each other call of the header is a process.
//!
//! The calls of a thread, one after another, are a `thread_process`. Where a port may be within a process while other ports act,
//! `StandsAt` says.
#![tactic(auto)]

pub mod laws;
