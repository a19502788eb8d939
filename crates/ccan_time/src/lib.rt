//! How long things take on a CAN bus, so that several simulated chips can have one exact clock. Pure: it stores nothing.
#![tactic(auto)]

pub mod between_frames;
pub mod frame_length;
pub mod nominal;
mod places;
mod register;
mod stuffing;
mod transmitter;

pub use between_frames::{BegunGroup, bits_before_start, error_frame_bits, whole_groups};
pub use frame_length::{crc_sequence, frame_bits};
pub use nominal::{bit_time, clock_periods, jump_width, sample_point, time_quantum};
