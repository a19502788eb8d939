//! How long the bus is not free between frames, in bits (CAN Specification 2.0, part B, "Error Frame",
//! "Interframe Space" and "Fault Confinement").

ghost use Rattle.std.specs.Prelude.{◌≡◌, ◌≤◌, ◌<◌, ◌+◌};
ghost use Rattle.ccan_time.specs.BetweenFrames.{begun_group, bits_before_start, error_frame_bits, group, whole_groups};

use ccan_confine::NodeState;
use std::marker::Model;

/// The recessive bits after each frame.
pub const INTERMISSION_BITS: u32 = 3;

/// The recessive bits after the intermission that an error passive node waits if it sent the frame before.
pub const SUSPEND_TRANSMISSION_BITS: u32 = 8;

/// An error flag.
pub const ERROR_FLAG_BITS: u32 = 6;

/// The recessive bits after an error flag.
pub const ERROR_DELIMITER_BITS: u32 = 8;

/// This many recessive bits in a row are one group; 128 groups bring back a node that is bus off.
pub const GROUP_BITS: u8 = 11;

/// How many recessive bits pass after a frame before a node in this state may start the next one: 3, or 11 if the node is error
/// passive and was the transmitter of that frame. None: it is bus off, and may not.
pub fn bits_before_start(state: NodeState, was_transmitter: bool) -> Option<u32>
    ensures { result ≡ bits_before_start state was_transmitter }
{
    match state {
        NodeState::Active => Some(INTERMISSION_BITS),
        NodeState::Passive => {
            if was_transmitter {
                Some(INTERMISSION_BITS + SUSPEND_TRANSMISSION_BITS)
            } else {
                Some(INTERMISSION_BITS)
            }
        }
        NodeState::Off => None,
    }
}

/// How many bits an error frame has, 14 to 20: error flags, the last of which begins `later` bits after the first, and the
/// delimiter. The intermission follows it.
pub fn error_frame_bits(later: u32) -> u32
    requires { later ≤ ERROR_FLAG_BITS }
    ensures value { result ≡ error_frame_bits later }
    ensures least { 14 ≤ result }
    ensures most { result ≤ 20 }
{
    later + ERROR_FLAG_BITS + ERROR_DELIMITER_BITS
}

/// How many whole groups of 11 bits are in this many recessive bits in a row.
pub fn whole_groups(bits: u64) -> u64
    ensures { result ≡ whole_groups bits }
{
    bits / u64::from(GROUP_BITS)
}

/// The bits of the group of recessive bits that has begun, 0 to 10, as time passes. Contracts see how many.
#[derive(Clone, Copy, Debug, Default, PartialEq, Eq, Hash)]
pub struct BegunGroup {
    bits: u8,
}

impl Model for BegunGroup {
    ghost use Rattle.std.specs.Prelude.{ℕ, ◌<◌};
    ghost use Rattle.ccan_time.specs.BetweenFrames.{group};

    ghost Value = { ℕ };

    ghost view = { λ g. g.bits };

    ghost invariant = { λ g. g.bits < group };

    ghost inverse = { λ n. record { bits = n } };
}

impl BegunGroup {
    /// No bit: as after a dominant bit.
    pub fn new() -> BegunGroup
        ensures { result ≡ 0 }
    {
        BegunGroup { bits: 0 }
    }

    /// How many bits of the group have passed.
    pub fn bits(self) -> u8
        ensures value { result ≡ self }
        ensures within { result < group }
    {
        self.bits
    }

    /// This many more recessive bits pass. Answers how many groups become whole.
    pub fn pass(&mut self, bits: u64) -> u64
        ensures groups { result ≡ whole_groups (self.old + bits) }
        ensures begun { self.new ≡ begun_group (self.old + bits) }
    {
        let group = u64::from(GROUP_BITS);
        let begun = u64::from(self.bits) + bits % group;
        self.bits = (begun % group) as u8;
        bits / group + begun / group
    }
}
