use ccan_registers::saved::LENGTH;

/// The text of a saved chip as C has it.
#[repr(C)]
#[derive(Clone, Copy, PartialEq, Eq, Debug)]
pub struct SavedChip {
    /// Its bytes, see `ccan_registers::saved::to_bytes`.
    pub bytes: [u8; LENGTH],
}
