/// A register of an interface register set, of 16 bits (User's Manual, section 3.3).
#[derive(Clone, Copy, PartialEq, Eq, PartialOrd, Ord, Hash, Default, Debug)]
pub enum Reg {
    /// Command Mask: what the next transfer moves, and which way.
    #[default]
    CMask,
    /// Msk15 to Msk0.
    Mask1,
    /// MXtd, MDir and Msk28 to Msk16.
    Mask2,
    /// ID15 to ID0.
    Arb1,
    /// MsgVal, Xtd, Dir and ID28 to ID16.
    Arb2,
    /// Message Control.
    Ctrl,
    /// Data bytes 0 (low half) and 1.
    DataA1,
    /// Data bytes 2 (low half) and 3.
    DataA2,
    /// Data bytes 4 (low half) and 5.
    DataB1,
    /// Data bytes 6 (low half) and 7.
    DataB2,
}
