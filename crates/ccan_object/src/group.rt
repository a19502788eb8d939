/// Fields of an object that a transfer moves together (User's Manual, section 3.3.2).
#[derive(Clone, Copy, PartialEq, Eq, PartialOrd, Ord, Hash, Debug)]
pub enum Group {
    /// The identifier mask, MDir and MXtd.
    Mask,
    /// The identifier, Dir, Xtd and MsgVal.
    Arb,
    /// The fields of Message Control.
    Control,
    /// Data bytes 0 to 3.
    DataA,
    /// Data bytes 4 to 7.
    DataB,
}
