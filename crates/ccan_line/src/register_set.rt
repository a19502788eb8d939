use arrayvec::ArrayVec;
use ccan_object::Reg;

/// Registers with the numbers that they are set to: one for each member of the JSON object that names them, in the order of
/// the members.
pub type RegisterSet = ArrayVec<(Reg, u16), 10>;
