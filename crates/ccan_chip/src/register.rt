use crate::flag_part::FlagPart;
use crate::interface::Interface;
use ccan_object::Reg;
use ccan_ram::flag::Flag;

/// A register of the chip, of 16 bits (User's Manual, section 3, Programmer's Model). A D_CAN has one more than a C_CAN.
#[derive(Clone, Copy, PartialEq, Eq, Debug)]
pub enum Register {
    /// CAN Control (section 3.2.1).
    Control,
    /// The upper half of CAN Control, bits 31 to 16, which only a D_CAN has (Texas Instruments AM335x Technical Reference
    /// Manual, chapter DCAN, "CAN Control Register").
    ControlUpper,
    /// Status (section 3.2.2).
    Status,
    /// Error Counter (section 3.2.3).
    ErrorCounter,
    /// Bit Timing (section 3.2.4).
    BitTiming,
    /// Interrupt (section 3.4.1).
    Interrupt,
    /// Test (section 3.2.5).
    Test,
    /// BRP Extension (section 3.2.6).
    Extension,
    /// Command Request of an interface (section 3.3.1).
    Request(Interface),
    /// Command Mask or a message buffer register of an interface (sections 3.3.2 and 3.3.3).
    Buffer(Interface, Reg),
    /// A flag of 16 objects: TxRqst, NewDat, IntPnd and MsgVal have registers, MsgLst has none (section 3.4).
    Flags(Flag, FlagPart),
}
