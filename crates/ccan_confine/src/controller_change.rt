use crate::bus_event::BusEvent;
use crate::control_register::ControlRegister;
use crate::status_event::StatusEvent;
use crate::status_flags::StatusFlags;
use crate::test_register::TestRegister;

/// What changes the controller's registers in one step.
#[derive(Clone, Copy, Debug, PartialEq, Eq, Hash)]
pub enum ControllerChange {
    /// A frame ended for the controller: what it is to the error counters and to the Status register. Made by the
    /// message handler alone.
    Frame(BusEvent, StatusEvent),
    /// This many groups of eleven recessive bits. Made by the message handler alone.
    Recessive(u16),
    /// A host reads the Status register of a C_CAN: a status interrupt is no longer pending.
    ReadStatus,
    /// A host reads the Status register of a D_CAN: a status interrupt is no longer pending, TxOk and RxOk become 0 and
    /// LEC becomes 7 (Texas Instruments, AM335x Technical Reference Manual, "Error and Status Register").
    ReadAndClearStatus,
    /// A host writes the Status register: TxOk, RxOk and LEC.
    WriteStatus(StatusFlags),
    /// A host writes the Control register. If it clears Init and the controller is bus off, the way back begins.
    WriteControl(ControlRegister),
    /// A host writes the bits of the Control register that are 1 in the first value, as they are in the second one; the others
    /// stay. A read and a write of the register end like this if nobody came between them (C_CAN User's Manual 1.2, "CAN
    /// Control Register").
    WriteControlBits(ControlRegister, ControlRegister),
    /// A host writes the Test register, which stays if Test of the Control register is 0.
    WriteTest(TestRegister),
    /// A host writes the Bit Timing register, without its reserved bit. It stays if Init or CCE of the Control register is 0
    /// (C_CAN User's Manual 1.2, "Bit Timing Register").
    WriteBitTiming(u16),
    /// A host writes the BRP Extension register, without its reserved bits. It stays if Init or CCE of the Control register
    /// is 0 (C_CAN User's Manual 1.2, "BRP Extension Register").
    WriteExtension(u16),
    /// A host writes the Bit Timing and the BRP Extension register at once, without their reserved bits: the BTR register of a
    /// D_CAN has both. They stay if Init or CCE of the Control register is 0 (Texas Instruments, AM335x Technical Reference
    /// Manual, chapter DCAN, "Bit Timing Register").
    WriteTiming(u16, u16),
    /// A hardware reset: Init is 1, so the controller has left the bus, the Bit Timing register is 0x2301, and all else is 0
    /// as in a new controller (C_CAN User's Manual 1.2, "Hardware Reset Description"). Made by the message handler's side alone.
    Reset,
    /// A reset of a D_CAN, after which LEC is 7; all else is as after `Reset`. A host makes it too, by SWR of the CAN Control
    /// register (Texas Instruments, AM335x Technical Reference Manual, chapter DCAN, "CAN Control Register" and "Error and
    /// Status Register").
    ResetDcan,
    /// The message handler joins the bus again: that the controller had left it is forgotten, unless Init is 1. Made by the
    /// message handler alone (own).
    Join,
    /// The message handler has nothing to send on an idle bus: Init becomes 1 if PDR is 1, and nothing changes if it is 0 (Texas
    /// Instruments, AM335x Technical Reference Manual, chapter DCAN, "Local Power-Down Mode"). Made by the message handler alone.
    PowerDown,
}
