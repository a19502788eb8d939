//! Names that all forms of a report share.
use ccan_bus::Fault;
use ccan_confine::NodeState;
use ccan_ram::{Flag, PortName};

/// The name of a port, as scripts have it.
pub(crate) fn port_word(port: PortName) -> &'static str {
    match port {
        PortName::If1 => "if1",
        PortName::If2 => "if2",
        PortName::Bus => "bus",
    }
}

/// The name of a flag, as the manual has it.
pub(crate) fn flag_word(flag: Flag) -> &'static str {
    match flag {
        Flag::NewDat => "NewDat",
        Flag::MsgLst => "MsgLst",
        Flag::IntPnd => "IntPnd",
        Flag::TxRqst => "TxRqst",
        Flag::MsgVal => "MsgVal",
    }
}

/// The name of a flag, as scripts have it.
pub(crate) fn flag_name(flag: Flag) -> &'static str {
    match flag {
        Flag::NewDat => "newdat",
        Flag::MsgLst => "msglst",
        Flag::IntPnd => "intpnd",
        Flag::TxRqst => "txrqst",
        Flag::MsgVal => "msgval",
    }
}

/// The state of a node (CAN Specification 2.0, "Fault Confinement").
pub(crate) fn state_word(state: NodeState) -> &'static str {
    match state {
        NodeState::Active => "active",
        NodeState::Passive => "passive",
        NodeState::Off => "off",
    }
}

/// What spoiled a frame.
pub(crate) fn fault_word(fault: Fault) -> &'static str {
    match fault {
        Fault::Quiet => "none",
        Fault::Stuff => "stuff",
        Fault::Form => "form",
        Fault::Bit1 => "bit1",
        Fault::Bit0 => "bit0",
        Fault::Crc => "crc",
    }
}

/// The last error code of the Status register (C_CAN User's Manual 1.2, "Status Register"): its low three bits.
pub(crate) fn code_word(status: u16) -> &'static str {
    match status % 8 {
        0 => "no error",
        1 => "stuff error",
        2 => "form error",
        3 => "not acknowledged",
        4 => "bit 1 error",
        5 => "bit 0 error",
        6 => "CRC error",
        _ => "unchanged",
    }
}
