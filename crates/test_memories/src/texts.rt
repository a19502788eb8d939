//! The texts of errors and of names.
use crate::expect::holds;
use ccan_accept::FrameError;
use ccan_confine::NodeState;
use ccan_handler::ScanRefused;
use ccan_object::{ObjectNo, Profile};
use ccan_ram::{CommitError, OpenError, PortName, Refused};
use ccan_registers::saved::{Field, FormatError, NotRestored};
use ccan_registers::{AccessError, OffsetError};
use std::alloc::Global;
use std::fmt::Display;

/// Whether each of these prints as the text beside it.
fn say<T: Display>(alloc: Global, rows: &[(T, &str)]) -> bool {
    for (value, text) in rows {
        match format!(in alloc; "{value}") {
            Ok(printed) => {
                if printed.as_str() != *text {
                    return false;
                }
            }
            Err(_) => return false,
        }
    }
    true
}

#[test]
fn names_have_texts(rt: HostRuntime) {
    let states = [
        (NodeState::Active, "active"),
        (NodeState::Passive, "passive"),
        (NodeState::Off, "off"),
    ];
    holds(&rt, say(rt.alloc(), &states));
    let ports = [
        (PortName::If1, "if1"),
        (PortName::If2, "if2"),
        (PortName::Bus, "bus"),
    ];
    holds(&rt, say(rt.alloc(), &ports));
}

#[test]
fn errors_of_memories_have_texts(rt: HostRuntime) {
    let frame = [
        (FrameError::IdRange, "identifier out of range"),
        (FrameError::DlcRange, "data length code above 15"),
    ];
    holds(&rt, say(rt.alloc(), &frame));
    let commit = [
        (
            CommitError::Lost { now: 3 },
            "lost to a change that contends",
        ),
        (
            CommitError::Spent,
            "the port has made as many changes as it may",
        ),
    ];
    holds(&rt, say(rt.alloc(), &commit));
    let open = [
        (OpenError::QuotaRange, "the quota is out of range"),
        (OpenError::Memory, "out of memory"),
    ];
    holds(&rt, say(rt.alloc(), &open));
    let at = ObjectNo::from_request(Profile::One, 3);
    let why = Refused::Busy { tries: 2, now: 3 };
    let scan = [
        (
            ScanRefused { at, why },
            "object 3: each of 2 tries was lost",
        ),
        (
            ScanRefused {
                at,
                why: Refused::Spent,
            },
            "object 3: the port has made all its changes",
        ),
    ];
    holds(&rt, say(rt.alloc(), &scan));
}

#[test]
fn errors_of_chips_have_texts(rt: HostRuntime) {
    let format = [
        (
            FormatError::Length(3),
            "a saved chip has 1672 bytes, and these are 3",
        ),
        (
            FormatError::Range(Field::Object(64)),
            "object 64 is out of its range",
        ),
        (
            FormatError::Version(2),
            "version 2 of a saved chip is not known",
        ),
    ];
    holds(&rt, say(rt.alloc(), &format));
    let restored = [(NotRestored::NotAChip, "no chip can be like this")];
    holds(&rt, say(rt.alloc(), &restored));
    let access = [
        (
            AccessError::OtherInterface,
            "the register is of another port's interface",
        ),
        (
            AccessError::Busy,
            "each try was lost to a change of another port",
        ),
        (
            AccessError::Spent,
            "the port has made all the changes that it can",
        ),
    ];
    holds(&rt, say(rt.alloc(), &access));
    let offset = [
        (OffsetError::NoRegister, "no register begins at the offset"),
        (
            OffsetError::Access(AccessError::Busy),
            "each try was lost to a change of another port",
        ),
    ];
    holds(&rt, say(rt.alloc(), &offset));
}
