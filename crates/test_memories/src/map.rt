//! Which register is at an offset: each offset of the three layouts as the manuals list it, and no other.

use crate::expect::same;
use ccan_chip::Interface::{One, Two};
use ccan_chip::Register::{
    BitTiming, Buffer, Control, ControlUpper, ErrorCounter, Extension, Flags, Interrupt, Request,
    Status, Test,
};
use ccan_chip::{FlagPart, Map, Register, map_laws};
use ccan_object::Profile;
use ccan_object::Reg::{Arb1, Arb2, CMask, Ctrl, DataA1, DataA2, DataB1, DataB2, Mask1, Mask2};
use ccan_ram::flag::Flag;
use std::process::Abort;

/// The registers in the order in which the tables below list their offsets: the upper half of Control, the others that occur once,
/// IF1, IF2, and the flags of objects 1 to 32.
const COMMON: [Register; 38] = [
    ControlUpper,
    Control,
    Status,
    ErrorCounter,
    BitTiming,
    Interrupt,
    Test,
    Extension,
    Request(One),
    Buffer(One, CMask),
    Buffer(One, Mask1),
    Buffer(One, Mask2),
    Buffer(One, Arb1),
    Buffer(One, Arb2),
    Buffer(One, Ctrl),
    Buffer(One, DataA1),
    Buffer(One, DataA2),
    Buffer(One, DataB1),
    Buffer(One, DataB2),
    Request(Two),
    Buffer(Two, CMask),
    Buffer(Two, Mask1),
    Buffer(Two, Mask2),
    Buffer(Two, Arb1),
    Buffer(Two, Arb2),
    Buffer(Two, Ctrl),
    Buffer(Two, DataA1),
    Buffer(Two, DataA2),
    Buffer(Two, DataB1),
    Buffer(Two, DataB2),
    Flags(Flag::TxRqst, FlagPart::First),
    Flags(Flag::TxRqst, FlagPart::Second),
    Flags(Flag::NewDat, FlagPart::First),
    Flags(Flag::NewDat, FlagPart::Second),
    Flags(Flag::IntPnd, FlagPart::First),
    Flags(Flag::IntPnd, FlagPart::Second),
    Flags(Flag::MsgVal, FlagPart::First),
    Flags(Flag::MsgVal, FlagPart::Second),
];

/// The flags of objects 33 to 64, in the order in which the tables below list their offsets.
const FURTHER: [Register; 8] = [
    Flags(Flag::TxRqst, FlagPart::Third),
    Flags(Flag::TxRqst, FlagPart::Fourth),
    Flags(Flag::NewDat, FlagPart::Third),
    Flags(Flag::NewDat, FlagPart::Fourth),
    Flags(Flag::IntPnd, FlagPart::Third),
    Flags(Flag::IntPnd, FlagPart::Fourth),
    Flags(Flag::MsgVal, FlagPart::Third),
    Flags(Flag::MsgVal, FlagPart::Fourth),
];

/// Where the registers are: those of every chip, and those that only a chip with 64 objects has.
struct Places {
    common: [u32; 38],
    further: [u32; 8],
}

/// A place for a register that a layout has not: the tests ask for none so high.
const NOWHERE: u32 = 0x200;

const NARROW: Places = Places {
    common: [
        NOWHERE, 0x00, 0x02, 0x04, 0x06, 0x08, 0x0a, 0x0c, // those that stand once
        0x10, 0x12, 0x14, 0x16, 0x18, 0x1a, 0x1c, 0x1e, 0x20, 0x22, 0x24, // IF1
        0x40, 0x42, 0x44, 0x46, 0x48, 0x4a, 0x4c, 0x4e, 0x50, 0x52, 0x54, // IF2
        0x80, 0x82, 0x90, 0x92, 0xa0, 0xa2, 0xb0, 0xb2, // the flags
    ],
    further: [0x84, 0x86, 0x94, 0x96, 0xa4, 0xa6, 0xb4, 0xb6],
};

const WIDE: Places = Places {
    common: [
        NOWHERE, 0x00, 0x04, 0x08, 0x0c, 0x10, 0x14, 0x18, // those that stand once
        0x20, 0x24, 0x28, 0x2c, 0x30, 0x34, 0x38, 0x3c, 0x40, 0x44, 0x48, // IF1
        0x80, 0x84, 0x88, 0x8c, 0x90, 0x94, 0x98, 0x9c, 0xa0, 0xa4, 0xa8, // IF2
        0x100, 0x104, 0x120, 0x124, 0x140, 0x144, 0x160, 0x164, // the flags
    ],
    further: [0x108, 0x10c, 0x128, 0x12c, 0x148, 0x14c, 0x168, 0x16c],
};

const DCAN: Places = Places {
    common: [
        0x02, 0x00, 0x04, 0x08, 0x0c, 0x10, 0x14, 0x0e, // those that stand once
        0x100, 0x102, 0x104, 0x106, 0x108, 0x10a, 0x10c, 0x110, 0x112, 0x114, 0x116, // IF1
        0x120, 0x122, 0x124, 0x126, 0x128, 0x12a, 0x12c, 0x130, 0x132, 0x134, 0x136, // IF2
        0x88, 0x8a, 0x9c, 0x9e, 0xb0, 0xb2, 0xc4, 0xc6, // the flags
    ],
    further: [0x8c, 0x8e, 0xa0, 0xa2, 0xb4, 0xb6, 0xc8, 0xca],
};

/// The register that a list has for an offset.
fn listed(registers: &[Register], offsets: &[u32], offset: u32) -> Option<Register> {
    for (register, at) in registers.iter().zip(offsets) {
        if *at == offset {
            return Some(*register);
        }
    }
    None
}

/// Each offset below 0x200 is the register that the lists have for it, or none, with 32 objects and with 64.
fn all_as_listed(rt: &impl Abort, map: Map, places: &Places) {
    for offset in 0..0x200 {
        let common = listed(&COMMON, &places.common, offset);
        same(rt, map.register_at(Profile::One, offset), common);
        let all = common.or(listed(&FURTHER, &places.further, offset));
        same(rt, map.register_at(Profile::Two, offset), all);
    }
}

#[test]
fn registers_stand_where_the_lists_say(rt: HostRuntime) {
    all_as_listed(&rt, Map::Narrow, &NARROW);
    all_as_listed(&rt, Map::Wide, &WIDE);
    all_as_listed(&rt, Map::Dcan, &DCAN);
}

#[test]
fn layouts_have_numbers_and_parts_16_flags(rt: HostRuntime) {
    for (number, map) in [
        (0, Some(Map::Narrow)),
        (1, Some(Map::Wide)),
        (2, Some(Map::Dcan)),
        (3, None),
    ] {
        same(&rt, (number, Map::numbered(number)), (number, map));
    }
    for (part, flags) in [
        (FlagPart::First, 0x7788),
        (FlagPart::Second, 0x5566),
        (FlagPart::Third, 0x3344),
        (FlagPart::Fourth, 0x1122),
    ] {
        same(&rt, (part, part.of(0x1122_3344_5566_7788)), (part, flags));
    }
    map_laws::registers_lie_apart();
}
