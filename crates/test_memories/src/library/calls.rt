//! The calls of C without their promises: a test that makes many of them has then no more to prove than its own lines.
use crate::expect::same;
use ccan_c::{
    BusHandle, Chip, HostHandle, Offer, SavedChip, ShownCounters, ShownFinal, ShownFinished,
    ShownFrame, ShownLoad, ShownMember, ShownNode, ShownOutcome, ShownRecord, ShownWire,
    ccan_begin, ccan_bit_time, ccan_bus_flags, ccan_bus_interrupt, ccan_bus_line, ccan_bus_read8,
    ccan_bus_read16, ccan_bus_read32, ccan_bus_write8, ccan_bus_write16, ccan_bus_write32,
    ccan_clear_objects, ccan_control, ccan_counters, ccan_decide, ccan_decide_again, ccan_end,
    ccan_finish, ccan_flags, ccan_frame_bits, ccan_get, ccan_init, ccan_interrupt, ccan_is_open,
    ccan_line, ccan_load, ccan_loop_back, ccan_meet, ccan_node_begin, ccan_node_finish,
    ccan_node_recessive, ccan_open, ccan_open_reset, ccan_peek, ccan_power_down, ccan_read8,
    ccan_read16, ccan_read32, ccan_recessive, ccan_request, ccan_reset, ccan_restore,
    ccan_retry_event, ccan_round, ccan_save, ccan_set, ccan_status, ccan_stay, ccan_until,
    ccan_write8, ccan_write16, ccan_write32,
};
use std::alloc::Global;
use std::process::Abort;

// ---- the chip

pub fn open(alloc: Global, chip: &mut Chip, profile: u32, nodes: u32, tries: u32) -> u32 {
    ccan_open(alloc, chip, profile, nodes, tries)
}

pub fn open_reset(
    alloc: Global,
    chip: &mut Chip,
    profile: u32,
    nodes: u32,
    tries: u32,
    layout: u32,
) -> u32 {
    ccan_open_reset(alloc, chip, profile, nodes, tries, layout)
}

pub fn is_open(chip: &Chip) -> bool {
    ccan_is_open(chip)
}

pub fn meet(alloc: Global, chip: &mut Chip) -> u32 {
    ccan_meet(alloc, chip)
}

pub fn save(alloc: Global, chip: &mut Chip, saved: &mut SavedChip) -> u32 {
    ccan_save(alloc, chip, saved)
}

pub fn restore(alloc: Global, chip: &mut Chip, saved: &SavedChip) -> u32 {
    ccan_restore(alloc, chip, saved)
}

pub fn reset_in_place(alloc: Global, chip: &mut Chip) -> u32 {
    ccan_reset(alloc, chip)
}

pub fn end(alloc: Global, chip: &mut Chip, last: &mut ShownFinal) -> u32 {
    ccan_end(alloc, chip, last)
}

/// A chip of this profile, whose bus has so many other nodes.
pub fn opened(rt: &impl Abort, alloc: Global, profile: u32, nodes: u32) -> Chip {
    let mut chip = Chip::closed(alloc);
    same(rt, open(alloc, &mut chip, profile, nodes, 100), 0);
    chip
}

/// A chip with 32 objects and one other node, as after a reset, with this layout.
pub fn reset(rt: &impl Abort, alloc: Global, layout: u32) -> Chip {
    let mut chip = Chip::closed(alloc);
    same(rt, open_reset(alloc, &mut chip, 1, 1, 100, layout), 0);
    chip
}

// ---- a host

pub fn set(host: &mut HostHandle, register: u32, value: u16) -> u32 {
    ccan_set(host, register, value)
}

/// Sets registers, each by its number.
pub fn set_all(rt: &impl Abort, host: &mut HostHandle, settings: &[(u32, u16)]) {
    for (register, value) in settings {
        same(rt, set(host, *register, *value), 0);
    }
}

/// The register of this number as a host reads it.
pub fn shown(rt: &impl Abort, host: &mut HostHandle, register: u32) -> u16 {
    let mut value = 7;
    same(rt, ccan_get(host, register, &mut value), 0);
    value
}

pub fn request(host: &mut HostHandle, object: u16) -> u32 {
    ccan_request(host, object)
}

pub fn clear_objects(host: &mut HostHandle) -> u32 {
    ccan_clear_objects(host)
}

pub fn flags(host: &mut HostHandle, flag: u32, word: &mut u64) -> u32 {
    ccan_flags(host, flag, word)
}

pub fn interrupt(host: &mut HostHandle, value: &mut u16) -> u32 {
    ccan_interrupt(host, value)
}

pub fn peek(host: &mut HostHandle, object: u32, seen: &mut ShownRecord) -> u32 {
    ccan_peek(host, object, seen)
}

pub fn until(host: &mut HostHandle, object: u32, flag: u32, turns: u32, shows: &mut u32) -> u32 {
    ccan_until(host, object, flag, turns, shows)
}

pub fn read8(host: &mut HostHandle, offset: u32, value: &mut u8) -> u32 {
    ccan_read8(host, offset, value)
}

pub fn write8(host: &mut HostHandle, offset: u32, value: u8) -> u32 {
    ccan_write8(host, offset, value)
}

pub fn read16(host: &mut HostHandle, offset: u32, value: &mut u16) -> u32 {
    ccan_read16(host, offset, value)
}

pub fn write16(host: &mut HostHandle, offset: u32, value: u16) -> u32 {
    ccan_write16(host, offset, value)
}

pub fn read32(host: &mut HostHandle, offset: u32, value: &mut u32) -> u32 {
    ccan_read32(host, offset, value)
}

pub fn write32(host: &mut HostHandle, offset: u32, value: u32) -> u32 {
    ccan_write32(host, offset, value)
}

/// The register at this offset as a host reads it.
pub fn reads(rt: &impl Abort, host: &mut HostHandle, offset: u32) -> u16 {
    let mut value = 7;
    same(rt, ccan_read16(host, offset, &mut value), 0);
    value
}

/// The byte at this offset as a host reads it.
pub fn reads_byte(rt: &impl Abort, host: &mut HostHandle, offset: u32) -> u8 {
    let mut value = 7;
    same(rt, ccan_read8(host, offset, &mut value), 0);
    value
}

/// Writes bytes, each by its offset.
pub fn write_bytes(rt: &impl Abort, host: &mut HostHandle, settings: &[(u32, u8)]) {
    for (offset, value) in settings {
        same(rt, write8(host, *offset, *value), 0);
    }
}

/// Writes registers, each by its offset.
pub fn write_all(rt: &impl Abort, host: &mut HostHandle, settings: &[(u32, u16)]) {
    for (offset, value) in settings {
        same(rt, write16(host, *offset, *value), 0);
    }
}

/// Whether the interrupt line is pulled, as a host sees it.
pub fn pulls(rt: &impl Abort, host: &mut HostHandle) -> u32 {
    let mut pulled = 7;
    same(rt, ccan_line(host, &mut pulled), 0);
    pulled
}

// ---- the bus

pub fn bus_read8(bus: &mut BusHandle, offset: u32, value: &mut u8) -> u32 {
    ccan_bus_read8(bus, offset, value)
}

pub fn bus_write8(bus: &mut BusHandle, offset: u32, value: u8) -> u32 {
    ccan_bus_write8(bus, offset, value)
}

pub fn bus_read16(bus: &mut BusHandle, offset: u32, value: &mut u16) -> u32 {
    ccan_bus_read16(bus, offset, value)
}

pub fn bus_write16(bus: &mut BusHandle, offset: u32, value: u16) -> u32 {
    ccan_bus_write16(bus, offset, value)
}

pub fn bus_read32(bus: &mut BusHandle, offset: u32, value: &mut u32) -> u32 {
    ccan_bus_read32(bus, offset, value)
}

pub fn bus_write32(bus: &mut BusHandle, offset: u32, value: u32) -> u32 {
    ccan_bus_write32(bus, offset, value)
}

pub fn bus_line(bus: &mut BusHandle, pulled: &mut u32) -> u32 {
    ccan_bus_line(bus, pulled)
}

pub fn load(bus: &mut BusHandle, loaded: &mut ShownLoad) -> u32 {
    ccan_load(bus, loaded)
}

pub fn round(bus: &mut BusHandle, offers: &[Offer], fault: u32, outcome: &mut ShownOutcome) -> u32 {
    ccan_round(bus, offers, fault, outcome)
}

pub fn status(bus: &mut BusHandle, word: &mut u16) -> u32 {
    ccan_status(bus, word)
}

pub fn bus_interrupt(bus: &mut BusHandle, value: &mut u16) -> u32 {
    ccan_bus_interrupt(bus, value)
}

pub fn bus_flags(bus: &mut BusHandle, flag: u32, word: &mut u64) -> u32 {
    ccan_bus_flags(bus, flag, word)
}

pub fn counters(bus: &mut BusHandle, node: u32, counts: &mut ShownCounters) -> u32 {
    ccan_counters(bus, node, counts)
}

pub fn control(bus: &mut BusHandle, sie: u32, eie: u32) -> u32 {
    ccan_control(bus, sie, eie)
}

pub fn init(bus: &mut BusHandle) -> u32 {
    ccan_init(bus)
}

pub fn recessive(bus: &mut BusHandle, groups: u32, state: &mut u32) -> u32 {
    ccan_recessive(bus, groups, state)
}

/// Whether the chip is in local power down, 1 or 0, at a moment when the bus is idle.
pub fn powers_down(rt: &impl Abort, bus: &mut BusHandle) -> u32 {
    let mut down = 7;
    same(rt, ccan_power_down(bus, &mut down), 0);
    down
}

pub fn loop_back(bus: &mut BusHandle, on: u32) -> u32 {
    ccan_loop_back(bus, on)
}

// ---- several chips on one bus

pub fn begin(bus: &mut BusHandle, member: &mut ShownMember) -> u32 {
    ccan_begin(bus, member)
}

pub fn stay(bus: &mut BusHandle, member: &mut ShownMember) -> u32 {
    ccan_stay(bus, member)
}

pub fn finish(
    bus: &mut BusHandle,
    wire: &ShownWire,
    place: u32,
    fault: u32,
    finished: &mut ShownFinished,
) -> u32 {
    ccan_finish(bus, wire, place, fault, finished)
}

pub fn retry_event(bus: &mut BusHandle, lost: &ShownFinished) -> u32 {
    ccan_retry_event(bus, lost)
}

pub fn decide(members: &[ShownMember], wire: &mut ShownWire) -> u32 {
    ccan_decide(members, wire)
}

pub fn decide_again(start: &ShownWire, members: &[ShownMember], wire: &mut ShownWire) -> u32 {
    ccan_decide_again(start, members, wire)
}

pub fn node_begin(
    node: &ShownNode,
    sends: u32,
    frame: &ShownFrame,
    member: &mut ShownMember,
) -> u32 {
    ccan_node_begin(node, sends, frame, member)
}

pub fn node_finish(
    node: &mut ShownNode,
    wire: &ShownWire,
    place: u32,
    member: &ShownMember,
    event: &mut u32,
) -> u32 {
    ccan_node_finish(node, wire, place, member, event)
}

pub fn node_recessive(node: &mut ShownNode, groups: u32) -> u32 {
    ccan_node_recessive(node, groups)
}

pub fn frame_bits(frame: &ShownFrame, bits: &mut u32) -> u32 {
    ccan_frame_bits(frame, bits)
}

pub fn bit_time(bit_timing: u16, extension: u16) -> u32 {
    ccan_bit_time(bit_timing, extension)
}
