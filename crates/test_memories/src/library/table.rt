//! The numbers and sizes of `include/ccan.h`, as the library has them. `tools/test/c_table` reads the lines of this file that end
//! in a name, and holds the header to them, so each is one line of the form `same(&rt, LIBRARY, NUMBER); // NAME`.
use super::calls::{bus_write16, node_begin, opened};
use super::members::{ended, listens, member, nobody, sends, wire};
use crate::expect::same;
use ccan_bus::{Fault, LoadAnswer, MemoryStep, RoundAnswer, RoundEnd, RoundReport};
use ccan_c::{
    BusHandle, Chip, HostHandle, NO_NODE, NOT_NOTED, NoteHandle, Offer, SavedChip, ShownCounters,
    ShownFinal, ShownFinished, ShownFrame, ShownLoad, ShownMember, ShownNode, ShownOutcome,
    ShownRecord, ShownWire, ccan_version, code, fault_numbered, flag_numbered, map_numbered,
    register_numbered, state_number, step_number,
};
use ccan_calls::laws;
use ccan_chip::{ChipReport, FlagPart, Interface, Map, Register};
use ccan_confine::{Controller, NodeState};
use ccan_device::ChipDevice;
use ccan_object::{Profile, Record, Reg};
use ccan_ram::Flag;
use std::alloc::Global;
use std::mem::size_of;
use std::process::Abort;

#[test]
fn codes_of_opening(rt: HostRuntime) {
    same(&rt, ccan_version(), 500); // CCAN_VERSION
    same(&rt, code::DONE, 0); // CCAN_DONE
    same(&rt, code::CLOSED, 1); // CCAN_CLOSED
    same(&rt, code::BUSY, 2); // CCAN_BUSY
    same(&rt, code::SPENT, 3); // CCAN_SPENT
    same(&rt, code::NO_MEMORY, 4); // CCAN_NO_MEMORY
    same(&rt, code::SHARED, 5); // CCAN_SHARED
    same(&rt, code::PROFILE_RANGE, 6); // CCAN_PROFILE_RANGE
    same(&rt, code::NODES_RANGE, 7); // CCAN_NODES_RANGE
    same(&rt, code::TRIES_RANGE, 9); // CCAN_TRIES_RANGE
}

#[test]
fn codes_of_handles(rt: HostRuntime) {
    same(&rt, code::REGISTER_RANGE, 10); // CCAN_REGISTER_RANGE
    same(&rt, code::OBJECT_RANGE, 11); // CCAN_OBJECT_RANGE
    same(&rt, code::FLAG_RANGE, 12); // CCAN_FLAG_RANGE
    same(&rt, code::TURNS_RANGE, 13); // CCAN_TURNS_RANGE
    same(&rt, code::NODE_RANGE, 14); // CCAN_NODE_RANGE
    same(&rt, code::GROUPS_RANGE, 15); // CCAN_GROUPS_RANGE
    same(&rt, code::FRAMES_RANGE, 16); // CCAN_FRAMES_RANGE
    same(&rt, code::FRAME_RANGE, 17); // CCAN_FRAME_RANGE
    same(&rt, code::FAULT_RANGE, 18); // CCAN_FAULT_RANGE
    same(&rt, code::SENDERS, 19); // CCAN_SENDERS
}

#[test]
fn codes_of_registers(rt: HostRuntime) {
    same(&rt, code::OFFSET_RANGE, 20); // CCAN_OFFSET_RANGE
    same(&rt, code::OTHER_INTERFACE, 21); // CCAN_OTHER_INTERFACE
    same(&rt, code::MAP_RANGE, 22); // CCAN_LAYOUT_RANGE
    same(&rt, code::NO_SAVED_CHIP, 23); // CCAN_NO_SAVED_CHIP
    same(&rt, code::NO_CHIP, 24); // CCAN_NO_CHIP
    same(&rt, code::UNTOLD, 25); // CCAN_UNTOLD
}

#[test]
fn codes_of_several_chips(rt: HostRuntime) {
    same(&rt, code::MEMBERS_RANGE, 26); // CCAN_MEMBERS_RANGE
    same(&rt, code::MEMBER_RANGE, 27); // CCAN_MEMBER_RANGE
    same(&rt, code::WIRE_RANGE, 28); // CCAN_WIRE_RANGE
    same(&rt, code::PLACE_RANGE, 29); // CCAN_PLACE_RANGE
    same(&rt, code::EVENT_RANGE, 30); // CCAN_EVENT_RANGE
    same(&rt, code::COUNTERS_RANGE, 31); // CCAN_COUNTERS_RANGE
}

/// The number of a layout, 77 if it has none.
fn layout(sought: Map) -> u32 {
    for number in 0..77 {
        if map_numbered(number) == Some(sought) {
            return number;
        }
    }
    77
}

#[test]
fn layouts(rt: HostRuntime) {
    same(&rt, layout(Map::Narrow), 0); // CCAN_LAYOUT_C_CAN
    same(&rt, layout(Map::Wide), 1); // CCAN_LAYOUT_C_CAN_32
    same(&rt, layout(Map::Dcan), 2); // CCAN_LAYOUT_D_CAN
}

/// The offset of a register of a chip with 64 objects, 777 if it has none.
fn offset(sought: Register) -> u32 {
    for number in 0..777 {
        if Map::Narrow.register_at(Profile::Two, number) == Some(sought) {
            return number;
        }
    }
    777
}

#[test]
fn offsets(rt: HostRuntime) {
    same(&rt, offset(Register::Control), 0); // CCAN_OFFSET_CONTROL
    same(&rt, offset(Register::Status), 2); // CCAN_OFFSET_STATUS
    same(&rt, offset(Register::ErrorCounter), 4); // CCAN_OFFSET_ERROR_COUNTER
    same(&rt, offset(Register::BitTiming), 6); // CCAN_OFFSET_BIT_TIMING
    same(&rt, offset(Register::Interrupt), 8); // CCAN_OFFSET_INTERRUPT
    same(&rt, offset(Register::Test), 10); // CCAN_OFFSET_TEST
    same(&rt, offset(Register::Extension), 12); // CCAN_OFFSET_BRP_EXTENSION
}

/// The offset of a register of IF1.
fn of_if1(sought: Reg) -> u32 {
    offset(Register::Buffer(Interface::One, sought))
}

#[test]
fn offsets_of_if1(rt: HostRuntime) {
    same(&rt, offset(Register::Request(Interface::One)), 16); // CCAN_OFFSET_IF1_COMMAND_REQUEST
    same(&rt, of_if1(Reg::CMask), 18); // CCAN_OFFSET_IF1_COMMAND_MASK
    same(&rt, of_if1(Reg::Mask1), 20); // CCAN_OFFSET_IF1_MASK_1
    same(&rt, of_if1(Reg::Mask2), 22); // CCAN_OFFSET_IF1_MASK_2
    same(&rt, of_if1(Reg::Arb1), 24); // CCAN_OFFSET_IF1_ARBITRATION_1
    same(&rt, of_if1(Reg::Arb2), 26); // CCAN_OFFSET_IF1_ARBITRATION_2
    same(&rt, of_if1(Reg::Ctrl), 28); // CCAN_OFFSET_IF1_MESSAGE_CONTROL
    same(&rt, of_if1(Reg::DataA1), 30); // CCAN_OFFSET_IF1_DATA_A1
    same(&rt, of_if1(Reg::DataA2), 32); // CCAN_OFFSET_IF1_DATA_A2
    same(&rt, of_if1(Reg::DataB1), 34); // CCAN_OFFSET_IF1_DATA_B1
    same(&rt, of_if1(Reg::DataB2), 36); // CCAN_OFFSET_IF1_DATA_B2
}

/// The offset of a register of IF2.
fn of_if2(sought: Reg) -> u32 {
    offset(Register::Buffer(Interface::Two, sought))
}

#[test]
fn offsets_of_if2(rt: HostRuntime) {
    same(&rt, offset(Register::Request(Interface::Two)), 64); // CCAN_OFFSET_IF2_COMMAND_REQUEST
    same(&rt, of_if2(Reg::CMask), 66); // CCAN_OFFSET_IF2_COMMAND_MASK
    same(&rt, of_if2(Reg::Mask1), 68); // CCAN_OFFSET_IF2_MASK_1
    same(&rt, of_if2(Reg::Mask2), 70); // CCAN_OFFSET_IF2_MASK_2
    same(&rt, of_if2(Reg::Arb1), 72); // CCAN_OFFSET_IF2_ARBITRATION_1
    same(&rt, of_if2(Reg::Arb2), 74); // CCAN_OFFSET_IF2_ARBITRATION_2
    same(&rt, of_if2(Reg::Ctrl), 76); // CCAN_OFFSET_IF2_MESSAGE_CONTROL
    same(&rt, of_if2(Reg::DataA1), 78); // CCAN_OFFSET_IF2_DATA_A1
    same(&rt, of_if2(Reg::DataA2), 80); // CCAN_OFFSET_IF2_DATA_A2
    same(&rt, of_if2(Reg::DataB1), 82); // CCAN_OFFSET_IF2_DATA_B1
    same(&rt, of_if2(Reg::DataB2), 84); // CCAN_OFFSET_IF2_DATA_B2
}

/// The offset of a register of a flag.
fn of_flag(sought: Flag, part: FlagPart) -> u32 {
    offset(Register::Flags(sought, part))
}

#[test]
fn offsets_of_requests_and_new_data(rt: HostRuntime) {
    same(&rt, of_flag(Flag::TxRqst, FlagPart::First), 128); // CCAN_OFFSET_TRANSMISSION_REQUEST_1
    same(&rt, of_flag(Flag::TxRqst, FlagPart::Second), 130); // CCAN_OFFSET_TRANSMISSION_REQUEST_2
    same(&rt, of_flag(Flag::TxRqst, FlagPart::Third), 132); // CCAN_OFFSET_TRANSMISSION_REQUEST_3
    same(&rt, of_flag(Flag::TxRqst, FlagPart::Fourth), 134); // CCAN_OFFSET_TRANSMISSION_REQUEST_4
    same(&rt, of_flag(Flag::NewDat, FlagPart::First), 144); // CCAN_OFFSET_NEW_DATA_1
    same(&rt, of_flag(Flag::NewDat, FlagPart::Second), 146); // CCAN_OFFSET_NEW_DATA_2
    same(&rt, of_flag(Flag::NewDat, FlagPart::Third), 148); // CCAN_OFFSET_NEW_DATA_3
    same(&rt, of_flag(Flag::NewDat, FlagPart::Fourth), 150); // CCAN_OFFSET_NEW_DATA_4
}

#[test]
fn offsets_of_pending_and_valid(rt: HostRuntime) {
    same(&rt, of_flag(Flag::IntPnd, FlagPart::First), 160); // CCAN_OFFSET_INTERRUPT_PENDING_1
    same(&rt, of_flag(Flag::IntPnd, FlagPart::Second), 162); // CCAN_OFFSET_INTERRUPT_PENDING_2
    same(&rt, of_flag(Flag::IntPnd, FlagPart::Third), 164); // CCAN_OFFSET_INTERRUPT_PENDING_3
    same(&rt, of_flag(Flag::IntPnd, FlagPart::Fourth), 166); // CCAN_OFFSET_INTERRUPT_PENDING_4
    same(&rt, of_flag(Flag::MsgVal, FlagPart::First), 176); // CCAN_OFFSET_MESSAGE_VALID_1
    same(&rt, of_flag(Flag::MsgVal, FlagPart::Second), 178); // CCAN_OFFSET_MESSAGE_VALID_2
    same(&rt, of_flag(Flag::MsgVal, FlagPart::Third), 180); // CCAN_OFFSET_MESSAGE_VALID_3
    same(&rt, of_flag(Flag::MsgVal, FlagPart::Fourth), 182); // CCAN_OFFSET_MESSAGE_VALID_4
}

/// The number of a register, 77 if it has none.
fn register(sought: Reg) -> u32 {
    for number in 0..77 {
        if register_numbered(number) == Some(sought) {
            return number;
        }
    }
    77
}

#[test]
fn registers(rt: HostRuntime) {
    same(&rt, register(Reg::CMask), 0); // CCAN_CMASK
    same(&rt, register(Reg::Mask1), 1); // CCAN_MASK1
    same(&rt, register(Reg::Mask2), 2); // CCAN_MASK2
    same(&rt, register(Reg::Arb1), 3); // CCAN_ARB1
    same(&rt, register(Reg::Arb2), 4); // CCAN_ARB2
    same(&rt, register(Reg::Ctrl), 5); // CCAN_CTRL
    same(&rt, register(Reg::DataA1), 6); // CCAN_DATAA1
    same(&rt, register(Reg::DataA2), 7); // CCAN_DATAA2
    same(&rt, register(Reg::DataB1), 8); // CCAN_DATAB1
    same(&rt, register(Reg::DataB2), 9); // CCAN_DATAB2
}

/// The number of a flag, 77 if it has none.
fn flag(sought: Flag) -> u32 {
    for number in 0..77 {
        if flag_numbered(number) == Some(sought) {
            return number;
        }
    }
    77
}

#[test]
fn flags(rt: HostRuntime) {
    same(&rt, flag(Flag::NewDat), 0); // CCAN_NEWDAT
    same(&rt, flag(Flag::MsgLst), 1); // CCAN_MSGLST
    same(&rt, flag(Flag::IntPnd), 2); // CCAN_INTPND
    same(&rt, flag(Flag::TxRqst), 3); // CCAN_TXRQST
    same(&rt, flag(Flag::MsgVal), 4); // CCAN_MSGVAL
}

/// The number of a fault, 77 if it has none.
fn fault(sought: Fault) -> u32 {
    for number in 0..77 {
        if fault_numbered(number) == Some(sought) {
            return number;
        }
    }
    77
}

#[test]
fn faults_and_states(rt: HostRuntime) {
    same(&rt, fault(Fault::Quiet), 0); // CCAN_QUIET
    same(&rt, fault(Fault::Stuff), 1); // CCAN_STUFF
    same(&rt, fault(Fault::Form), 2); // CCAN_FORM
    same(&rt, fault(Fault::Bit1), 3); // CCAN_BIT1
    same(&rt, fault(Fault::Bit0), 4); // CCAN_BIT0
    same(&rt, fault(Fault::Crc), 5); // CCAN_CRC
    same(&rt, state_number(NodeState::Active), 0); // CCAN_ACTIVE
    same(&rt, state_number(NodeState::Passive), 1); // CCAN_PASSIVE
    same(&rt, state_number(NodeState::Off), 2); // CCAN_OFF
}

/// The kind of a load.
fn load(came: LoadAnswer) -> u32 {
    ShownLoad::of(&came, &None).kind
}

#[test]
fn loads(rt: HostRuntime) {
    let last = Profile::One.last();
    same(&rt, load(LoadAnswer::Nothing), 0); // CCAN_LOAD_NOTHING
    same(&rt, load(LoadAnswer::Loaded(last, Record::zero())), 1); // CCAN_LOAD_LOADED
    same(&rt, load(LoadAnswer::Held(last)), 2); // CCAN_LOAD_HELD
    same(&rt, load(LoadAnswer::Busy(last)), 3); // CCAN_LOAD_BUSY
    same(&rt, load(LoadAnswer::Spent(last)), 4); // CCAN_LOAD_SPENT
}

/// The kind of a round.
fn round(came: RoundAnswer) -> u32 {
    let report = RoundReport {
        loading: LoadAnswer::Nothing,
        decision: None,
        end: RoundEnd {
            answer: came,
            refused: None,
        },
    };
    ShownOutcome::of(&ChipReport {
        found: Controller::new(),
        report,
        own: None,
        noted: None,
    })
    .kind
}

#[test]
fn rounds(rt: HostRuntime) {
    let last = Profile::One.last();
    let looped = RoundAnswer::Looped(last, Record::zero(), None);
    same(&rt, round(RoundAnswer::Idle), 0); // CCAN_IDLE
    same(&rt, round(RoundAnswer::Sent(last, Record::zero())), 1); // CCAN_SENT
    same(&rt, round(RoundAnswer::Received(None)), 2); // CCAN_RECEIVED
    same(&rt, round(RoundAnswer::Passed), 3); // CCAN_PASSED
    same(&rt, round(RoundAnswer::Collision), 4); // CCAN_COLLISION
    same(&rt, round(RoundAnswer::NoAck), 5); // CCAN_NO_ACK
    same(&rt, round(RoundAnswer::Fault), 6); // CCAN_FAULT
    same(&rt, round(looped), 7); // CCAN_LOOPED
    same(&rt, round(RoundAnswer::Busy(last)), 8); // CCAN_ROUND_BUSY
    same(&rt, round(RoundAnswer::Spent(last)), 9); // CCAN_ROUND_SPENT
}

#[test]
fn steps_of_rounds(rt: HostRuntime) {
    same(&rt, step_number(None), 0); // CCAN_STEP_NONE
    same(&rt, step_number(Some(MemoryStep::Start)), 1); // CCAN_STEP_LOAD
    same(&rt, step_number(Some(MemoryStep::Finish)), 2); // CCAN_STEP_FINISH
    same(&rt, step_number(Some(MemoryStep::Store)), 3); // CCAN_STEP_STORE
    same(&rt, NOT_NOTED, 4); // CCAN_STEP_EVENT
    same(&rt, NO_NODE, 255); // CCAN_NO_NODE
}

/// The role of a chip with these words of Control and Test.
fn role(rt: &impl Abort, alloc: Global, control: u16, test: u16) -> u32 {
    let mut chip = opened(rt, alloc, 1, 0);
    same(rt, bus_write16(&mut chip.bus, 0, control), 0);
    same(rt, bus_write16(&mut chip.bus, 10, test), 0);
    member(rt, &mut chip.bus).role
}

/// The role of a node with this transmit error counter.
fn role_of_node(rt: &impl Abort, tec: u32) -> u32 {
    let node = ShownNode {
        tec,
        rec: 0,
        groups: 0,
    };
    let other = nobody();
    let mut own = other;
    same(rt, node_begin(&node, 0, &other.frame, &mut own), 0);
    own.role
}

#[test]
fn roles(rt: HostRuntime) {
    same(&rt, role(&rt, rt.alloc(), 0x01, 0), 0); // CCAN_ROLE_ABSENT
    same(&rt, role(&rt, rt.alloc(), 0x80, 0x08), 1); // CCAN_ROLE_SILENT
    same(&rt, role(&rt, rt.alloc(), 0x80, 0x18), 2); // CCAN_ROLE_ALONE
    same(&rt, role_of_node(&rt, 128), 3); // CCAN_ROLE_PASSIVE
    same(&rt, role(&rt, rt.alloc(), 0, 0), 4); // CCAN_ROLE_ACTIVE
    same(&rt, role(&rt, rt.alloc(), 0x80, 0x10), 5); // CCAN_ROLE_LOOPED
}

/// What two members put on the bus.
fn kind(rt: &impl Abort, first: ShownMember, second: ShownMember) -> u32 {
    wire(rt, &[first, second]).kind
}

#[test]
fn wires(rt: HostRuntime) {
    same(&rt, kind(&rt, listens(4, 0), listens(4, 0)), 0); // CCAN_WIRE_IDLE
    same(&rt, kind(&rt, sends(4, 0, 1), sends(4, 0, 2)), 1); // CCAN_WIRE_COLLIDED
    same(&rt, kind(&rt, sends(4, 0, 1), listens(4, 1)), 2); // CCAN_WIRE_BROKEN
    same(&rt, kind(&rt, sends(4, 0, 1), listens(4, 2)), 3); // CCAN_WIRE_FLAGGED
    same(&rt, kind(&rt, sends(4, 0, 1), listens(0, 0)), 4); // CCAN_WIRE_UNHEARD
    same(&rt, kind(&rt, sends(4, 0, 1), listens(4, 0)), 5); // CCAN_WIRE_CARRIED
}

/// What the second member is to the frame of the first.
fn part(rt: &impl Abort, second: ShownMember) -> u8 {
    wire(rt, &[sends(4, 0, 1), second]).part[1]
}

#[test]
fn parts(rt: HostRuntime) {
    same(&rt, part(&rt, listens(4, 0)), 0); // CCAN_PART_LISTENER
    same(&rt, part(&rt, sends(4, 0, 1)), 1); // CCAN_PART_SENDER
    same(&rt, part(&rt, sends(3, 0, 2)), 2); // CCAN_PART_DROPPED
}

/// What is on the bus, to a chip that asks to send while another member is there.
fn sender(rt: &impl Abort, alloc: Global, other: ShownMember) -> ShownFinished {
    ended(rt, alloc, 0, true, other)
}

/// The same for one that doesn't.
fn hearer(rt: &impl Abort, alloc: Global, other: ShownMember) -> ShownFinished {
    ended(rt, alloc, 0, false, other)
}

/// The same for one that sends to itself.
fn looped(rt: &impl Abort, alloc: Global) -> ShownFinished {
    ended(rt, alloc, 0x10, true, nobody())
}

#[test]
fn events(rt: HostRuntime) {
    same(&rt, hearer(&rt, rt.alloc(), nobody()).event, 0); // CCAN_EVENT_NONE
    same(&rt, sender(&rt, rt.alloc(), listens(4, 0)).event, 1); // CCAN_EVENT_SENT
    same(&rt, hearer(&rt, rt.alloc(), sends(4, 0, 1)).event, 2); // CCAN_EVENT_RECEIVED
    same(&rt, looped(&rt, rt.alloc()).event, 3); // CCAN_EVENT_LOOPED
    same(&rt, sender(&rt, rt.alloc(), listens(4, 1)).event, 4); // CCAN_EVENT_ERROR
}

#[test]
fn countings(rt: HostRuntime) {
    same(&rt, hearer(&rt, rt.alloc(), nobody()).counts, 0); // CCAN_COUNTS_NOTHING
    same(&rt, sender(&rt, rt.alloc(), listens(4, 0)).counts, 1); // CCAN_COUNTS_SENT
    same(&rt, hearer(&rt, rt.alloc(), sends(4, 0, 1)).counts, 2); // CCAN_COUNTS_RECEIVED
    same(&rt, sender(&rt, rt.alloc(), listens(4, 1)).counts, 3); // CCAN_COUNTS_SEND_ERROR
    same(&rt, sender(&rt, rt.alloc(), nobody()).counts, 4); // CCAN_COUNTS_NO_ACK
    same(&rt, hearer(&rt, rt.alloc(), sends(4, 1, 1)).counts, 5); // CCAN_COUNTS_RECEIVE_ERROR
}

#[test]
fn sizes(rt: HostRuntime) {
    same(&rt, size_of::<HostHandle>(), 16); // sizeof(ccan_host)
    same(&rt, size_of::<BusHandle>(), 16); // sizeof(ccan_bus)
    same(&rt, size_of::<NoteHandle>(), 16); // sizeof(ccan_note)
    same(&rt, size_of::<Chip>(), 272); // sizeof(ccan_chip)
    same(&rt, size_of::<ShownRecord>(), 20); // sizeof(ccan_record)
    same(&rt, size_of::<ShownFinal>(), 1284); // sizeof(ccan_final)
    same(&rt, size_of::<ShownLoad>(), 44); // sizeof(ccan_loaded)
    same(&rt, size_of::<Offer>(), 16); // sizeof(ccan_offer)
    same(&rt, size_of::<ShownFrame>(), 16); // sizeof(ccan_frame)
    same(&rt, size_of::<ShownOutcome>(), 80); // sizeof(ccan_outcome)
    same(&rt, size_of::<SavedChip>(), 1672); // sizeof(ccan_saved)
    same(&rt, size_of::<ShownCounters>(), 12); // sizeof(ccan_counts)
    same(&rt, size_of::<ShownMember>(), 28); // sizeof(ccan_member)
    same(&rt, size_of::<ShownWire>(), 56); // sizeof(ccan_wire)
    same(&rt, size_of::<ShownFinished>(), 64); // sizeof(ccan_finished)
    same(&rt, size_of::<ShownNode>(), 12); // sizeof(ccan_node)
}

/// The laws do nothing: they are called so that each is seen to hold.
#[test]
fn calls_are_processes(_rt: HostRuntime) {
    laws::host_calls_are_processes();
    laws::bus_calls_are_processes();
    laws::frame_calls_are_processes();
    laws::resets_and_saves_are_processes();
    laws::threads_are_processes();
    laws::offers_are_one_line();
    laws::steps_are_the_whole();
    laws::ports_stand_throughout();
    laws::threads_stand_throughout();
    laws::acts_have_their_steps();
    laws::threads_stand_in_the_list(&ChipDevice { refuses: true });
    laws::calls_report_refusals();
}
