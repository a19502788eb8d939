//! Worked examples of objects: their records, the registers that show them, and transfers.

use crate::expect::{BYTES, MESSAGE, holds, registers, same, shown};
use ccan_object::{
    CommandMask, DataLength, Group, Identifier, Iface, MOST_OBJECTS, ObjectNo, Profile, Record,
    Reg, cleared, laws, merged, pack, unpack,
};

/// Makes the transfer that the Command Mask register says.
fn transfer(registers: &mut Iface, object: &mut Record) {
    let command = registers.command();
    let before = *object;
    if command.is_write() {
        *object = merged(command, &registers.buffer(), &before);
        registers.fill(command, object);
    } else {
        *object = cleared(command, &before);
        registers.fill(command, &before);
    }
}

#[test]
fn packs_the_first_message(rt: HostRuntime) {
    let object = registers(&MESSAGE, &[(Reg::Ctrl, 0x0088)]).buffer();
    same(&rt, object.id, Identifier::of(0x123 << 18));
    holds(
        &rt,
        object.valid && object.dir && object.eob && !object.xtd && !object.txrqst,
    );
    same(&rt, object.dlc, DataLength::of(8));
    same(&rt, shown(&object), (0xa48c0000, 0, 0x0088, BYTES));
    let words = [0x00000000a48c0000, 0x0000000000000088, 0x8877665544332211];
    same(&rt, pack(&object), words);
    same(&rt, unpack(words), Some(object));
    same(&rt, pack(&Record::zero()), [0; 3]);
    same(&rt, Record::default(), Record::zero());
    // bits that no field has
    for words in [
        [0, 0x10, 0],
        [1 << 61, 0, 0],
        [0, 0x40, 0],
        [0, 1 << 16, 0],
        [0, 1 << 63, 0],
    ] {
        same(&rt, (words, unpack(words)), (words, None));
    }
}

#[test]
fn names_the_requested_object(rt: HostRuntime) {
    for (request, first, second) in [
        (0x0000, 32, 64),
        (0x0001, 1, 1),
        (0x0020, 32, 32),
        (0x0021, 1, 33),
        (0x003f, 31, 63),
        (0x0040, 32, 64),
        (0xffff, 31, 63),
    ] {
        let one = ObjectNo::from_request(Profile::One, request);
        let two = ObjectNo::from_request(Profile::Two, request);
        same(
            &rt,
            (request, one.get(), two.get()),
            (request, first, second),
        );
        holds(&rt, Profile::One.holds(one) && Profile::Two.holds(two));
        same(&rt, Profile::One.holds(two), second <= 32);
    }
    for (number, is_known) in [(0, false), (1, true), (64, true), (65, false)] {
        let known = ObjectNo::new(number).is_some();
        same(&rt, (number, known), (number, is_known));
    }
    same(&rt, Profile::default(), Profile::One);
    for (profile, objects) in [(Profile::One, 32), (Profile::Two, 64)] {
        same(
            &rt,
            (profile.objects(), profile.last().get()),
            (objects, objects),
        );
    }
    same(&rt, MOST_OBJECTS, 64);
}

#[test]
fn reads_the_flags_before_it_clears_them(rt: HostRuntime) {
    for (command, answer, after) in [
        (0x007f, 0xa488, 0x0488),
        (0x0018, 0xa488, 0x8488),
        (0x0014, 0xa488, 0x2488),
        (0x0073, 0xa488, 0xa488),
        (0x0008, 0x0000, 0x8488),
    ] {
        let mut object = registers(&[(Reg::Ctrl, 0xa488)], &[]).buffer();
        let mut registers = registers(&[(Reg::CMask, command)], &[]);
        transfer(&mut registers, &mut object);
        same(
            &rt,
            (command, registers.get(Reg::Ctrl), object.control()),
            (command, answer, after),
        );
    }
}

#[test]
fn writes_the_selected_group_alone(rt: HostRuntime) {
    let ones = [
        (Reg::Mask1, 0xffff),
        (Reg::Mask2, 0xffff),
        (Reg::Arb1, 0xffff),
        (Reg::Arb2, 0xffff),
        (Reg::Ctrl, 0xffff),
        (Reg::DataA1, 0xffff),
        (Reg::DataA2, 0xffff),
        (Reg::DataB1, 0xffff),
        (Reg::DataB2, 0xffff),
    ];
    for (command, wanted) in [
        (0x0080, (0, 0, 0, [0; 8])),
        (0x00c0, (0, 0xdfffffff, 0, [0; 8])),
        (0x00a0, (0xffffffff, 0, 0, [0; 8])),
        (0x0090, (0, 0, 0xff8f, [0; 8])),
        (0x0084, (0, 0, 0x0100, [0; 8])),
        (0x0082, (0, 0, 0, [255, 255, 255, 255, 0, 0, 0, 0])),
        (0x0081, (0, 0, 0, [0, 0, 0, 0, 255, 255, 255, 255])),
    ] {
        let mut registers = registers(&ones, &[(Reg::CMask, command)]);
        let mut object = Record::zero();
        transfer(&mut registers, &mut object);
        same(
            &rt,
            (command, shown(&object), shown(&registers.buffer())),
            (command, wanted, wanted),
        );
    }
}

#[test]
fn commands_say_what_they_move(rt: HostRuntime) {
    for (register, kind) in [
        (0x00f3, (true, false)),
        (0x0080, (true, false)),
        (0x0073, (false, true)),
        (0xff73, (false, true)),
        (0x0000, (false, true)),
        (0x0004, (false, false)),
        (0x0008, (false, false)),
    ] {
        let command = CommandMask::of(register);
        let got = (command.is_write(), command.is_pure_read());
        same(&rt, (register, got), (register, kind));
    }
    let data = CommandMask::of(0x0087);
    for (group, is_selected) in [
        (Group::DataA, true),
        (Group::DataB, true),
        (Group::Mask, false),
        (Group::Arb, false),
        (Group::Control, false),
    ] {
        same(&rt, (group, data.selects(group)), (group, is_selected));
    }
    let others = (data.has_txrqst_newdat(), data.clears_intpnd());
    same(&rt, others, (true, false));
}

#[test]
fn registers_drop_their_reserved_bits(rt: HostRuntime) {
    same(&rt, Iface::default(), Iface::new());
    let mut registers = Iface::new();
    for (register, shows) in [
        (Reg::CMask, 0x00ff),
        (Reg::Mask1, 0xffff),
        (Reg::Mask2, 0xdfff),
        (Reg::Arb1, 0xffff),
        (Reg::Arb2, 0xffff),
        (Reg::Ctrl, 0xff8f),
        (Reg::DataA1, 0xffff),
        (Reg::DataA2, 0xffff),
        (Reg::DataB1, 0xffff),
        (Reg::DataB2, 0xffff),
    ] {
        same(&rt, (register, registers.get(register)), (register, 0));
        registers.set(register, 0xffff);
        same(&rt, (register, registers.get(register)), (register, shows));
    }
}

#[test]
fn identifiers_and_lengths_have_ranges(rt: HostRuntime) {
    let identifier = Identifier::of(0x1234_5678);
    same(&rt, identifier.with_low_half(0xabcd).get(), 0x1234_abcd);
    same(&rt, identifier.with_high_half(0xffff).get(), 0x1fff_5678);
    let greatest = Identifier::of(u32::MAX);
    same(&rt, Identifier::new(0x1fff_ffff), Some(greatest));
    same(&rt, Identifier::new(1 << 29), None);
    for (code, count) in [(0, 0), (1, 1), (7, 7), (8, 8), (9, 8), (15, 8)] {
        let length = DataLength::of(code);
        same(&rt, (code, length.byte_count()), (code, count));
    }
    let greatest = DataLength::of(0x123f);
    same(
        &rt,
        (greatest.get(), DataLength::new(15)),
        (15, Some(greatest)),
    );
    same(&rt, DataLength::new(16), None);
    let defaults = (Identifier::default(), DataLength::default());
    same(&rt, defaults, (Identifier::zero(), DataLength::zero()));
}

#[test]
fn laws_hold(_rt: HostRuntime) {
    laws::writes_go_by_groups();
    laws::reads_go_by_groups();
    laws::reads_before_clearing();
    laws::registers_read_back();
    laws::round_trips();
}
