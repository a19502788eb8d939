//! The table of the members of lines: a few rows, as the formats of scripts list them.
use crate::expect::{holds, same};
use ccan_script::bus_op::BusOp;
use ccan_script::host_op::HostOp;
use ccan_script::member::{Kind, Member, Range, bus_row, frame_numbers, frame_row, host_row};
use ccan_script::member_name::MemberName;
use ccan_script::script_number::ScriptNumber;
use std::process::Abort;

#[test]
fn rows_have_as_many_members_as_the_formats(rt: HostRuntime) {
    same(&rt, host_row(HostOp::Transfer).len(), 3);
    same(&rt, host_row(HostOp::Until).len(), 4);
    same(&rt, bus_row(BusOp::Init).len(), 1);
    same(&rt, bus_row(BusOp::Control).len(), 3);
    same(&rt, frame_row().len(), 6);
    same(&rt, frame_numbers().len(), 5);
}

#[test]
fn an_operation_has_its_name(rt: HostRuntime) {
    same(&rt, HostOp::Until.name(), "until");
    same(&rt, BusOp::LoopBack.name(), "loopback");
}

#[test]
fn a_member_has_its_name_and_its_range(rt: HostRuntime) {
    let groups = Member::Needed(MemberName::Groups, Kind::Number(Range::Between(1, 10000)));
    holds(&rt, groups.is_needed());
    same(&rt, groups.name(), MemberName::Groups);
    same(&rt, groups.text(), "groups");
    same(&rt, groups.kind().range(), Some(Range::Between(1, 10000)));
    holds(&rt, !groups.kind().is_set());
}

#[test]
fn a_script_has_up_to_a_thousand_tries(rt: HostRuntime) {
    let row = ScriptNumber::Tries.row();
    same(&rt, (row.least, row.greatest, row.default), (1, 1000, 100));
}
