//! The table of the members that the lines of a script and the frames in them have, in the order in which they are checked:
//! one row for each operation. The readers of lines go by it, and so does whoever says where a line is at fault.

ghost use Rattle.std.specs.Prelude.{◌≡◌};
ghost use Rattle.ccan_script.specs.Member.{name_of, kind_of, is_needed, is_set, range_in, text_of};
ghost use Rattle.ccan_script.specs.Member.{host_row, bus_row, frame_row, frame_numbers};

use crate::bus_op::BusOp;
use crate::host_op::HostOp;
use crate::member_name::MemberName;
use ccan_line::{MAX_GROUPS, MAX_TURNS};

/// The range of a number.
#[derive(Clone, Copy, PartialEq, Eq, Debug)]
pub enum Range {
    /// From the first number to the second.
    Between(u64, u64),
    /// An object of the profile.
    Object,
    /// A node that sends, 1 to `nodes`.
    Sender,
    /// A node, or the controller: 0 to `nodes`.
    Node,
    /// The identifier of a frame.
    Identifier,
}

/// What a member's value is.
#[derive(Clone, Copy, PartialEq, Eq, Debug)]
pub enum Kind {
    /// The operation, which was known before its members were looked up.
    Operation,
    /// A text of four hexadecimal digits.
    Digits,
    /// Registers with texts of four digits.
    Registers,
    /// The name of a flag.
    Flag,
    /// The name of a fault.
    FaultName,
    /// The frames of a round.
    Frames,
    /// The data of a frame.
    Data,
    /// A whole number.
    Number(Range),
}

impl Kind {
    /// Whether it is registers with their texts.
    pub fn is_set(self) -> bool
        ensures { result ≡ is_set self }
    {
        matches!(self, Kind::Registers)
    }

    /// The range of a number, `None` for another kind.
    pub fn range(self) -> Option<Range>
        ensures { result ≡ range_in self }
    {
        match self {
            Kind::Number(range) => Some(range),
            Kind::Operation
            | Kind::Digits
            | Kind::Registers
            | Kind::Flag
            | Kind::FaultName
            | Kind::Frames
            | Kind::Data => None,
        }
    }
}

/// A member that a line has: one that each such line has, or one that may be left out.
#[derive(Clone, Copy, PartialEq, Eq, Debug)]
pub enum Member {
    Needed(MemberName, Kind),
    Optional(MemberName, Kind),
}

impl Member {
    /// Its name.
    pub fn name(&self) -> MemberName
        ensures { result ≡ name_of self.now }
    {
        match self {
            Member::Needed(name, _) | Member::Optional(name, _) => *name,
        }
    }

    /// What its value is.
    pub fn kind(&self) -> Kind
        ensures { result ≡ kind_of self.now }
    {
        match self {
            Member::Needed(_, kind) | Member::Optional(_, kind) => *kind,
        }
    }

    /// Its name as a script has it.
    pub fn text(&self) -> &'static str
        ensures { result.now ≡ text_of self.now }
    {
        self.name().text()
    }

    /// Whether each such line has it.
    pub fn is_needed(&self) -> bool
        ensures { result ≡ is_needed self.now }
    {
        matches!(self, Member::Needed(..))
    }
}

const OPERATION: Member = Member::Needed(MemberName::Op, Kind::Operation);

const FLAG: Member = Member::Needed(MemberName::Flag, Kind::Flag);

const SWITCH: Kind = Kind::Number(Range::Between(0, 1));

const TRANSFER: [Member; 3] = [
    OPERATION,
    Member::Needed(MemberName::Request, Kind::Digits),
    Member::Optional(MemberName::Set, Kind::Registers),
];

const UNTIL: [Member; 4] = [
    OPERATION,
    Member::Needed(MemberName::Object, Kind::Number(Range::Object)),
    FLAG,
    Member::Needed(
        MemberName::Turns,
        Kind::Number(Range::Between(1, MAX_TURNS)),
    ),
];

const ROUND: [Member; 3] = [
    OPERATION,
    Member::Optional(MemberName::Fault, Kind::FaultName),
    Member::Optional(MemberName::Send, Kind::Frames),
];

const CONTROL: [Member; 3] = [
    OPERATION,
    Member::Needed(MemberName::Sie, SWITCH),
    Member::Needed(MemberName::Eie, SWITCH),
];

const COUNTERS: [Member; 2] = [
    OPERATION,
    Member::Needed(MemberName::Node, Kind::Number(Range::Node)),
];

const RECESSIVE: [Member; 2] = [
    OPERATION,
    Member::Needed(
        MemberName::Groups,
        Kind::Number(Range::Between(1, MAX_GROUPS)),
    ),
];

const SENDER: Member = Member::Needed(MemberName::Node, Kind::Number(Range::Sender));

const IDENTIFIER: Member = Member::Needed(MemberName::Id, Kind::Number(Range::Identifier));

const XTD: Member = Member::Optional(MemberName::Xtd, SWITCH);

const RTR: Member = Member::Optional(MemberName::Rtr, SWITCH);

const DLC: Member = Member::Optional(MemberName::Dlc, Kind::Number(Range::Between(0, 15)));

/// The members of a frame, in the order in which their shapes are checked.
pub fn frame_row() -> &'static [Member]
    ensures { result.now ≡ frame_row }
{
    &[
        SENDER,
        IDENTIFIER,
        XTD,
        RTR,
        DLC,
        Member::Optional(MemberName::Data, Kind::Data),
    ]
}

/// The numbers of a frame, in the order in which their ranges are checked: Xtd before the identifier, whose range it gives.
pub fn frame_numbers() -> &'static [Member]
    ensures { result.now ≡ frame_numbers }
{
    &[SENDER, XTD, RTR, IDENTIFIER, DLC]
}

/// The members of a line of a host.
pub fn host_row(op: HostOp) -> &'static [Member]
    ensures { result.now ≡ host_row op }
{
    match op {
        HostOp::Transfer => &TRANSFER,
        HostOp::Until => &UNTIL,
        HostOp::Interrupt => &[OPERATION],
        HostOp::Flags => &[OPERATION, FLAG],
    }
}

/// The members of a line of the bus.
pub fn bus_row(op: BusOp) -> &'static [Member]
    ensures { result.now ≡ bus_row op }
{
    match op {
        BusOp::Load | BusOp::Status | BusOp::Interrupt | BusOp::Init => &[OPERATION],
        BusOp::Round => &ROUND,
        BusOp::Control => &CONTROL,
        BusOp::Flags => &[OPERATION, FLAG],
        BusOp::Counters => &COUNTERS,
        BusOp::Recessive => &RECESSIVE,
        BusOp::LoopBack => &[OPERATION, Member::Needed(MemberName::On, SWITCH)],
    }
}
