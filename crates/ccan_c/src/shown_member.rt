//! Members of a bus as C writes them.
ghost use Rattle.std.specs.Prelude.{◌≡◌, ◌≤◌, IfErr, IfOk, MatchOption, false, length, map, take, true};
ghost use Rattle.std.specs.List.{list_all};
ghost use Rattle.ccan_c.specs.Host.{number_of};
ghost use Rattle.ccan_c.specs.Wire.{c_member, flaw_in, flaw_number, is_member, is_offer, is_switched};
ghost use Rattle.ccan_c.specs.Wire.{member_in, most_members, offered, role_in, role_number};

use crate::shown_frame::ShownFrame;
use ccan_accept::Frame;
use ccan_wire::{Flaw, MOST_MEMBERS, Member, Role};

/// A member of a bus while one frame is sent.
#[repr(C)]
#[derive(Clone, Copy, PartialEq, Eq, Debug)]
pub struct ShownMember {
    /// What it does on the bus: 0 absent, 1 silent, 2 alone, 3 passive, 4 active, 5 looped.
    pub role: u32,
    /// The error that it finds by itself: 0 none, 1 stuff, 2 form, 3 bit 1, 4 bit 0, 5 CRC.
    pub fault: u32,
    /// Whether it starts to send a frame: 0 is no, each other number is yes.
    pub sends: u32,
    /// That frame. It doesn't count if none is sent.
    pub frame: ShownFrame,
}

/// The members of a bus, at their positions.
pub(crate) type Members = [Member; MOST_MEMBERS];

fn nobody() -> Member {
    Member {
        role: Role::Absent,
        frame: None,
        flaw: None,
    }
}

fn role_number(role: Role) -> u32
    ensures { result ≡ role_number role }
{
    match role {
        Role::Absent => 0,
        Role::Silent => 1,
        Role::Alone => 2,
        Role::Passive => 3,
        Role::Active => 4,
        Role::Looped => 5,
    }
}

fn role_in(number: u32) -> Role
    ensures { result ≡ role_in number }
{
    match number {
        1 => Role::Silent,
        2 => Role::Alone,
        3 => Role::Passive,
        4 => Role::Active,
        5 => Role::Looped,
        _ => Role::Absent,
    }
}

fn flaw_number(flaw: Option<Flaw>) -> u32
    ensures { result ≡ flaw_number flaw }
{
    match flaw {
        None => 0,
        Some(Flaw::Stuff) => 1,
        Some(Flaw::Form) => 2,
        Some(Flaw::Bit1) => 3,
        Some(Flaw::Bit0) => 4,
        Some(Flaw::Crc) => 5,
    }
}

/// The error of this number, by the numbers that faults have. None: there is none.
pub(crate) fn flaw_in(number: u32) -> Option<Flaw>
    ensures { result ≡ flaw_in number }
{
    match number {
        1 => Some(Flaw::Stuff),
        2 => Some(Flaw::Form),
        3 => Some(Flaw::Bit1),
        4 => Some(Flaw::Bit0),
        5 => Some(Flaw::Crc),
        _ => None,
    }
}

fn sends_number(frame: &Option<Frame>) -> u32
    ensures { result ≡ number_of (is_switched frame.now) }
{
    match frame {
        None => 0,
        Some(_) => 1,
    }
}

impl ShownMember {
    /// A member as C sees it.
    pub(crate) fn of(member: &Member) -> ShownMember
        ensures { result ≡ c_member member.now }
    {
        ShownMember {
            role: role_number(member.role),
            fault: flaw_number(member.flaw),
            sends: sends_number(&member.frame),
            frame: ShownFrame::of_option(&member.frame),
        }
    }

    /// What it starts to send. `Err` if that is not a frame.
    pub(crate) fn offered(&self) -> Result<Option<Frame>, ()>
        ensures offers { IfOk result
            (λ frame. (is_offer self.now ≡ true) × (frame ≡ offered self.now)) }
        ensures none { IfErr result (λ why. is_offer self.now ≡ false) }
    {
        if self.sends == 0 {
            return Ok(None);
        }
        match self.frame.read() {
            Some(frame) => Ok(Some(frame)),
            None => Err(()),
        }
    }

    /// The member. None if a number of it is out of its range.
    pub(crate) fn read(&self) -> Option<Member>
        ensures { MatchOption result (is_member self.now ≡ false)
            (λ member. (is_member self.now ≡ true) × (member ≡ member_in self.now)) }
    {
        if self.role > 5 || self.fault > 5 {
            return None;
        }
        match self.offered() {
            Ok(frame) => Some(Member {
                role: role_in(self.role),
                frame,
                flaw: flaw_in(self.fault),
            }),
            Err(()) => None,
        }
    }
}

/// The members of a bus, the given ones first. None if a number of one is out of its range.
pub(crate) fn read_members(shown: &[ShownMember]) -> Option<Members>
    requires { length shown.now ≤ most_members }
    ensures { MatchOption result (list_all is_member shown.now ≡ false)
        (λ members. (list_all is_member shown.now ≡ true)
        × (take (length shown.now) members ≡ map member_in shown.now)) }
{
    let mut members = [nobody(); MOST_MEMBERS];
    for place in 0..shown.len() {
        match shown[place].read() {
            Some(member) => members[place] = member,
            None => return None,
        }
    }
    Some(members)
}
