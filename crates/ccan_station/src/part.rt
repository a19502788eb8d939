//! What a chip is to the bus, as a member of it.

ghost use Rattle.std.specs.Prelude.{◌≡◌, Some};
ghost use Rattle.ccan_wire.specs.Member.{nobody};
ghost use Rattle.ccan_station.specs.Station.{ending, loaded_frame, may_send, member_now, role_now, sending_now};

use crate::loaded::Loaded;
use ccan_accept::{Frame, frame_of};
use ccan_chip::takes_part;
use ccan_confine::Controller;
use ccan_ram::Sending;
use ccan_wire::{Flaw, Member, Role};

/// What a controller does on the bus.
pub(crate) fn role_now(found: &Controller) -> Role
    ensures { result ≡ role_now found.now }
{
    if takes_part(found) {
        Role::of_controller(found)
    } else {
        Role::Absent
    }
}

/// Whether one of this role sends, onto the bus or to itself.
pub(crate) fn may_send(role: Role) -> bool
    ensures { result ≡ may_send role }
{
    match role {
        Role::Absent | Role::Silent => false,
        Role::Alone | Role::Passive | Role::Active | Role::Looped => true,
    }
}

/// How often a frame is tried that a controller starts: once if DAR is 1.
pub(crate) fn sending_now(found: &Controller) -> Sending
    ensures { result ≡ sending_now found.now }
{
    if found.control.dar {
        Sending::Once
    } else {
        Sending::UntilSent
    }
}

/// The frame that is loaded.
pub(crate) fn loaded_frame(loaded: &Option<Loaded>) -> Option<Frame>
    ensures { result ≡ loaded_frame loaded.now }
{
    match loaded {
        None => None,
        Some(loaded) => Some(frame_of(&loaded.started)),
    }
}

/// A member, as a station keeps it.
pub(crate) fn kept(member: &Member) -> Option<Member>
    ensures { result ≡ Some member.now }
{
    Some(*member)
}

fn nobody() -> Member
    ensures { result ≡ nobody }
{
    Member {
        role: Role::Absent,
        frame: None,
        flaw: None,
    }
}

/// The member that is under way, or nobody.
pub(crate) fn member_now(under_way: &Option<Member>) -> Member
    ensures { result ≡ member_now under_way.now }
{
    match under_way {
        None => nobody(),
        Some(member) => *member,
    }
}

/// The member that is under way, with the error that it finds by itself.
pub(crate) fn ending(under_way: &Option<Member>, flaw: Option<Flaw>) -> Member
    ensures { result ≡ ending under_way.now flaw }
{
    Member {
        flaw,
        ..member_now(under_way)
    }
}
