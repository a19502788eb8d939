//! What is on the bus, decided by its members.

ghost use Rattle.std.specs.Prelude.{◌≤◌, length};
ghost use Rattle.ccan_wire.specs.Member.{member_at};
ghost use Rattle.ccan_wire.specs.Wire.{Carries, Continues};

use crate::member::{MOST_MEMBERS, Member};
use crate::start::Start;
use crate::wire::Wire;

/// What is on the bus if these members take part, up to 32 of them.
pub fn decide(members: &[Member]) -> Wire
    requires { length members.now ≤ MOST_MEMBERS }
    ensures { Carries (member_at members.now) result }
{
    Start::of(members).end(members)
}

/// What is on the bus at the end of a frame, if `start` was decided at its start. The members, up to 32 of them, are given as
/// they are until its end, at the places that they had at its start. Who won has won, and a collision stays one: the members'
/// frames no longer count. One that has left the bus since the start is absent, even if it is back; it joins with the next start.
pub fn decide_again(start: &Wire, members: &[Member]) -> Wire
    requires { length members.now ≤ MOST_MEMBERS }
    ensures { Continues start.now (member_at members.now) result }
{
    start.start().end(members)
}
