//! How a frame that won the bus ends.

ghost use Rattle.std.specs.Prelude.{◌≡◌, ◌≤◌, true, false, length};
ghost use Rattle.ccan_wire.specs.Member.{member_at};
ghost use Rattle.ccan_wire.specs.Sign.{shows};
ghost use Rattle.ccan_wire.specs.Wire.{Ends, IsBroken, IsWhole, Nobody, Someone, start_of};

use crate::member::{MOST_MEMBERS, Member};
use crate::sign::Sign;
use crate::start::Start;
use crate::winner::Winner;
use crate::wire::Wire;

/// Whether some member shows this sign.
fn someone(members: &[Member], winner: &Winner, sign: Sign) -> bool
    requires { length members.now ≤ MOST_MEMBERS }
    ensures yes { result ≡ true → Someone (shows sign) (member_at members.now) winner.now }
    ensures no { result ≡ false → Nobody (shows sign) (member_at members.now) winner.now }
{
    for place in 0..members.len() {
        if members[place].shows(sign, winner.part(place)) {
            return true;
        }
    }
    false
}

/// Whether the frame ends before the end of its check sequence.
fn is_broken(members: &[Member], winner: &Winner) -> bool
    requires { length members.now ≤ MOST_MEMBERS }
    ensures yes { result ≡ true → IsBroken (member_at members.now) winner.now }
    ensures no { result ≡ false → IsWhole (member_at members.now) winner.now }
{
    if someone(members, winner, Sign::Breaks) {
        return true;
    }
    !someone(members, winner, Sign::GoesOn)
}

/// The end of a frame that goes on to the end of its check sequence.
fn end_of_whole(members: &[Member], winner: &Winner) -> Wire
    requires length { length members.now ≤ MOST_MEMBERS }
    requires whole { IsWhole (member_at members.now) winner.now }
    ensures settled { start_of result ≡ Start.Won winner.now }
    ensures ends { Ends (member_at members.now) result }
{
    if someone(members, winner, Sign::Covers) {
        return Wire::Flagged(*winner);
    }
    if !someone(members, winner, Sign::Acknowledges) {
        return Wire::Unheard(*winner, someone(members, winner, Sign::Protests));
    }
    if someone(members, winner, Sign::Flags) {
        Wire::Flagged(*winner)
    } else {
        Wire::Carried(*winner)
    }
}

impl Start {
    /// How the frame ends, as these members are until then: up to 32, at the places that they had at its start. One that has left
    /// the bus since then is absent.
    pub fn end(&self, members: &[Member]) -> Wire
        requires { length members.now ≤ MOST_MEMBERS }
        ensures settled { start_of result ≡ self.now }
        ensures ends { Ends (member_at members.now) result }
    {
        match self {
            Start::Nothing => Wire::Idle,
            Start::Collision(who) => Wire::Collided(*who),
            Start::Won(winner) => {
                if is_broken(members, winner) {
                    Wire::Broken(*winner)
                } else {
                    end_of_whole(members, winner)
                }
            }
        }
    }
}
