ghost use Rattle.std.specs.Prelude.{ℕ, ◌≡◌, ◌≢◌, ◌<◌, ◌≤◌, ◌&&◌, ◌==◌, nat_lt, not, true, Bool, IfSome, IfNone, Some, length};
ghost use Rattle.ccan_wire.specs.Member.{member_at, sent_by};
ghost use Rattle.ccan_wire.specs.Packed.{Agrees, Dissents, IsLeast, IsLeastAmong, key_of, rest_by};
ghost use Rattle.ccan_wire.specs.Winner.{is_among};

use crate::member::{MOST_MEMBERS, Member, Places};
use crate::winner::Winner;
use ccan_accept::Frame;

/// What is settled when a frame starts, by the frames of all members who start one at once.
#[derive(Clone, Copy, Debug, PartialEq, Eq, Hash)]
pub enum Start {
    /// Nobody sends.
    Nothing,
    /// No frame goes on. These members send frames that are equal in the bits of arbitration, and no other frame
    /// precedes them. One of them sees a bit error after the arbitration and is error active, so that its error flag ends all
    /// these frames; or a member in loop back mode sends another frame over them.
    Collision(Places),
    /// This frame won the bus.
    Won(Winner),
}

/// The place of a member with the least number.
fn least_place(members: &[Member]) -> usize
    requires { 0 < length members.now }
    ensures { IsLeast (λ k. key_of (member_at members.now k)) (length members.now) result }
{
    let mut least = 0;
    for place in 1..members.len() {
        if members[place].key() < members[least].key() {
            least = place;
        }
    }
    least
}

/// The members that contend by this number.
fn holders(members: &[Member], number: u64) -> Places
    requires { length members.now ≤ MOST_MEMBERS }
    ensures { (k : ℕ) → is_among result k
        ≡ (nat_lt k (length members.now) && key_of (member_at members.now k) == number) }
{
    let mut who = [false; MOST_MEMBERS];
    for place in 0..members.len() {
        who[place] = members[place].key() == number;
    }
    who
}

/// The place of one among these members that sends dominant bits where the others first differ from it.
fn least_rest(members: &[Member], who: &Places, first: usize) -> usize
    requires length { length members.now ≤ MOST_MEMBERS }
    requires first { first < length members.now }
    requires among { is_among who.now first ≡ true }
    ensures within { result < length members.now }
    ensures least { IsLeastAmong (λ k. rest_by (member_at members.now k)) who.now
        (length members.now) result }
{
    let mut least = first;
    for place in 0..members.len() {
        if who[place] && members[place].rest() < members[least].rest() {
            least = place;
        }
    }
    least
}

/// Those among these members that send what is this number after the arbitration.
fn with_rest(members: &[Member], who: &Places, number: u128) -> Places
    requires { length members.now ≤ MOST_MEMBERS }
    ensures { (k : ℕ) → is_among result k
        ≡ (nat_lt k (length members.now) && (is_among who.now k && rest_by (member_at members.now k) == number)) }
{
    let mut those = [false; MOST_MEMBERS];
    for place in 0..members.len() {
        those[place] = who[place] && members[place].rest() == number;
    }
    those
}

/// These members, except those.
fn except(who: &Places, those: &Places) -> Places
    ensures { (k : ℕ) → is_among result k ≡ (is_among who.now k && not (is_among those.now k)) }
{
    let mut others = [false; MOST_MEMBERS];
    for place in 0..MOST_MEMBERS {
        others[place] = who[place] && !those[place];
    }
    others
}

/// A member that does not let the frame go on, if these have the same bits of arbitration.
fn dissenter(members: &[Member], who: &Places, frame: &Frame) -> Option<usize>
    requires { length members.now ≤ MOST_MEMBERS }
    ensures some { IfSome result
        (λ k. Dissents (is_among who.now k) (member_at members.now k) frame.now) }
    ensures none { IfNone result ((k : ℕ) → k < length members.now
        → Agrees (is_among who.now k) (member_at members.now k) frame.now) }
{
    for place in 0..members.len() {
        if !members[place].agrees(frame, who[place]) {
            return Some(place);
        }
    }
    None
}

impl Start {
    ghost use Rattle.ccan_wire.specs.Start.{Starts};

    /// What is settled if these members take part, up to 32 of them.
    pub fn of(members: &[Member]) -> Start
        requires { length members.now ≤ MOST_MEMBERS }
        ensures { Starts (member_at members.now) result }
    {
        if members.is_empty() {
            return Start::Nothing;
        }
        let least = least_place(members);
        let Some(_) = members[least].sent() else {
            return Start::Nothing;
        };
        let who = holders(members, members[least].key());
        let first = least_rest(members, &who, least);
        let Some(frame) = members[first].sent() else {
            unreachable!()
        };
        match dissenter(members, &who, &frame) {
            Some(_) => Start::Collision(who),
            None => {
                let senders = with_rest(members, &who, members[first].rest());
                let dropped = except(&who, &senders);
                Start::Won(Winner {
                    frame,
                    senders,
                    dropped,
                })
            }
        }
    }
}
