//! What is on a bus, from its members.
ghost use Rattle.std.specs.Prelude.{◌≡◌, ◌≢◌};
ghost use Rattle.ccan_c.specs.Codes.{done};
ghost use Rattle.ccan_c.specs.Deciding.{Decides, DecidesAgain};

use crate::code::{DONE, MEMBER_RANGE, MEMBERS_RANGE, WIRE_RANGE};
use crate::shown_member::{ShownMember, read_members};
use crate::shown_wire::ShownWire;
use ccan_wire::{decide, decide_again};

/// What is on the bus if these members take part. No chip has a part in it.
#[unsafe(no_mangle)]
pub extern "C" fn ccan_decide(members: &[ShownMember], out: &mut ShownWire) -> u32
    ensures decides { Decides members.now result out.new }
    ensures refused { result ≢ done → out.new ≡ out.old }
{
    if members.len() > 32 {
        return MEMBERS_RANGE;
    }
    let Some(all) = read_members(members) else {
        return MEMBER_RANGE;
    };
    *out = ShownWire::of(&decide(&all[..members.len()]));
    DONE
}

/// What is on the bus at the end of a frame, if `start` was decided at its start.
#[unsafe(no_mangle)]
pub extern "C" fn ccan_decide_again(
    start: &ShownWire,
    members: &[ShownMember],
    out: &mut ShownWire,
) -> u32
    ensures decides { DecidesAgain start.now members.now result out.new }
    ensures refused { result ≢ done → out.new ≡ out.old }
{
    let Some(start) = start.read() else {
        return WIRE_RANGE;
    };
    if members.len() > 32 {
        return MEMBERS_RANGE;
    }
    let Some(all) = read_members(members) else {
        return MEMBER_RANGE;
    };
    *out = ShownWire::of(&decide_again(&start, &all[..members.len()]));
    DONE
}
