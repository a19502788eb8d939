//! Nodes without a chip.
ghost use Rattle.std.specs.Prelude.{◌≡◌, ◌≢◌, MatchOption, false, true};
ghost use Rattle.ccan_c.specs.Codes.{done};
ghost use Rattle.ccan_c.specs.Node.{NodeBegins, NodeFinishes, NodeHears, c_node, is_node, plain_in};

use crate::code::{
    COUNTERS_RANGE, DONE, FRAME_RANGE, GROUPS_RANGE, MEMBER_RANGE, PLACE_RANGE, WIRE_RANGE,
};
use crate::shown_finished::event_number;
use crate::shown_frame::ShownFrame;
use crate::shown_member::ShownMember;
use crate::shown_wire::ShownWire;
use ccan_confine::Counters;
use ccan_station::Plain;

/// A node without a chip: its error counters are all that it has.
#[repr(C)]
#[derive(Clone, Copy, PartialEq, Eq, Debug)]
pub struct ShownNode {
    /// The transmit error counter, 0 to 263; from 256 on the node is bus off.
    pub tec: u32,
    /// The receive error counter, 0 to 255.
    pub rec: u32,
    /// The groups of recessive bits that count so far on its way back from bus off, 0 to 127; else 0.
    pub groups: u32,
}

impl ShownNode {
    /// A node as C sees it.
    fn of(counters: &Counters) -> ShownNode
        ensures { result ≡ c_node counters.now }
    {
        ShownNode {
            tec: u32::from(counters.tec()),
            rec: u32::from(counters.rec()),
            groups: u32::from(counters.groups()),
        }
    }

    /// The node. None if a counter of it is out of its range.
    fn read(&self) -> Option<Plain>
        ensures { MatchOption result (is_node self.now ≡ false)
            (λ plain. (is_node self.now ≡ true) × (plain ≡ plain_in self.now)) }
    {
        if self.tec > 263 || self.rec > 255 || self.groups > 127 {
            return None;
        }
        match Counters::of_node(self.tec as u16, self.rec as u8, self.groups as u8) {
            Some(counters) => Some(Plain { counters }),
            None => None,
        }
    }
}

/// The start of a frame, for a node that offers this frame if `sends` is not 0: what the node is to the bus.
#[unsafe(no_mangle)]
pub extern "C" fn ccan_node_begin(
    node: &ShownNode,
    sends: u32,
    frame: &ShownFrame,
    out: &mut ShownMember,
) -> u32
    ensures begins { NodeBegins node.now sends frame.now result out.new }
    ensures refused { result ≢ done → out.new ≡ out.old }
{
    let Some(plain) = node.read() else {
        return COUNTERS_RANGE;
    };
    let offer = ShownMember {
        role: 0,
        fault: 0,
        sends,
        frame: *frame,
    };
    match offer.offered() {
        Ok(offered) => {
            *out = ShownMember::of(&plain.member(offered, None));
            DONE
        }
        Err(()) => FRAME_RANGE,
    }
}

/// The end of a frame, for the node that is this member at this position.
#[unsafe(no_mangle)]
pub extern "C" fn ccan_node_finish(
    node: &mut ShownNode,
    wire: &ShownWire,
    place: u32,
    member: &ShownMember,
    event: &mut u32,
) -> u32
    ensures finishes { NodeFinishes node.old wire.now place member.now result node.new event.new }
    ensures refused { result ≢ done → node.new ≡ node.old }
    ensures kept { result ≢ done → event.new ≡ event.old }
{
    let Some(mut plain) = node.read() else {
        return COUNTERS_RANGE;
    };
    let Some(wire) = wire.read() else {
        return WIRE_RANGE;
    };
    if place >= 32 {
        return PLACE_RANGE;
    }
    let Some(member) = member.read() else {
        return MEMBER_RANGE;
    };
    *event = event_number(&wire.event(place as usize, &member));
    plain.end(&wire, place as usize, &member);
    *node = ShownNode::of(&plain.counters);
    DONE
}

/// Groups of eleven recessive bits pass. They count for a node that is bus off.
#[unsafe(no_mangle)]
pub extern "C" fn ccan_node_recessive(node: &mut ShownNode, groups: u32) -> u32
    ensures hears { NodeHears node.old groups result node.new }
    ensures refused { result ≢ done → node.new ≡ node.old }
{
    let Some(plain) = node.read() else {
        return COUNTERS_RANGE;
    };
    if groups == 0 || groups > 10_000 {
        return GROUPS_RANGE;
    }
    *node = ShownNode::of(&plain.counters.recessive_groups(groups as u16));
    DONE
}
