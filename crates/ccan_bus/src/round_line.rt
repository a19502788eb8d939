ghost use Rattle.std.specs.Prelude.{◌≡◌, ◌≤◌, ◌↔◌, true, false, All, IsTrue, IsSome, IfSome, length};
ghost use Rattle.ccan_bus.specs.Nodes.{sends_at};
ghost use Rattle.ccan_bus.specs.RoundLine.{code_of, AreSenders};

use arrayvec::ArrayVec;
use ccan_accept::Frame;

/// What spoils the frame that wins a round (CAN Specification 2.0, "Error Detection").
#[derive(Clone, Copy, PartialEq, Eq, Debug)]
pub enum Fault {
    /// Nothing.
    Quiet,
    /// There were six equal bits in a row.
    Stuff,
    /// A field of fixed form had a wrong bit.
    Form,
    /// A recessive bit was sent, and a dominant one was seen.
    Bit1,
    /// A dominant bit was sent, and a recessive one was seen.
    Bit0,
    /// The check sequence did not fit.
    Crc,
}

impl Fault {
    /// The last error code that it leaves.
    pub(crate) fn code(self) -> Option<u8>
        ensures value { result ≡ code_of self }
        ensures within { IfSome result (λ code. (1 ≤ code) × (code ≤ 6)) }
    {
        match self {
            Fault::Quiet => None,
            Fault::Stuff => Some(1),
            Fault::Form => Some(2),
            Fault::Bit1 => Some(4),
            Fault::Bit0 => Some(5),
            Fault::Crc => Some(6),
        }
    }
}

impl Default for Fault {
    ghost use Rattle.ccan_bus.specs.declared.round_line.Fault.{Fault};

    ghost is_default = { λ fault. fault ≡ Fault.Quiet };

    fn default() -> Fault {
        Fault::Quiet
    }
}

/// Whether this is one of this many other nodes, and has not sent yet.
fn may_send(node: u8, nodes: u8, sent: &[bool; 9]) -> bool
    requires { nodes ≤ 8 }
    ensures yes { result ≡ true → (1 ≤ node) × (node ≤ nodes) × (sends_at sent.now node ≡ false) }
    ensures no { result ≡ false
        → (1 ≤ node) → (node ≤ nodes) → sends_at sent.now node ≡ true }
{
    node >= 1 && node <= nodes && !sent[usize::from(node)]
}

/// Whether each sender is one of this many other nodes, and none of them sends twice.
fn are_senders(nodes: u8, sends: &[(u8, Frame)]) -> bool
    requires { nodes ≤ 8 }
    ensures { IsTrue result ↔ AreSenders nodes sends.now }
{
    let mut sent = [false; 9];
    for place in 0..sends.len() {
        let (node, _) = sends[place];
        if !may_send(node, nodes, &sent) {
            return false;
        }
        sent[usize::from(node)] = true;
    }
    true
}

/// What the other nodes do in a round: the frames that they send, each with its node, and what spoils the winner's.
#[derive(Drop)]
pub struct RoundLine {
    send: ArrayVec<(u8, Frame), 8>,
    fault: Fault,
    ghost senders: { AreSenders 8 send.items },
}

impl RoundLine {
    /// None if a node is 0 (the controller), above `nodes`, or named twice.
    pub fn new(nodes: u8, send: ArrayVec<(u8, Frame), 8>, fault: Fault) -> Option<RoundLine>
        requires { nodes ≤ 8 }
        ensures known { IsSome result ↔ AreSenders nodes send.items }
        ensures value { IfSome result
            (λ line. (line.send.items ≡ send.items) × (line.fault ≡ fault)) }
    {
        if are_senders(nodes, send.as_slice()) {
            Some(RoundLine { send, fault })
        } else {
            None
        }
    }

    /// The frames, each with its node.
    pub fn sends(&self) -> &[(u8, Frame)]
        ensures value { result.now ≡ self.now.send.items }
        ensures few { length result.now ≤ 8 }
    {
        self.send.as_slice()
    }

    /// What spoils the winner's frame.
    pub fn fault(&self) -> Fault
        ensures { result ≡ self.now.fault }
    {
        self.fault
    }
}
