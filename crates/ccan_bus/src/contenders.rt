ghost use Rattle.std.specs.Prelude.{ℕ, ◌≡◌, ◌<◌, ◌≤◌, ◌+◌, ◌++◌, ◌∷◌, [], All, true, false, map, length, slice_index_or, if◌then◌else◌};
ghost use Rattle.arrayvec.specs.ArrayVec.{array_vec_len};
ghost use Rattle.ccan_bus.specs.Contenders.{is_least, sends_least};
ghost use Rattle.ccan_bus.specs.Nodes.{sends_at};

use crate::lead::packed;
use arrayvec::ArrayVec;
use ccan_accept::Frame;

/// The frames that contend for the bus, each with its node.
#[derive(Drop)]
pub(crate) struct Contenders {
    all: ArrayVec<(u8, Frame), 9>,
    frames: ArrayVec<Frame, 9>,
    ghost same: { frames.items ≡ map (λ c. c.1) all.items },
    ghost within: { All (λ c. c.0 < 9) all.items },
}

/// Whether no frame precedes this one.
fn is_least(frame: &Frame, frames: &[Frame]) -> bool
    ensures { result ≡ is_least frame.now frames.now }
{
    let own = packed(frame);
    for other in frames {
        if packed(other) < own {
            return false;
        }
    }
    true
}

impl Contenders {
    /// Nobody.
    pub(crate) fn none() -> Contenders
        ensures { result.all.items ≡ [] }
    {
        Contenders {
            all: ArrayVec::new(),
            frames: ArrayVec::new(),
        }
    }

    /// One more, if its node is on.
    pub(crate) fn add(&mut self, is_on: bool, node: u8, frame: &Frame)
        requires room { array_vec_len self.old.all < 9 }
        requires within { node < 9 }
        ensures items { self.new.all.items
            ≡ self.old.all.items ++ (if is_on then (node, frame.now) ∷ [] else []) }
        ensures len { array_vec_len self.new.all ≤ array_vec_len self.old.all + 1 }
    {
        if is_on {
            self.frames.push(*frame);
            self.all.push((node, *frame));
        }
    }

    /// Whether there are none.
    pub(crate) fn is_empty(&self) -> bool
        ensures none { result ≡ true → self.now.all.items ≡ [] }
        ensures some { result ≡ false → 0 < length self.now.all.items }
    {
        self.all.is_empty()
    }

    /// Their frames.
    pub(crate) fn frames(&self) -> &[Frame]
        ensures { result.now ≡ map (λ c. c.1) self.now.all.items }
    {
        self.frames.as_slice()
    }

    /// One of them.
    pub(crate) fn at(&self, place: usize) -> (u8, Frame)
        requires { place < length self.now.all.items }
        ensures value { result ≡ slice_index_or self.now.all.items place result }
        ensures within { result.0 < 9 }
    {
        self.all.as_slice()[place]
    }

    /// The nodes whose frames no frame precedes.
    pub(crate) fn colliding(&self) -> [bool; 9]
        ensures { (node : ℕ) → node < 9
            → sends_at result node ≡ sends_least self.now.all.items node }
    {
        let mut senders = [false; 9];
        for place in 0..self.all.len() {
            let (node, frame) = self.at(place);
            let node = usize::from(node);
            senders[node] = senders[node] || is_least(&frame, self.frames());
        }
        senders
    }
}
