ghost use Rattle.std.specs.Prelude.{◌≡◌, MatchOption, false, true};
ghost use Rattle.ccan_c.specs.Load.{loaded_frame};
ghost use Rattle.ccan_c.specs.Outcome.{c_frame, frame_shown, no_frame};
ghost use Rattle.ccan_c.specs.Wire.{c_frame_or_none, frame_in, is_shown_frame};

use ccan_accept::{Frame, frame_of};
use ccan_object::{ObjectNo, Record};

/// A frame that was on the bus, or is to be.
#[repr(C)]
#[derive(Clone, Copy, PartialEq, Eq, Debug)]
pub struct ShownFrame {
    /// The identifier, of 11 bits, or of 29 if it is extended.
    pub id: u32,
    /// Whether the identifier is extended: 0 is no, 1 is yes.
    pub xtd: u8,
    /// Whether it is a remote frame, in the same way.
    pub rtr: u8,
    /// The data length code, 0 to 15.
    pub dlc: u8,
    /// The data, byte 0 first, and 0 past its end.
    pub bytes: [u8; 8],
}

impl ShownFrame {
    /// No frame.
    fn none() -> ShownFrame
        ensures { result ≡ no_frame }
    {
        ShownFrame {
            id: 0,
            xtd: 0,
            rtr: 0,
            dlc: 0,
            bytes: [0; 8],
        }
    }

    /// A frame as C sees it.
    fn of_frame(frame: &Frame) -> ShownFrame
        ensures { result ≡ c_frame frame.now }
    {
        ShownFrame {
            id: frame.id(),
            xtd: u8::from(frame.xtd()),
            rtr: u8::from(frame.rtr()),
            dlc: frame.dlc().get(),
            bytes: frame.bytes(),
        }
    }

    /// A frame as C sees it, zero if there is none.
    pub(crate) fn of_option(frame: &Option<Frame>) -> ShownFrame
        ensures { result ≡ c_frame_or_none frame.now }
    {
        match frame {
            Some(frame) => ShownFrame::of_frame(frame),
            None => ShownFrame::none(),
        }
    }

    /// The frame. None if its identifier or its length is out of its range.
    pub(crate) fn read(&self) -> Option<Frame>
        ensures { MatchOption result (is_shown_frame self.now ≡ false)
            (λ frame. (is_shown_frame self.now ≡ true) × (frame ≡ frame_in self.now)) }
    {
        match Frame::new(self.id, self.xtd != 0, self.rtr != 0, self.dlc, self.bytes) {
            Ok(frame) => Some(frame),
            Err(_) => None,
        }
    }

    /// The frame that was on the bus, zero if no single one was.
    pub fn of(winner: &Option<(u8, Frame)>) -> ShownFrame
        ensures { result ≡ frame_shown winner.now }
    {
        match winner {
            Some((_, frame)) => ShownFrame::of_frame(frame),
            None => ShownFrame::none(),
        }
    }

    /// The frame that is to be sent of what is loaded, zero if nothing is.
    pub fn of_loaded(loaded: &Option<(ObjectNo, Record)>) -> ShownFrame
        ensures { result ≡ loaded_frame loaded.now }
    {
        match loaded {
            Some((_, started)) => ShownFrame::of_frame(&frame_of(started)),
            None => ShownFrame::none(),
        }
    }
}
