//! Laws of the library. The functions do nothing: their contracts are the laws.
ghost use Rattle.ccan_c.specs.FrameCall.{CallsKeepTheChoice};
ghost use Rattle.ccan_c.specs.OneThread.{TurnsRunInOrder};
ghost use Rattle.ccan_c.specs.SharedFrames.{SendersSendTheSame, SentFramesAreReceived};
ghost use Rattle.ccan_c.specs.Threads.{CallsFitOneHistory};

/// A call on the bus's handle does not change how the bus chooses what it sends: the bus of a chip always chooses at one moment.
pub fn calls_keep_the_choice()
    ensures { CallsKeepTheChoice }
{}

/// Whatever three threads do with a chip from its opening, by `ccan_open`, `ccan_open_reset` or `ccan_restore`, to a `ccan_end`
/// that answers 0, each on a handle of its own and with `ccan_meet`, `ccan_save` and `ccan_reset` in between, is in one legal
/// history of the chip: of its objects and its controller. The events of each handle's calls are in it in the order of these
/// calls, each call answers what its place in the history makes it answer, and C gets the records that the history leaves.
pub fn calls_fit_one_history()
    ensures { CallsFitOneHistory }
{}

/// One thread that calls `ccan_meet` before it goes on to another handle gets what a chip of one thread answers to its calls in
/// their order, and the records that it leaves.
pub fn turns_run_in_order()
    ensures { TurnsRunInOrder }
{}

/// A frame that some chip on a bus of several has sent was received by another member of that bus, if C decides the frame over
/// the members at its start and again at its end, and ends it at the chip with what it was given. The chip's member is as its
/// last look found it.
pub fn sent_frames_are_received()
    ensures { SentFramesAreReceived }
{}

/// Two chips on such a bus that have both sent in one frame have sent the same frame.
pub fn senders_send_the_same()
    ensures { SendersSendTheSame }
{}
