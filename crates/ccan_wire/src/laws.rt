//! Laws of what is on a bus, each proved of all members. The functions do nothing: their contracts are the laws.

ghost use Rattle.ccan_wire.specs.Laws.{AtMostOneFrameIsSent, DecidedAgainAsAtFirst, EachRoundHasOneWire, ListenersChangeNothing};
ghost use Rattle.ccan_wire.specs.Laws.{LoneFramesAreReceived, LoopBackDisregardsTheBus, LoopBackFramesGoOnOrSpoil};
ghost use Rattle.ccan_wire.specs.Laws.{NobodyHearsALoneSender, SentIsHeard, UnheardSendersStayOn, WinnersAreSettledAtTheStart};

/// The members settle who sends, and what becomes of it for each of them.
pub fn each_round_has_one_wire()
    ensures { EachRoundHasOneWire }
{}

/// If nothing happened to the members since the start of a frame, what was decided then is decided again.
pub fn decided_again_as_at_first()
    ensures { DecidedAgainAsAtFirst }
{}

/// A member that has sent was heard by one that takes part and sent nothing, and that one has received.
pub fn sent_is_heard()
    ensures { SentIsHeard }
{}

/// All who have sent in one round have sent the same frame.
pub fn at_most_one_frame_is_sent()
    ensures { AtMostOneFrameIsSent }
{}

/// A member that drives nothing changes nothing on the bus.
pub fn listeners_change_nothing()
    ensures { ListenersChangeNothing }
{}

/// A frame is not acknowledged while nobody except its sender drives the bus, however many listen.
pub fn nobody_hears_a_lone_sender()
    ensures { NobodyHearsALoneSender }
{}

/// A frame that nobody acknowledges makes no sender go off.
pub fn unheard_senders_stay_on()
    ensures { UnheardSendersStayOn }
{}

/// The frame that won at the start is the one that wins when the members who are left are asked again, if one of its senders is.
pub fn winners_are_settled_at_the_start()
    ensures { WinnersAreSettledAtTheStart }
{}

/// To a member in loop back mode its event is the same, whatever is on the bus.
pub fn loop_back_disregards_the_bus()
    ensures { LoopBackDisregardsTheBus }
{}

/// A frame that only one member sends, in loop back mode or not, is received by each other that takes part and hears the bus, if
/// nobody finds an error by itself.
pub fn lone_frames_are_received()
    ensures { LoneFramesAreReceived }
{}

/// A frame of a member in loop back mode wins the bus, with the member as a sender of it, or frames collide.
pub fn loop_back_frames_go_on_or_spoil()
    ensures { LoopBackFramesGoOnOrSpoil }
{}
