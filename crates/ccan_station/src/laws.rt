//! Laws of frames that are under way while controllers leave the bus, and of how a frame starts. The functions do nothing: their
//! contracts are the laws.

ghost use Rattle.ccan_station.specs.Laws.{BeginsAreLoads, EndsAsItBegan, FramesOfWhoLeftAreCutOff};
ghost use Rattle.ccan_station.specs.Laws.{WhoLeavesChangesNoWinner, WhoLeftHasNoEvent};

/// Whoever leaves while a frame is under way: if one of the frame's senders remains, the frame that won at the start wins when
/// the members are asked again.
pub fn who_leaves_changes_no_winner()
    ensures { WhoLeavesChangesNoWinner }
{}

/// A frame whose senders have all left the bus is cut off, so nobody receives it.
pub fn frames_of_who_left_are_cut_off()
    ensures { FramesOfWhoLeftAreCutOff }
{}

/// A member that has left the bus has no event, whatever is on it.
pub fn who_left_has_no_event()
    ensures { WhoLeftHasNoEvent }
{}

/// The start of a frame is a load of `ccan_chip::ChipBus`, if the controller is not silent and DAR is 0.
pub fn begins_are_loads()
    ensures { BeginsAreLoads }
{}

/// What is started at the start of a frame is finished as DAR said then, whatever a host makes of DAR until the end.
pub fn ends_as_it_began()
    ensures { EndsAsItBegan }
{}
