//! Laws of arbitration and of rounds. The functions do nothing: their contracts are the laws.

ghost use Rattle.ccan_bus.specs.Laws.{AtMostOneSends, DataBeatsRemote, LeastUpperPartWins, LinesAreUnheardInLoopBack};
ghost use Rattle.ccan_bus.specs.Laws.{LoadsAreOfOneMoment, LoopsWhatWasLoaded, NothingIsLoadedAfterwards, OffNodesHaveNoEvent};
ghost use Rattle.ccan_bus.specs.Laws.{EachRoundSendsWhatWasLoaded, OffControllersHoldNothing};
ghost use Rattle.ccan_bus.specs.Laws.{OneSendsExactlyOnSuccess, OthersRestInLoopBack, RefusedLoadsLeaveAll};
ghost use Rattle.ccan_bus.specs.Laws.{SendsWhatWasLoaded, StandardBeatsExtended};
ghost use Rattle.ccan_bus.specs.RoundReport.{RoundsAreTheirSteps};

/// A data frame wins over the remote frame with the same identifier.
pub fn data_beats_remote()
    ensures { DataBeatsRemote }
{}

/// A standard frame wins over each extended one with the same upper part of the identifier, whatever kinds they are.
pub fn standard_beats_extended()
    ensures { StandardBeatsExtended }
{}

/// The upper eleven bits of the winner's identifier are, as a number, no greater than any other's.
pub fn least_upper_part_wins()
    ensures { LeastUpperPartWins }
{}

/// A round is a load, a decision that needs no memory, and the memory steps that are due; and nothing else is a round.
pub fn rounds_are_their_steps()
    ensures { RoundsAreTheirSteps }
{}

/// In every round at most one node sends its frame well.
pub fn at_most_one_sends()
    ensures { AtMostOneSends }
{}

/// One does exactly if the answer is Sent, Received, Passed or Looped, or a memory step was refused after that success.
pub fn one_sends_exactly_on_success()
    ensures { OneSendsExactlyOnSuccess }
{}

/// A node that is off has no bus event in a round.
pub fn off_nodes_have_no_event()
    ensures { OffNodesHaveNoEvent }
{}

/// A round that is answered Sent has sent what was loaded, whatever hosts wrote in between.
pub fn sends_what_was_loaded()
    ensures { SendsWhatWasLoaded }
{}

/// Whatever a round comes to, what the controller sends in it is what was loaded, whether sent well, spoiled, not acknowledged,
/// lost to another frame or in a collision.
pub fn each_round_sends_what_was_loaded()
    ensures { EachRoundSendsWhatWasLoaded }
{}

/// A round in loop back mode sends and receives what was loaded, whatever hosts wrote in between, and answers as its scan
/// for that frame ends.
pub fn loops_what_was_loaded()
    ensures { LoopsWhatWasLoaded }
{}

/// What is loaded by a choice at one moment was ready then, and no object before it was, except those that are no longer ready.
pub fn loads_are_of_one_moment()
    ensures { LoadsAreOfOneMoment }
{}

/// Nothing is loaded after a round that wasn't idle.
pub fn nothing_is_loaded_afterwards()
    ensures { NothingIsLoadedAfterwards }
{}

/// A load that is refused leaves the error counters, the Status register and all else as they were.
pub fn refused_loads_leave_all()
    ensures { RefusedLoadsLeaveAll }
{}

/// In loop back mode with the controller on, no other node has a bus event.
pub fn others_rest_in_loop_back()
    ensures { OthersRestInLoopBack }
{}

/// In loop back mode with the controller on, it doesn't matter what other nodes would send, or which fault is named.
pub fn lines_are_unheard_in_loop_back()
    ensures { LinesAreUnheardInLoopBack }
{}

/// A controller that is off has nothing loaded: it is so when a bus opens, and each call leaves it so.
pub fn off_controllers_hold_nothing()
    ensures { OffControllersHoldNothing }
{}
