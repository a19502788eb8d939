//! Laws of the error counters, of the Status register and of the controller's registers, each proved of every list of
//! events or changes. The functions do
//! nothing: their contracts are the laws.

ghost use Rattle.ccan_confine.specs.Laws.{BackWithTheGroups, BackWithTheGroupsAfterInit, CausesMakePending};
ghost use Rattle.ccan_confine.specs.Laws.{CountersAreBounded, PassiveMakesNothingPending};
ghost use Rattle.ccan_confine.specs.Laws.{EnablingMakesNothingPending, GroupsCountOnlyWhileRecovering, NotBackBeforeInit};
ghost use Rattle.ccan_confine.specs.Laws.{NotBackBeforeTheGroups, NotBackBeforeTheGroupsAfterInit, OffNodesKeepTheirCounters};
ghost use Rattle.ccan_confine.specs.Laws.{OnWithoutSendFaults, OnlySendFaultsLeadOff, OnlyTheFirstClearingCounts, ReadsClear};
ghost use Rattle.ccan_confine.specs.ControllerLaws.{CountersAreAsDefined, FlagsAreGivenLast, GoingOffSetsInit};
ghost use Rattle.ccan_confine.specs.ControllerLaws.{HasLeftUntilJoining, HostsLeaveTheCounters, MasksLoseNothing, OneWord, StatusReadsClear};

/// No counter leaves its range, and TEC of a node that is on is below 256.
pub fn counters_are_bounded()
    ensures { CountersAreBounded }
{}

/// Bus events don't change the counters of a node that is off.
pub fn off_nodes_keep_their_counters()
    ensures { OffNodesKeepTheirCounters }
{}

/// A node that went off isn't back before 128 groups of recessive bits.
pub fn not_back_before_the_groups()
    ensures { NotBackBeforeTheGroups }
{}

/// The controller isn't back before Init was cleared.
pub fn not_back_before_init()
    ensures { NotBackBeforeInit }
{}

/// For the controller, groups before the clearing of Init don't count.
pub fn not_back_before_the_groups_after_init()
    ensures { NotBackBeforeTheGroupsAfterInit }
{}

/// Another node is back, as new, with the group that makes 128.
pub fn back_with_the_groups()
    ensures { BackWithTheGroups }
{}

/// The controller is back, as new, with the group that makes 128 since Init was first cleared.
pub fn back_with_the_groups_after_init()
    ensures { BackWithTheGroupsAfterInit }
{}

/// Groups of recessive bits change nothing of a node that isn't recovering.
pub fn groups_count_only_while_recovering()
    ensures { GroupsCountOnlyWhileRecovering }
{}

/// Only the first clearing of Init since the controller went off begins the count.
pub fn only_the_first_clearing_counts()
    ensures { OnlyTheFirstClearingCounts }
{}

/// The event at which a node goes off is an error in a frame that it sent. A missing acknowledgement makes no node go off,
/// whether active or passive.
pub fn only_send_faults_lead_off()
    ensures { OnlySendFaultsLeadOff }
{}

/// A node is on if no error was ever found in its own frames, such as one that is alone on the bus.
pub fn on_without_send_faults()
    ensures { OnWithoutSendFaults }
{}

/// After a read it isn't pending before the next event.
pub fn reads_clear()
    ensures { ReadsClear }
{}

/// Writing SIE and EIE by itself makes nothing pending.
pub fn enabling_makes_nothing_pending()
    ensures { EnablingMakesNothingPending }
{}

/// After an event it is pending exactly if it was before, or if the event is a cause: with SIE the end of a transfer
/// or a bus error, with EIE a change of BOff or EWarn.
pub fn causes_make_pending()
    ensures { CausesMakePending }
{}

/// An event that ends no transfer, is no bus error and leaves BOff and EWarn makes nothing pending, whatever EPass does.
pub fn passive_makes_nothing_pending()
    ensures { PassiveMakesNothingPending }
{}

/// Two controllers that pack to the same word are the same.
pub fn one_word_tells_its_controller()
    ensures { OneWord }
{}

/// The error counters of a controller, after any changes, are those that fault confinement defines over what the changes
/// are to them.
pub fn counters_are_as_defined()
    ensures { CountersAreAsDefined }
{}

/// Only the message handler's side, by the ends of frames, the groups of recessive bits and a reset, changes TEC or REC; and so
/// does a reset of a D_CAN, which a host may make too.
pub fn hosts_leave_the_counters()
    ensures { HostsLeaveTheCounters }
{}

/// A controller that goes bus off has Init afterwards.
pub fn going_off_sets_init()
    ensures { GoingOffSetsInit }
{}

/// After a read of the Status register, of a C_CAN or a D_CAN, the Interrupt register shows no status interrupt.
pub fn status_reads_clear()
    ensures { StatusReadsClear }
{}

/// What is pending does not depend on SIE and EIE: they mask what is shown.
pub fn masks_lose_nothing()
    ensures { MasksLoseNothing }
{}

/// TxOk and RxOk are what the newest transfer, write, clearing read or reset made of them.
pub fn flags_are_given_last()
    ensures { FlagsAreGivenLast }
{}

/// From the moment at which Init is 1 the controller has left the bus, whatever else changes, until the message handler joins it
/// again: even if Init is 0 again.
pub fn has_left_until_joining()
    ensures { HasLeftUntilJoining }
{}
