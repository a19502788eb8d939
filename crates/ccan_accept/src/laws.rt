//! Laws of the definitions. The functions do nothing: their contracts are the laws.

ghost use Rattle.ccan_accept.specs.Laws.{AcceptedPlaceByPlace, FailuresLeaveNewDat, LockedAcceptsNothing};
ghost use Rattle.ccan_accept.specs.Laws.{RequestsMeanwhileStand, StartedOnceIsNotReady, StartedOnceSendsItsFrame};
ghost use Rattle.ccan_accept.specs.Laws.{StoredGoesOutAgain, StoredReadsBack, StoringKeepsSettings, UnmaskedAcceptsItsOwn};

/// The test of acceptance answers what acceptance says of each place of the identifier.
pub fn accepted_place_by_place()
    ensures { AcceptedPlaceByPlace }
{}

/// Without a mask a valid object that isn't locked accepts only the frames of its own identifier, width and kind.
pub fn unmasked_accepts_its_own()
    ensures { UnmaskedAcceptsItsOwn }
{}

/// A locked object accepts nothing.
pub fn locked_accepts_nothing()
    ensures { LockedAcceptsNothing }
{}

/// A stored data frame goes out again as it came, once Dir is turned to 1.
pub fn stored_goes_out_again()
    ensures { StoredGoesOutAgain }
{}

/// A host that reads the object after a data frame was stored finds that frame in its interface registers.
pub fn stored_reads_back()
    ensures { StoredReadsBack }
{}

/// Storing changes none of the fields that say what an object is.
pub fn storing_keeps_settings()
    ensures { StoringKeepsSettings }
{}

/// What was started once is not ready again before a host asks.
pub fn started_once_is_not_ready()
    ensures { StartedOnceIsNotReady }
{}

/// A transmission that was started once and failed leaves NewDat as it was.
pub fn failures_leave_new_dat()
    ensures { FailuresLeaveNewDat }
{}

/// What is started once sends the frame that the object had.
pub fn started_once_sends_its_frame()
    ensures { StartedOnceSendsItsFrame }
{}

/// A request that a host makes while a frame that is tried once is under way remains after its end.
pub fn requests_meanwhile_stand()
    ensures { RequestsMeanwhileStand }
{}
