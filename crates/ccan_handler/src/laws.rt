//! Laws of the handler's calls, of every memory that meets `Access`. The functions do nothing: their contracts are the
//! laws.

ghost use Rattle.ccan_handler.specs.Laws.{ChosenIsReady, EachFlagIsShown, FittingIsNotPassedOver, FlagsTakeOneLookEach};
ghost use Rattle.ccan_handler.specs.Laws.{InterruptsAreBounded, NothingFoundLooksEverywhere, ScansAreBounded};
ghost use Rattle.ccan_handler.specs.Laws.{ScansChangeWhatFits, ScansLeaveOutWhatIsBefore};
ghost use Rattle.ccan_handler.specs.Laws.{WaitingAnswersNoAfterAllTurns, WaitingAnswersYesAtItsLastLook};
ghost use Rattle.ccan_handler.specs.Moment.{ChoiceIsOfOneMoment, FlagsAreOfOneMoment, InterruptIsOfOneMoment};

/// A scan passes over no object whose record fits throughout.
pub fn fitting_is_not_passed_over()
    ensures { FittingIsNotPassedOver }
{}

/// A scan that finds nothing looked at every object from its first on.
pub fn nothing_found_looks_everywhere()
    ensures { NothingFoundLooksEverywhere }
{}

/// What a scan changes fitted at the point of the change.
pub fn scans_change_what_fits()
    ensures { ScansChangeWhatFits }
{}

/// What `choose` answers was valid and requested at the point of its start.
pub fn chosen_is_ready()
    ensures { ChosenIsReady }
{}

/// A scan that was resumed has no event at an earlier object.
pub fn scans_leave_out_what_is_before()
    ensures { ScansLeaveOutWhatIsBefore }
{}

/// A scan from object s over n objects takes at most (n + 1 - s) * (tries + 1) looks and at most one change.
pub fn scans_are_bounded()
    ensures { ScansAreBounded }
{}

/// `until` answers yes only if its last look, and no earlier one, shows the flag.
pub fn waiting_answers_yes_at_its_last_look()
    ensures { WaitingAnswersYesAtItsLastLook }
{}

/// `until` answers no only after as many looks as it has turns, none of which shows the flag.
pub fn waiting_answers_no_after_all_turns()
    ensures { WaitingAnswersNoAfterAllTurns }
{}

/// `interrupt` takes one look at each object up to the one found, in turn, at each object if it finds none, and none for
/// the status interrupt.
pub fn interrupts_are_bounded()
    ensures { InterruptsAreBounded }
{}

/// `flags` takes exactly one look at each object, in turn.
pub fn flags_take_one_look_each()
    ensures { FlagsTakeOneLookEach }
{}

/// Bit k - 1 of a flag word is the flag that the look at object k shows.
pub fn each_flag_is_shown()
    ensures { EachFlagIsShown }
{}

/// All bits of a flag word are the objects' flags in one moment.
pub fn flags_are_of_one_moment()
    ensures { FlagsAreOfOneMoment }
{}

/// If no status interrupt is pending, the interrupt value is that of the first object that asks for one in one moment.
pub fn interrupt_is_of_one_moment()
    ensures { InterruptIsOfOneMoment }
{}

/// What is chosen was ready in one moment, in which no object before it was, except those that are no longer ready.
pub fn choice_is_of_one_moment()
    ensures { ChoiceIsOfOneMoment }
{}
