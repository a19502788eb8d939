//! Laws of the rounds of a chip. The functions do nothing: their contracts are the laws.

ghost use Rattle.ccan_chip.specs.Laws.{RoundsFindTheirCounters};

/// The error counters that a round's change of the controller finds are those that its look found, whatever hosts changed of the
/// controller in between, unless one of them reset a D_CAN. So the counters that decide a round are those that it changes.
pub fn rounds_find_their_counters()
    ensures { RoundsFindTheirCounters }
{}
