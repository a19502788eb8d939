//! Laws of what scripts and the words of the command line mean. The functions do nothing: their contracts are the laws.
ghost use Rattle.ccan_run.specs.Laws.{AnswersHaveEvents, HasNoBusyLine, HasOneText, LastLinesAreFinals};
ghost use Rattle.ccan_run.specs.Laws.{WhatWasPrintedIsTheText};
ghost use Rattle.ccan_run.specs.CommandLine.{NoWordRuns, OtherWordsAreRefused, RunRuns, ThreadsMeansThreads};

/// A script has at most one text: the answers of its lines and the final objects are determined.
pub fn one_text()
    ensures { HasOneText }
{}

/// What a run that ended well has written is a text of its script, which has no other.
pub fn what_was_printed_is_the_text()
    ensures { WhatWasPrintedIsTheText }
{}

/// No line of an ordered run is busy.
pub fn no_line_is_busy()
    ensures { HasNoBusyLine }
{}

/// Whichever history makes an outcome that of a run without an order, it shows the answers. Each line of each port has an
/// answer of the line's kind. Each answer has a part of the history of its own, in the port's order, and the steps of that
/// part show what the answer says: the write that was made, the record that a read found, the flag that a look showed, the
/// object that was started, finished or stored. For the number of an object as interrupt value, they show a look at it that
/// showed IntPnd, and a look at each lower object that did not; for 0, they show such a look at every object. If a wait for
/// a flag ended without it, the host looked at the object once for each turn of the line, did nothing else, and no look
/// showed the flag.
///
/// A frame that was stored is one that the round's line gave to another node, or in loop back mode that of the record with
/// which the object that was sent was started. What was sent was started in the same part or before it. A part has no
/// changes of its port except the line's: a host's are those that its answer reports; the bus's are the start of what was
/// loaded, and then what the round came to, or none. No port has a step after its last line, and the objects at the end
/// are those that the history leaves.
pub fn answers_have_events()
    ensures { AnswersHaveEvents }
{}

/// An outcome and an ordered run report the objects at the end alike.
pub fn last_lines_are_finals()
    ensures { LastLinesAreFinals }
{}

/// A command line without a word is accepted, and means to run the lines in their order.
pub fn no_word_runs()
    ensures { NoWordRuns }
{}

/// So is the word `run`.
pub fn run_runs()
    ensures { RunRuns }
{}

/// The word `threads` is accepted, and means threads.
pub fn threads_means_threads()
    ensures { ThreadsMeansThreads }
{}

/// Another word is refused, whether a flag or empty, and so are two words or more. The first `--`, which ends the options,
/// is not counted among the words. Only no word at all, `run` and `threads` are accepted, each with a `--` or without.
pub fn other_words_are_refused()
    ensures { OtherWordsAreRefused }
{}
