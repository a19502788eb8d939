//! Laws of what scripts mean. The functions do nothing: their contracts are the laws.
ghost use Rattle.ccan_script.specs.Laws.{HasOneMeaning, WhatWasReadHasAMeaning};
ghost use Rattle.ccan_script.specs.Laws.{HasOneRace, ScriptIsARace, GoByTable};

/// A JSON value means at most one thing: one script, or one fault.
pub fn one_meaning()
    ensures { HasOneMeaning }
{}

/// Bytes that were read mean one script or one fault, if memory didn't run out and they are JSON.
pub fn what_was_read_has_a_meaning()
    ensures { WhatWasReadHasAMeaning }
{}

/// A JSON value means at most one thing as a script for a race: one script with lines before it, or one fault.
pub fn one_race()
    ensures { HasOneRace }
{}

/// A JSON value without the member `before` is the same as a script and as a script for a race: a script with no lines before
/// it, or the same fault.
pub fn a_script_is_a_race()
    ensures { ScriptIsARace }
{}

/// The table of members says of each line and frame what its definition says, as far as a table can.
pub fn lines_go_by_the_table()
    ensures { GoByTable }
{}
