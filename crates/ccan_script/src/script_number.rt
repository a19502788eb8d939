//! The rows of the table for the numbers of a script itself.

ghost use Rattle.std.specs.Prelude.{◌≡◌, ◌≤◌};
ghost use Rattle.ccan_script.specs.ScriptNumber.{number_text, least_of, greatest_of, default_of};

use ccan_line::{
    DEFAULT_NODES, DEFAULT_PROFILE, DEFAULT_QUOTA, DEFAULT_TRIES, MAX_NODES, MAX_PROFILE,
    MAX_QUOTA, MAX_TRIES,
};

/// A number of a script itself.
#[derive(Clone, Copy, PartialEq, Eq, PartialOrd, Ord, Hash, Debug)]
pub enum ScriptNumber {
    Profile,
    Quota,
    Tries,
    Nodes,
}

/// All of them, in the order in which they are checked.
pub const SCRIPT_NUMBERS: [ScriptNumber; 4] = [
    ScriptNumber::Profile,
    ScriptNumber::Quota,
    ScriptNumber::Tries,
    ScriptNumber::Nodes,
];

/// What is asked of a number.
#[derive(Clone, Copy, Debug)]
pub struct NumberRow {
    /// The name of its member.
    pub name: &'static str,
    pub least: u64,
    pub greatest: u64,
    /// What it is if it has no member.
    pub default: u64,
}

impl ScriptNumber {
    /// Its row.
    pub fn row(self) -> NumberRow
        ensures name { result.name.now ≡ number_text self }
        ensures least { result.least ≡ least_of self }
        ensures greatest { result.greatest ≡ greatest_of self }
        ensures default { result.default ≡ default_of self }
        ensures default_least { result.least ≤ result.default }
        ensures default_greatest { result.default ≤ result.greatest }
    {
        match self {
            ScriptNumber::Profile => NumberRow {
                name: "profile",
                least: 1,
                greatest: MAX_PROFILE,
                default: DEFAULT_PROFILE,
            },
            ScriptNumber::Quota => NumberRow {
                name: "quota",
                least: 1,
                greatest: MAX_QUOTA,
                default: DEFAULT_QUOTA,
            },
            ScriptNumber::Tries => NumberRow {
                name: "tries",
                least: 1,
                greatest: MAX_TRIES,
                default: DEFAULT_TRIES,
            },
            ScriptNumber::Nodes => NumberRow {
                name: "nodes",
                least: 0,
                greatest: MAX_NODES,
                default: DEFAULT_NODES,
            },
        }
    }
}
