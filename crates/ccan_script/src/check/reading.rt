use crate::check::spot::Spot;
use crate::race::RACE_MEMBERS;
use crate::reader::SCRIPT_MEMBERS;

/// What a file is read as.
#[derive(Clone, Copy)]
pub(crate) enum Reading {
    /// A script.
    Script,
    /// A script for a race.
    Race,
}

impl Reading {
    /// Whether it may have a member of this name.
    pub(crate) fn knows(self, name: &str) -> bool {
        match self {
            Reading::Script => SCRIPT_MEMBERS.iter().any(|known| *known == name),
            Reading::Race => RACE_MEMBERS.iter().any(|known| *known == name),
        }
    }

    /// What is wrong with another member.
    pub(crate) fn unknown(self) -> &'static str {
        match self {
            Reading::Script => {
                "is unknown here; known: profile quota tries nodes if1 if2 bus order"
            }
            Reading::Race => {
                "is unknown here; known: profile quota tries nodes if1 if2 bus order before"
            }
        }
    }

    /// The ports of which lines run before a race, if it may have them and has them.
    pub(crate) fn before(self, top: Spot<'_>) -> Option<Spot<'_>> {
        match self {
            Reading::Script => None,
            Reading::Race => top.member("before"),
        }
    }
}
