ghost use Rattle.std.specs.Prelude.{◌≢◌};
ghost use Rattle.ccan_registers.specs.declared.saved.not_restored.NotRestored.TheVariants.{OtherProfile};

use crate::saved::not_restored::NotRestored;

/// Why a step by which a chip is put back was refused.
#[derive(Clone, Copy, PartialEq, Eq, Debug)]
pub(crate) enum Refusal {
    /// Each try was lost to a change of another port.
    Busy,
    /// The port has made all the changes of message objects that the memory numbers.
    Spent,
}

impl Refusal {
    /// The same of the whole chip.
    pub(crate) fn of_chip(self) -> NotRestored
        ensures { result ≢ OtherProfile }
    {
        match self {
            Refusal::Busy => NotRestored::Busy,
            Refusal::Spent => NotRestored::Spent,
        }
    }
}
