ghost use Rattle.std.specs.Prelude.{◌≡◌, [], ◌∷◌, ◌++◌, OnOk};

use ccan_bus::RoundReport;
use ccan_object::{ObjectNo, Record};
use ccan_ram::PortName;
use ccan_script::LineAnswer;
use std::alloc::AllocError;

/// An object that a line concerns, with its records before the line and after it.
#[derive(Clone, Copy, PartialEq, Eq, Debug)]
pub struct Touched {
    /// Its number.
    pub object: ObjectNo,
    /// Its record as the line began.
    pub before: Record,
    /// Its record as the line ended.
    pub after: Record,
}

/// What came of one line of a script.
#[derive(Clone, Copy, PartialEq, Eq, Debug)]
pub struct Step {
    /// The port whose line it is.
    pub port: PortName,
    /// The line's number among those of its port, from 0.
    pub line: usize,
    /// Its answer.
    pub answer: LineAnswer,
    /// For a round: what came of its steps.
    pub report: Option<RoundReport>,
    /// Which nodes were bus off as the line began, node 0 being the controller. Only a round shows it.
    pub off: [bool; 9],
    /// The object that a transfer or a wait names, or that the controller was about to send.
    pub own: Option<Touched>,
    /// The object that stored a frame.
    pub stored: Option<Touched>,
}

/// Adds one more. It is for any type, since the prover makes no plan for a push of a step itself.
pub(crate) fn push_one<T: Copy>(all: &mut Vec<T>, one: T) -> Result<(), AllocError>
    ensures { OnOk result (all.new.items ≡ all.old.items ++ one ∷ []) }
{
    match all.push(one) {
        Ok(()) => Ok(()),
        Err(refused) => Err(AllocError::from(refused)),
    }
}
