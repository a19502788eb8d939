use ccan_object::ObjectNo;
use ccan_ram::Change;

/// What a line does next.
#[derive(Clone, Copy, PartialEq, Eq, Debug)]
pub enum NextAct {
    /// A look at an object.
    Look(ObjectNo),
    /// An attempt of a change of an object.
    Attempt(ObjectNo, Change),
    /// The decision of a round.
    Decide,
}
