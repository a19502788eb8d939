use ccan_line::LineAnswer;
use ccan_ram::Final;

/// What a run without an order came to: the answers of each port, in that port's order, and the objects at the end.
#[derive(Drop)]
pub struct Outcome {
    /// The answers to the lines of IF1.
    pub if1: Vec<LineAnswer>,
    /// The answers to the lines of IF2.
    pub if2: Vec<LineAnswer>,
    /// The answers to the lines of the bus.
    pub bus: Vec<LineAnswer>,
    /// The records that the run left.
    pub last: Final,
}
