use crate::answer::RoundAnswer;
use crate::memory_step::MemoryStep;

/// How a round ended.
#[derive(Clone, Copy, PartialEq, Eq, Hash, Debug)]
pub struct RoundEnd {
    /// What came of it.
    pub answer: RoundAnswer,
    /// The memory step that was refused: the answer is then Busy or Spent. None: no step was refused.
    pub refused: Option<MemoryStep>,
}
