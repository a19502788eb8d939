ghost use Rattle.std.specs.Prelude.{◌↔◌, ◌<◌, ℕ, Contains, IfOk, length};
ghost use Rattle.ccan_language.specs.Answers.{IsAnswerAt, IsMarkedAlone};

use crate::graph::Graph;
use crate::node::Node;
use std::alloc::{AllocError, Global};
use std::collections::BTreeSet;

/// Marks for the nodes up to this one, of which only this one is marked.
pub(crate) fn first_marks(alloc: Global, index: usize) -> Result<Vec<bool>, AllocError>
    ensures { IfOk result (λ marks. IsMarkedAlone marks.items index) }
{
    let mut marks = Vec::new(alloc);
    for _ in 0..index {
        marks.push(false)?;
    }
    marks.push(true)?;
    Ok(marks)
}

impl Graph {
    /// The answers that the words from the node have at this place, in order.
    pub fn answers_at(
        &self,
        alloc: Global,
        index: usize,
        place: usize,
    ) -> Result<BTreeSet<usize>, AllocError>
        requires { index < length self.now.nodes.keys }
        ensures { IfOk result (λ answers. (answer : ℕ) → Contains answers.keys answer
            ↔ IsAnswerAt self.now.nodes.keys index place answer) }
    {
        let mut marks = first_marks(alloc, index)?;
        let mut answers = BTreeSet::new(alloc);
        let mut left = marks.len();
        while left > 0 {
            left -= 1;
            if !marks[left] {
                continue;
            }
            if let Node::Fork(edge) = self.nodes[left] {
                marks[edge.to as usize] = true;
                marks[edge.others as usize] = true;
                if edge.letter.place as usize == place {
                    answers.insert(edge.letter.answer as usize)?;
                }
            }
        }
        Ok(answers)
    }
}
