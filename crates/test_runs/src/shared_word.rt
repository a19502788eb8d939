//! A device that is no more than a word.
use ccan_every::{Device, Step};
use std::alloc::{AllocError, Global};

/// What a thread does with the word. It is answered with the word as it is then.
#[derive(Clone, Copy)]
pub enum WordAct {
    /// It reads it.
    Reads,
    /// It writes this.
    Writes(u64),
    /// It waits until it is 0, and writes 1.
    Takes,
}

/// A word that threads share.
pub struct SharedWord;

impl Device for SharedWord {
    ghost use Rattle.std.specs.Prelude.{Contains};
    ghost use Rattle.std.proofs.lemmas.Bool.{eqb-true};
    ghost use Rattle.ccan_every.specs.declared.device.Step.{Step};
    ghost use Rattle.test_runs.specs.SharedWord.{word_steps};

    type Memory = u64;

    type Operation = WordAct;

    type Answer = u64;

    ghost acts = { λ _ thread act from to answer.
        Contains (word_steps act from) (record { memory = to; answer = answer }) };

    fn act(
        &self,
        alloc: Global,
        _thread: usize,
        operation: WordAct,
        at: &u64,
    ) -> Result<Vec<Step<u64, u64>>, AllocError> {
        let left = match operation {
            WordAct::Reads => *at,
            WordAct::Writes(number) => number,
            WordAct::Takes => {
                if *at != 0 {
                    return Ok(Vec::new(alloc));
                }
                1
            }
        };
        let mut steps = Vec::new(alloc);
        steps.push(Step {
            memory: left,
            answer: left,
        })?;
        Ok(steps)
    }

    ghost same_memory = { eqb-true };

    ghost same_answer = { eqb-true };
}
