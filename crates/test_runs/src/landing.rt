//! A machine with states that only one move follows.
use ccan_search::{Labelled, Move};
use std::alloc::{AllocError, Global};

/// Stairs with a landing. From there one goes down one stair or two, from any other stair one. The label of a move says how many.
#[derive(Drop)]
pub struct Landing {
    /// The stair that is the landing.
    pub at: u64,
}

impl Labelled for Landing {
    ghost use Rattle.std.specs.Prelude.{ℕ, ◌≡◌, ◌+◌, ◌⊎◌};
    ghost use Rattle.std.proofs.lemmas.Bool.{eqb-true};

    /// The stair, and 0 for the ground.
    type State = u64;

    /// How many stairs a move goes down.
    type Label = u64;

    ghost Abstract = { ℕ };

    ghost Past = { ℕ };

    ghost after = { λ _ past label. past + label };

    ghost leads = { λ _ from to. (from ≡ to + 1) ⊎ (from ≡ to + 2) };

    ghost stands_for = { λ _ state past there. state ≡ there };

    ghost to_follow = { λ stairs _ from to. (from ≡ to + 1) ⊎ (from ≡ stairs.at) × (from ≡ to + 2) };

    fn moves(&self, alloc: Global, from: &u64) -> Result<Vec<Move<u64, u64>>, AllocError> {
        let mut moves = Vec::new(alloc);
        if *from > 0 {
            moves.push(Move {
                to: *from - 1,
                label: 1,
            })?;
        }
        if *from > 1 && *from == self.at {
            moves.push(Move {
                to: *from - 2,
                label: 2,
            })?;
        }
        Ok(moves)
    }

    fn pass(&self, _alloc: Global, state: &mut u64, label: &mut u64) -> Result<bool, AllocError> {
        if *state == 0 || *state == self.at {
            return Ok(false);
        }
        let Some(down) = label.checked_add(1) else {
            return Err(AllocError);
        };
        *state -= 1;
        *label = down;
        Ok(true)
    }

    ghost same = { eqb-true };
}
