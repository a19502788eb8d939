//! A machine whose moves have labels.
use ccan_search::{Labelled, Move};
use std::alloc::{AllocError, Global};

/// Stairs that one goes down, one stair or two at a time. The label of a move says how many.
pub struct Stairs;

impl Labelled for Stairs {
    ghost use Rattle.std.specs.Prelude.{ℕ, ◌≡◌, ◌+◌, ◌<◌, ◌⊎◌};
    ghost use Rattle.std.proofs.lemmas.Bool.{eqb-true};

    /// The stair, and 0 for the ground.
    type State = u64;

    /// How many stairs a move goes down.
    type Label = u64;

    ghost Abstract = { ℕ };

    ghost Past = { ℕ };

    ghost after = { λ _ past label. past + label };

    ghost leads = { λ _ from to. (from ≡ to + 1) ⊎ (from ≡ to + 2) };

    ghost stands_for = { λ _ state past there. state ≡ there };

    ghost to_follow = { λ _ _ from to. (from ≡ to + 1) ⊎ (from ≡ to + 2) };

    fn moves(&self, alloc: Global, from: &u64) -> Result<Vec<Move<u64, u64>>, AllocError> {
        let mut moves = Vec::new(alloc);
        if *from > 0 {
            moves.push(Move {
                to: *from - 1,
                label: 1,
            })?;
        }
        if *from > 1 {
            moves.push(Move {
                to: *from - 2,
                label: 2,
            })?;
        }
        Ok(moves)
    }

    fn pass(&self, _alloc: Global, _state: &mut u64, _label: &mut u64) -> Result<bool, AllocError> {
        Ok(false)
    }

    ghost same = { eqb-true };
}
