ghost use Rattle.std.specs.Prelude.{◌≡◌, ◌<◌, IfOk, IsOk};
ghost use Rattle.ccan_language.specs.Words.{letter_at, precedes};

use std::alloc::AllocError;

/// One letter of a word: which of the answers is at this place.
///
/// Letters are ordered by their places, and those of one place by their answers.
#[derive(Clone, Copy, PartialEq, Eq, Debug, Drop)]
pub struct Letter {
    /// The place, counted as the caller counts places.
    pub place: u32,
    /// The answer, as the caller numbers the answers that can be there.
    pub answer: u32,
}

impl Letter {
    /// The letter of this answer at this place. A number that 32 bits can't hold, and no other, is answered as if memory was
    /// refused.
    pub fn at(place: usize, answer: usize) -> Result<Self, AllocError>
        ensures is { IfOk result (λ letter. letter ≡ letter_at place answer) }
        ensures held { place < 0x100000000 → answer < 0x100000000 → IsOk result }
    {
        if place > u32::MAX as usize || answer > u32::MAX as usize {
            return Err(AllocError);
        }
        Ok(Letter {
            place: place as u32,
            answer: answer as u32,
        })
    }

    /// Whether this letter comes before the other one in a word.
    pub fn precedes(self, other: Self) -> bool
        ensures { result ≡ precedes self other }
    {
        if self.place == other.place {
            self.answer < other.answer
        } else {
            self.place < other.place
        }
    }
}
