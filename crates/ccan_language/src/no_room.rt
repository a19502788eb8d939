use std::alloc::{AllocError, AllocFailed};

/// Why a node could not be made.
#[derive(Clone, Copy, PartialEq, Eq, Debug, Drop)]
pub enum NoRoom {
    /// Memory ran out.
    Memory,
    /// The graph has as many nodes as it may have.
    Bound,
}

impl<T: Drop> From<AllocFailed<T>> for NoRoom {
    ghost use Rattle.std.specs.Prelude.{◌≡◌};
    ghost use Rattle.ccan_language.specs.declared.no_room.NoRoom.TheVariants.{Memory};

    ghost from_gives = { λ _ e. e ≡ Memory };

    fn from(_refused: AllocFailed<T>) -> NoRoom {
        NoRoom::Memory
    }
}

impl From<AllocError> for NoRoom {
    ghost use Rattle.std.specs.Prelude.{◌≡◌};
    ghost use Rattle.ccan_language.specs.declared.no_room.NoRoom.TheVariants.{Memory};

    ghost from_gives = { λ _ e. e ≡ Memory };

    fn from(_refused: AllocError) -> NoRoom {
        NoRoom::Memory
    }
}
