//! How one port of a chip shows another what it has seen: by a note, which can go from the thread of the one to that of
//! the other.
ghost use Rattle.std.specs.Prelude.{◌≡◌};
ghost use Rattle.ccan_registers.specs.ChipSteps.{ChipGoes};
ghost use Rattle.ccan_registers.specs.Notes.{Heeds};

use ccan_chip::ChipPort;
use ccan_endless::Note;

/// What the port has seen of the chip so far, for another port of it.
pub fn tell(chip: &mut ChipPort) -> Note
    ensures kept { chip.new ≡ chip.old }
    ensures memory { result.memory ≡ chip.old.port.pass.memory }
    ensures told { result.whole ≡ chip.old.port.whole }
{
    chip.tell()
}

/// Shows the port what the note says: what the port does from now on comes after all that the port of the note had
/// seen.
pub fn heed(chip: &mut ChipPort, note: Note)
    requires note { note.memory ≡ chip.old.port.pass.memory }
    ensures settings { chip.new.settings ≡ chip.old.settings }
    ensures goes { ChipGoes chip.old.port chip.new.port (λ terms seen added.
        Heeds terms.port note.whole seen added) }
{
    chip.heed(note);
}
