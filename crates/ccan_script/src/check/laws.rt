//! Laws of where faults are found. The function does nothing: its contract is the law.

ghost use Rattle.ccan_script.specs.CheckLaws.{FindsWhatIsRefused};

use crate::laws::lines_go_by_the_table;

/// A fault is found in the members of a line or of a frame exactly when its reader refuses them.
pub fn finds_what_is_refused()
    ensures { FindsWhatIsRefused }
{
    lines_go_by_the_table();
}
