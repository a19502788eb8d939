ghost use Rattle.std.specs.Prelude.{◌≡◌};
ghost use Rattle.serde_json.specs.View.{view};
ghost use Rattle.ccan_script.specs.FlagLine.{flag_of_line};

use crate::flag_name::flag_in;
use ccan_ram::Flag;
use serde_json::Value;

/// The flag of a line without faults that has one.
#[tactic(auto, unfolding(crate::specs::FlagLine::flag_of_line))]
pub(crate) fn flag_of_line(line: &Value) -> Flag
    ensures { result ≡ flag_of_line (view line.now) }
{
    flag_in(line).unwrap_or(Flag::NewDat)
}
