ghost use Rattle.std.specs.Prelude.{Option, ◌≤◌, IfOk};
ghost use Rattle.serde_json.specs.View.{view};
ghost use Rattle.serde_json.specs.Data.{Data};
ghost use Rattle.ccan_line.specs.Limits.{most_nodes};
ghost use Rattle.ccan_script.specs.LineFault.{ReadsLine};
ghost use Rattle.ccan_script.specs.declared.line_fault.LineFault.{LineFault};
ghost use Rattle.ccan_script.specs.declared.line_context.LineContext.{LineContext};

use crate::line_context::LineContext;
use crate::line_fault::LineFault;
use serde_json::Value;

/// A line of a script, read from its JSON value.
pub trait ScriptLine: Sized + Drop {
    /// What is wrong with the value as such a line, if something is.
    ghost fault: { LineContext → Data → Option LineFault };

    /// The line says what a value without fault says.
    ghost says: { Data → Self → Type 0 };

    /// The numbers of the line are in their ranges.
    ghost fits: { LineContext → Self → Type 0 };

    fn read(value: &Value, context: LineContext) -> Result<Self, LineFault>
        requires { context.nodes ≤ most_nodes }
        ensures reads { ReadsLine (fault context (view value.now)) (says (view value.now)) result }
        ensures fits { IfOk result (fits context) };
}
