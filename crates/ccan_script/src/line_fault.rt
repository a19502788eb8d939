use crate::list_name::ListName;
use crate::script_error::ScriptError;

/// What is wrong with a line of a script.
#[derive(Clone, Copy, PartialEq, Eq, PartialOrd, Ord, Hash, Debug)]
pub enum LineFault {
    /// It isn't of the shape that its kind of line has.
    Shape,
    /// A number in it is out of its range.
    Range,
}

impl LineFault {
    ghost use Rattle.std.specs.Prelude.{◌≡◌};
    ghost use Rattle.ccan_script.specs.LineFault.{refusal_at};

    /// The refusal of a script with such a line.
    pub fn at(self, list: ListName, index: usize) -> ScriptError
        ensures { result ≡ refusal_at list index self }
    {
        match self {
            LineFault::Shape => ScriptError::Shape { list, index },
            LineFault::Range => ScriptError::Range { list, index },
        }
    }
}
