use crate::line_answer::LineAnswer;
use ccan_ram::PortName;

/// What a port asks before each of its lines, and what may stop it there.
///
/// A gate is shown the answers to the lines that ran, so it can't be asked for a line before all that come before it have
/// run. It takes no runtime handle: it may turn in a counted loop over atomics, but it locks nothing and waits for nobody.
/// With it a test makes one port wait until another has come as far, or ends a run in the middle.
pub trait Gate {
    ghost use Rattle.std.specs.Prelude.{Bool, List};
    ghost use Rattle.ccan_ram.specs.declared.port.PortName.{PortName};
    ghost use Rattle.ccan_line.specs.declared.line_answer.LineAnswer.{LineAnswer};

    /// Asked like this by a port with these answers, it may answer this and be this afterwards.
    ghost enters: { Self → PortName → List LineAnswer → Bool → Self → Type 0 };

    /// Whether the port may run its next line, after those that have these answers.
    fn enter(&mut self, port: PortName, answers: &[LineAnswer]) -> bool
        ensures { enters self.old port answers.now result self.new };
}

/// A gate that stops nothing.
#[derive(Clone, Copy, PartialEq, Eq, Debug, Default)]
pub struct FreeGate;

impl Gate for FreeGate {
    ghost use Rattle.std.specs.Prelude.{◌≡◌, true};

    ghost enters = { λ _ _ _ answer _. answer ≡ true };

    fn enter(&mut self, _port: PortName, _answers: &[LineAnswer]) -> bool {
        true
    }
}
