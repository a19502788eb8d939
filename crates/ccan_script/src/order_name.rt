ghost use Rattle.std.specs.Prelude.{◌≡◌};
ghost use Rattle.serde_json.specs.View.{view};
ghost use Rattle.ccan_script.specs.OrderName.{port_in, port_named, port_fault, NameSays};

use crate::line_context::LineContext;
use crate::line_fault::LineFault;
use crate::script_line::ScriptLine;
use ccan_ram::PortName;
use serde_json::Value;

/// The port of this name.
#[tactic(auto, unfolding(crate::specs::OrderName::port_named))]
fn port_named(word: &str) -> Option<PortName>
    ensures { result ≡ port_named word.now }
{
    match word.as_bytes() {
        b"if1" => Some(PortName::If1),
        b"if2" => Some(PortName::If2),
        b"bus" => Some(PortName::Bus),
        _ => None,
    }
}

/// The port that a value names.
#[tactic(auto, unfolding(crate::specs::OrderName::port_in))]
pub(crate) fn port_in(value: &Value) -> Option<PortName>
    ensures { result ≡ port_in (view value.now) }
{
    port_named(value.as_str()?)
}

impl ScriptLine for PortName {
    ghost fault = { λ _. port_fault };

    ghost says = { NameSays };

    ghost fits = { λ _ _. Unit {0} };

    #[tactic(auto, unfolding(crate::specs::OrderName::port_fault, crate::specs::OrderName::port_of))]
    fn read(value: &Value, _context: LineContext) -> Result<PortName, LineFault> {
        port_in(value).ok_or(LineFault::Shape)
    }
}
