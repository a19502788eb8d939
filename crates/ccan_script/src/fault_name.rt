ghost use Rattle.std.specs.Prelude.{◌≡◌};
ghost use Rattle.serde_json.specs.View.{view};
ghost use Rattle.ccan_script.specs.FaultName.{fault_named, fault_in};

use ccan_bus::Fault;
use serde_json::Value;

/// What spoils a frame, by its name.
#[tactic(auto, unfolding(crate::specs::FaultName::fault_named))]
pub(crate) fn fault_named(word: &str) -> Option<Fault>
    ensures { result ≡ fault_named word.now }
{
    match word.as_bytes() {
        b"none" => Some(Fault::Quiet),
        b"stuff" => Some(Fault::Stuff),
        b"form" => Some(Fault::Form),
        b"bit1" => Some(Fault::Bit1),
        b"bit0" => Some(Fault::Bit0),
        b"crc" => Some(Fault::Crc),
        _ => None,
    }
}

/// What the member `fault` of a round names, nothing if there is no such member.
#[tactic(auto, unfolding(crate::specs::FaultName::fault_in))]
pub fn fault_in(line: &Value) -> Option<Fault>
    ensures { result ≡ fault_in (view line.now) }
{
    match line.get("fault") {
        Some(member) => fault_named(member.as_str()?),
        None => Some(Fault::Quiet),
    }
}
