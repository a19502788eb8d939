ghost use Rattle.std.specs.Prelude.{◌≡◌, option_map};
ghost use Rattle.serde_json.specs.View.{view, members_view};
ghost use Rattle.ccan_script.specs.RegisterSet.{register_named, setting, settings, settings_in};

use crate::json::word_in;
use ccan_line::RegisterSet;
use ccan_object::Reg;
use serde_json::{Map, Value};

/// The register of a name in a script.
#[tactic(auto, unfolding(crate::specs::RegisterSet::register_named))]
pub fn register_named(name: &str) -> Option<Reg>
    ensures { result ≡ register_named name.now }
{
    // Bytes go down one tree of tests; a text would be compared with each of the ten in turn.
    match name.as_bytes() {
        b"cmask" => Some(Reg::CMask),
        b"mask1" => Some(Reg::Mask1),
        b"mask2" => Some(Reg::Mask2),
        b"arb1" => Some(Reg::Arb1),
        b"arb2" => Some(Reg::Arb2),
        b"ctrl" => Some(Reg::Ctrl),
        b"dataa1" => Some(Reg::DataA1),
        b"dataa2" => Some(Reg::DataA2),
        b"datab1" => Some(Reg::DataB1),
        b"datab2" => Some(Reg::DataB2),
        _ => None,
    }
}

/// What a member sets: the register of its name, to the number of its text.
#[tactic(auto, unfolding(crate::specs::RegisterSet::setting))]
fn setting(name: &str, value: &Value) -> Option<(Reg, u16)>
    ensures { result ≡ setting name.now (view value.now) }
{
    let register = register_named(name)?;
    let word = word_in(value)?;
    Some((register, word))
}

/// What the members set, each a register, in their order.
fn settings(members: &Map<String, Value>) -> Option<RegisterSet>
    ensures { option_map (λ set. set.items) result ≡ settings (members_view members.now.entries) }
{
    let mut set = RegisterSet::new();
    for (name, value) in members.iter() {
        set.push(setting(name.as_str(), value)?);
    }
    Some(set)
}

/// What an object sets, `None` if a member of it isn't a register with its number.
#[tactic(auto, unfolding(crate::specs::RegisterSet::settings_in))]
pub(crate) fn settings_in(value: &Value) -> Option<RegisterSet>
    ensures { option_map (λ set. set.items) result ≡ settings_in (view value.now) }
{
    settings(value.as_object()?)
}
