ghost use Rattle.std.specs.Prelude.{◌≡◌, ◌≤◌, length};
ghost use Rattle.serde_json.specs.View.{view};
ghost use Rattle.ccan_script.specs.FlagName.{flag_name, flag_named, flag_in};

use ccan_ram::Flag;
use serde_json::Value;

/// The name of a flag in scripts and printed lines.
#[tactic(auto, unfolding(crate::specs::FlagName::flag_name))]
pub(crate) fn flag_name(flag: Flag) -> &'static str
    ensures text { result.now ≡ flag_name flag }
    ensures len { length result.now ≤ 6 }
{
    match flag {
        Flag::NewDat => "newdat",
        Flag::MsgLst => "msglst",
        Flag::IntPnd => "intpnd",
        Flag::TxRqst => "txrqst",
        Flag::MsgVal => "msgval",
    }
}

/// The flag of this name.
#[tactic(auto, unfolding(crate::specs::FlagName::flag_named))]
pub(crate) fn flag_named(word: &str) -> Option<Flag>
    ensures { result ≡ flag_named word.now }
{
    match word.as_bytes() {
        b"newdat" => Some(Flag::NewDat),
        b"msglst" => Some(Flag::MsgLst),
        b"intpnd" => Some(Flag::IntPnd),
        b"txrqst" => Some(Flag::TxRqst),
        b"msgval" => Some(Flag::MsgVal),
        _ => None,
    }
}

/// The flag that the member `flag` of a line names, if it names one.
#[tactic(auto, unfolding(crate::specs::FlagName::flag_in))]
pub fn flag_in(line: &Value) -> Option<Flag>
    ensures { result ≡ flag_in (view line.now) }
{
    flag_named(line.get("flag")?.as_str()?)
}
