ghost use Rattle.std.specs.Prelude.{◌≡◌, ◌≤◌, IfOk};
ghost use Rattle.serde_json.specs.Find.{get};
ghost use Rattle.serde_json.specs.View.{view};
ghost use Rattle.ccan_ram.specs.Tries.{IsTries};
ghost use Rattle.ccan_script.specs.Script.{profile_numbered};
ghost use Rattle.ccan_script.specs.ScriptNumber.{number_text, least_of, greatest_of, default_of};
ghost use Rattle.ccan_script.specs.Reader.{ReadsNumber};

use crate::list_name::ListName;
use crate::script_error::ScriptError;
use crate::script_number::ScriptNumber;
use ccan_object::Profile;
use ccan_ram::Tries;
use serde_json::Value;

pub(crate) const TOP_SHAPE: ScriptError = ScriptError::Shape {
    list: ListName::Top,
    index: 0,
};

const TOP_RANGE: ScriptError = ScriptError::Range {
    list: ListName::Top,
    index: 0,
};

/// A whole number in a range, or the default if there is no such member.
#[tactic(auto, unfolding(crate::specs::Script::number_fault, crate::specs::Script::number_or))]
fn number_between(
    value: &Value,
    name: &str,
    least: u64,
    greatest: u64,
    default: u64,
) -> Result<u64, ScriptError>
    requires default_least { least ≤ default }
    requires default_greatest { default ≤ greatest }
    ensures reads { ReadsNumber least greatest default (get name.now (view value.now)) result }
    ensures within { IfOk result (λ n. (least ≤ n) × (n ≤ greatest)) }
{
    let Some(member) = value.get(name) else {
        return Ok(default);
    };
    let Some(number) = member.as_u64() else {
        return Err(TOP_SHAPE);
    };
    if number < least || greatest < number {
        return Err(TOP_RANGE);
    }
    Ok(number)
}

/// A number of a script by its row: a whole number in its range, or the default if there is no such member.
pub fn number_member(value: &Value, number: ScriptNumber) -> Result<u64, ScriptError>
    ensures reads { ReadsNumber (least_of number) (greatest_of number) (default_of number)
        (get (number_text number) (view value.now)) result }
    ensures within { IfOk result (λ n. (least_of number ≤ n) × (n ≤ greatest_of number)) }
{
    let row = number.row();
    number_between(value, row.name, row.least, row.greatest, row.default)
}

/// The profile of this number.
pub fn profile_numbered(number: u64) -> Profile
    ensures { result ≡ profile_numbered number }
{
    match number {
        2 => Profile::Two,
        _ => Profile::One,
    }
}

/// The number of tries that a script names.
pub(crate) fn tries_of(number: u64) -> Tries
    requires { IsTries number }
    ensures { result ≡ number }
{
    Tries::new(number as u16).unwrap()
}
