//! Scripts for a race: a script, and the ports of which lines run alone before the race begins.

ghost use Rattle.std.specs.Prelude.{◌≡◌, Some, None, IfOk, codes, nat_le, if◌then◌else◌};
ghost use Rattle.std.specs.Result.{result_err};
ghost use Rattle.serde_json.specs.Find.{get};
ghost use Rattle.serde_json.specs.View.{view};
ghost use Rattle.ccan_line.specs.Order.{times};
ghost use Rattle.ccan_line.specs.Port.{count_of};
ghost use Rattle.ccan_line.specs.Script.{fields_of};
ghost use Rattle.ccan_script.specs.Before.{ChecksShares};
ghost use Rattle.ccan_script.specs.Race.{NamesFew, ReadsBefore, ReadsRace, ReadsRaceValue};

use crate::line_context::LineContext;
use crate::list_name::ListName;
use crate::list_reader::lines_of;
use crate::order::times;
use crate::race_script::RaceScript;
use crate::reader::script_among;
use crate::script_error::ScriptError;
use ccan_line::{MAX_NAMES, Script};
use ccan_ram::PortName;
use serde_json::Value;
use std::alloc::Global;

/// The members that a script for a race may have.
pub const RACE_MEMBERS: [&str; 9] = [
    "profile", "quota", "tries", "nodes", "if1", "if2", "bus", "order", "before",
];

/// Checks that a port is named at most as often as it has lines.
fn check_share(before: &[PortName], port: PortName, lines: usize) -> Result<(), ScriptError>
    ensures { result_err result ≡ (if nat_le (times port before.now) lines then None
        else Some (ScriptError.Before port)) }
{
    if times(before, port) <= lines {
        Ok(())
    } else {
        Err(ScriptError::Before { port })
    }
}

/// Checks how often each port is named.
fn check_shares(before: &[PortName], script: &Script) -> Result<(), ScriptError>
    ensures { ChecksShares (count_of (fields_of script.now)) before.now result }
{
    check_share(before, PortName::If1, script.if1.len())?;
    check_share(before, PortName::If2, script.if2.len())?;
    check_share(before, PortName::Bus, script.bus.len())
}

/// The ports of which lines run before a race, none if there is no such member.
fn read_before(alloc: Global, value: &Value, script: &Script) -> Result<Vec<PortName>, ScriptError>
    ensures reads { ReadsBefore (count_of (fields_of script.now))
        (get (codes "before") (view value.now)) result }
    ensures few { IfOk result (λ before. NamesFew (fields_of script.now) before.items) }
{
    let context = LineContext {
        profile: script.profile,
        nodes: script.nodes,
    };
    let member = value.get("before");
    let before = lines_of(alloc, ListName::Before, MAX_NAMES, member, context)?;
    check_shares(&before, script)?;
    Ok(before)
}

/// The script for a race that a value means.
fn race_of(alloc: Global, value: &Value) -> Result<RaceScript, ScriptError>
    ensures { ReadsRaceValue (view value.now) result }
{
    let script = script_among(alloc, value, &RACE_MEMBERS)?;
    let before = read_before(alloc, value, &script)?;
    Ok(RaceScript { script, before })
}

/// The script for a race that the bytes of a JSON text are, or why they are not one: lack of memory, or the first fault in the
/// order of the checks, which are those of a script and then those of the member `before`.
pub fn read_race(alloc: Global, bytes: &[u8]) -> Result<RaceScript, ScriptError>
    ensures { ReadsRace bytes.now result }
{
    let value = Value::from_slice(alloc, bytes)?;
    race_of(alloc, &value)
}
