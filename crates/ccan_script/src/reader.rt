ghost use Rattle.std.specs.Prelude.{map};
ghost use Rattle.serde_json.specs.View.{view};
ghost use Rattle.ccan_script.specs.Reader.{ReadsAmong, ReadsScript};

use crate::json::has_only;
use crate::line_context::LineContext;
use crate::line_counts::counts_of;
use crate::list_name::ListName;
use crate::list_reader::port_lines;
use crate::number::{TOP_SHAPE, number_member, profile_numbered, tries_of};
use crate::order::read_order;
use crate::script_error::ScriptError;
use crate::script_number::ScriptNumber;
use ccan_line::Script;
use serde_json::Value;
use std::alloc::Global;

/// The members that a script may have.
pub const SCRIPT_MEMBERS: [&str; 8] = [
    "profile", "quota", "tries", "nodes", "if1", "if2", "bus", "order",
];

/// The script that a value means, which may have the members of these names.
pub(crate) fn script_among(
    alloc: Global,
    value: &Value,
    members: &[&str],
) -> Result<Script, ScriptError>
    ensures { ReadsAmong (map (λ name. name.now) members.now) (view value.now) result }
{
    if !has_only(value, members) {
        return Err(TOP_SHAPE);
    }
    let profile = number_member(value, ScriptNumber::Profile)?;
    let quota = number_member(value, ScriptNumber::Quota)?;
    let tries = number_member(value, ScriptNumber::Tries)?;
    let nodes = number_member(value, ScriptNumber::Nodes)?;
    let context = LineContext {
        profile: profile_numbered(profile),
        nodes: nodes as u8,
    };
    let if1 = port_lines(alloc, ListName::If1, value, "if1", context)?;
    let if2 = port_lines(alloc, ListName::If2, value, "if2", context)?;
    let bus = port_lines(alloc, ListName::Bus, value, "bus", context)?;
    let counts = counts_of(&if1, &if2, &bus);
    let order = read_order(alloc, value, counts, context)?;
    Ok(Script {
        profile: context.profile,
        quota,
        tries: tries_of(tries),
        nodes: context.nodes,
        if1,
        if2,
        bus,
        order,
    })
}

/// The script that the bytes of a JSON text are, or why they are not a script: lack of memory, or the first fault in the
/// order of the checks.
pub fn read_script(alloc: Global, bytes: &[u8]) -> Result<Script, ScriptError>
    ensures { ReadsScript bytes.now result }
{
    let value = Value::from_slice(alloc, bytes)?;
    script_among(alloc, &value, &SCRIPT_MEMBERS)
}
