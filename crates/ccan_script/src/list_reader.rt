ghost use Rattle.std.specs.Prelude.{◌≤◌, option_map, All, IfOk, length};
ghost use Rattle.serde_json.specs.Find.{get};
ghost use Rattle.serde_json.specs.View.{view};
ghost use Rattle.ccan_line.specs.Limits.{most_lines, most_nodes};
ghost use Rattle.ccan_script.specs.Reader.{ReadsList};

use crate::line_context::LineContext;
use crate::list_name::ListName;
use crate::script_error::ScriptError;
use crate::script_line::ScriptLine;
use ccan_line::MAX_LINES;
use serde_json::Value;
use std::alloc::Global;

/// The lines of a list of at most this many, none if there is no such member.
pub(crate) fn lines_of<L: ScriptLine>(
    alloc: Global,
    list: ListName,
    most: usize,
    member: Option<&Value>,
    context: LineContext,
) -> Result<Vec<L>, ScriptError>
    requires { context.nodes ≤ most_nodes }
    ensures reads { ReadsList list most (L.fault context) L.says
        (option_map (λ v. view v.now) member.entry) result }
    ensures few { IfOk result (λ lines. length lines.items ≤ most) }
    ensures fits { IfOk result (λ lines. All (L.fits context) lines.items) }
{
    let Some(member) = member else {
        return Ok(Vec::new(alloc));
    };
    let Some(values) = member.as_array() else {
        return Err(ScriptError::Shape { list, index: 0 });
    };
    if values.len() > most {
        return Err(ScriptError::TooMany { list });
    }
    let mut lines = Vec::with_capacity(alloc, values.len())?;
    for (index, value) in values.iter().enumerate() {
        match L::read(value, context) {
            Ok(line) => lines.push(line)?,
            Err(fault) => return Err(fault.at(list, index)),
        }
    }
    Ok(lines)
}

/// The lines of a port, none if a script has no such member.
pub(crate) fn port_lines<L: ScriptLine>(
    alloc: Global,
    list: ListName,
    script: &Value,
    name: &str,
    context: LineContext,
) -> Result<Vec<L>, ScriptError>
    requires { context.nodes ≤ most_nodes }
    ensures reads { ReadsList list most_lines (L.fault context) L.says
        (get name.now (view script.now)) result }
    ensures few { IfOk result (λ lines. length lines.items ≤ most_lines) }
    ensures fits { IfOk result (λ lines. All (L.fits context) lines.items) }
{
    lines_of(alloc, list, MAX_LINES, script.get(name), context)
}
