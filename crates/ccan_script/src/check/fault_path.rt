//! The path of the fault that reading a script answers.

ghost use Rattle.std.specs.Prelude.{◌≡◌, ◌≤◌, ◌++◌, IfOk, codes, decimal, option_map, slice_get, string_bytes};
ghost use Rattle.serde_json.specs.Find.{get};
ghost use Rattle.serde_json.specs.View.{view};
ghost use Rattle.ccan_line.specs.Limits.{most_nodes};
ghost use Rattle.ccan_script.specs.Json.{lines_in};
ghost use Rattle.ccan_script.specs.ListName.{list_text};
ghost use Rattle.ccan_script.specs.ScriptNumber.{number_text, least_of, greatest_of, default_of};
ghost use Rattle.ccan_script.specs.ScriptCheck.{number_or_greatest, context_of, place_in, line_path, fault_path};

use crate::check::first_fault::{bus_place, host_place};
use crate::check::line_path::{LinePath, Part, place_path};
use crate::json::items_in;
use crate::line_context::LineContext;
use crate::list_name::ListName;
use crate::number::{number_member, profile_numbered};
use crate::script_error::ScriptError;
use crate::script_number::ScriptNumber;
use serde_json::Value;
use std::alloc::{AllocError, Global};

/// A number of the script, or the greatest if that is at fault.
fn number_or_greatest(value: &Value, number: ScriptNumber) -> u64
    ensures number { result ≡ number_or_greatest (least_of number) (greatest_of number)
        (default_of number) (get (number_text number) (view value.now)) }
    ensures within { result ≤ greatest_of number }
{
    match number_member(value, number) {
        Ok(member) => member,
        Err(_) => number.row().greatest,
    }
}

/// What the ranges of the lines follow from. If `profile` or `nodes` is at fault, it is the greatest, so that it causes no
/// fault of a line.
pub(crate) fn context_of(value: &Value) -> LineContext
    ensures context { result ≡ context_of (view value.now) }
    ensures nodes { result.nodes ≤ most_nodes }
{
    let profile = number_or_greatest(value, ScriptNumber::Profile);
    let nodes = number_or_greatest(value, ScriptNumber::Nodes);
    LineContext {
        profile: profile_numbered(profile),
        nodes: nodes as u8,
    }
}

/// The name of a list, as the member of a script.
fn list_text(list: ListName) -> &'static str
    ensures { result.now ≡ list_text list }
{
    match list {
        ListName::Top => "top",
        ListName::If1 => "if1",
        ListName::If2 => "if2",
        ListName::Bus => "bus",
        ListName::Order => "order",
        ListName::Before => "before",
    }
}

/// The place of the first fault in a line of a list.
fn place_in(list: ListName, context: LineContext, line: &Value) -> LinePath
    requires { context.nodes ≤ most_nodes }
    ensures { result ≡ place_in list context (view line.now) }
{
    match list {
        ListName::If1 | ListName::If2 => host_place(line, context),
        ListName::Bus => bus_place(line, context),
        ListName::Top | ListName::Order | ListName::Before => LinePath {
            frame: None,
            part: Part::Whole,
        },
    }
}

/// The line of a list, by its index.
fn line_at<'a>(value: &'a Value, list: &str, index: usize) -> Option<&'a Value>
    ensures { option_map (λ line. view line.now) result
        ≡ slice_get (lines_in (get list.now (view value.now))) index }
{
    let lines = items_in(value, list);
    if index < lines.len() {
        Some(&lines[index])
    } else {
        None
    }
}

/// The path of a line of a list.
fn indexed(alloc: Global, list: &str, index: usize) -> Result<String, AllocError>
    ensures { IfOk result (λ text. string_bytes text
        ≡ list.now ++ (codes "[" ++ (decimal index ++ codes "]"))) }
{
    format!(in alloc; "{list}[{index}]")
}

/// The path of the first fault of a line of a list, or of the list.
fn line_path(
    alloc: Global,
    value: &Value,
    list: ListName,
    index: usize,
) -> Result<String, AllocError>
    ensures { IfOk result (λ text. string_bytes text ≡ line_path (view value.now) list index) }
{
    let name = list_text(list);
    match line_at(value, name, index) {
        None => format!(in alloc; "{name}"),
        Some(line) => {
            let place = place_in(list, context_of(value), line);
            let path = indexed(alloc, name, index)?;
            place_path(alloc, path.as_str(), place)
        }
    }
}

/// The path of the fault that reading a script answers, empty if it is one of the script itself or none.
pub(crate) fn fault_path(
    alloc: Global,
    value: &Value,
    error: ScriptError,
) -> Result<String, AllocError>
    ensures { IfOk result (λ text. string_bytes text ≡ fault_path (view value.now) error) }
{
    match error {
        ScriptError::Shape {
            list: ListName::Top,
            ..
        }
        | ScriptError::Range {
            list: ListName::Top,
            ..
        }
        | ScriptError::Memory => Ok(String::new(alloc)),
        ScriptError::Shape { list, index } | ScriptError::Range { list, index } => {
            line_path(alloc, value, list, index)
        }
        ScriptError::TooMany { list } => {
            let name = list_text(list);
            format!(in alloc; "{name}")
        }
        ScriptError::Order { .. } => format!(in alloc; "order"),
        ScriptError::Before { .. } => format!(in alloc; "before"),
        ScriptError::NotJson => format!(in alloc; "not JSON"),
    }
}
