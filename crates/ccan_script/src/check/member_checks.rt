//! What the checks of the members of a line, or of a frame, find: the first part at fault, by their order.

ghost use Rattle.std.specs.Prelude.{◌≡◌};
ghost use Rattle.serde_json.specs.View.{view, members_view};
ghost use Rattle.ccan_script.specs.FirstFault.{register_found, registers_found, part_at};
ghost use Rattle.ccan_script.specs.FirstFault.{shape_found, first_found, range_found, part_found};

use crate::check::line_path::Part;
use crate::json::word_in;
use crate::line_context::LineContext;
use crate::member::Member;
use crate::member_name::MemberName;
use crate::members::{has_only_members, is_in_its_range, is_of_kind};
use crate::register_set::register_named;
use serde_json::{Map, Value};

/// What is found at a member of `set`: that it is not a register, or that its register has no text of four digits.
fn register_found(name: &str, value: &Value) -> Option<Part>
    ensures { result ≡ register_found name.now (view value.now) }
{
    let Some(register) = register_named(name) else {
        return Some(Part::Member(MemberName::Set));
    };
    if word_in(value).is_some() {
        None
    } else {
        Some(Part::Register(register))
    }
}

/// What is found at the first member of `set` that is at fault.
fn registers_found(set: &Map<String, Value>) -> Option<Part>
    ensures { result ≡ registers_found (members_view set.now.entries) }
{
    for (name, value) in set.iter() {
        if let Some(part) = register_found(name.as_str(), value) {
            return Some(part);
        }
    }
    None
}

/// The part at fault if the value of a member is not of its kind.
fn part_at(member: &Member, value: &Value) -> Part
    ensures { result ≡ part_at member.now (view value.now) }
{
    let whole = Part::Member(member.name());
    if !member.kind().is_set() {
        return whole;
    }
    match value.as_object() {
        Some(set) => registers_found(set).unwrap_or(whole),
        None => whole,
    }
}

/// What is found at the shape of a member of a line or frame.
#[tactic(auto, unfolding(crate::specs::FirstFault::shape_found))]
fn shape_found(line: &Value, member: &Member) -> Option<Part>
    ensures { result ≡ shape_found (view line.now) member.now }
{
    let Some(value) = line.get(member.text()) else {
        return if member.is_needed() {
            Some(Part::Whole)
        } else {
            None
        };
    };
    if is_of_kind(value, member.kind()) {
        None
    } else {
        Some(part_at(member, value))
    }
}

/// What is found at the first member whose shape is at fault.
fn first_shape_found(line: &Value, members: &[Member]) -> Option<Part>
    ensures { result ≡ first_found (shape_found (view line.now)) members.now }
{
    for member in members {
        if let Some(part) = shape_found(line, member) {
            return Some(part);
        }
    }
    None
}

/// What is found at the range of a number of a line or frame.
#[tactic(auto, unfolding(crate::specs::FirstFault::range_found))]
fn range_found(line: &Value, member: &Member, context: LineContext) -> Option<Part>
    ensures { result ≡ range_found context (view line.now) member.now }
{
    if is_in_its_range(line, member, context) {
        None
    } else {
        Some(Part::Member(member.name()))
    }
}

/// What is found at the first number that is out of its range.
fn first_range_found(line: &Value, numbers: &[Member], context: LineContext) -> Option<Part>
    ensures { result ≡ first_found (range_found context (view line.now)) numbers.now }
{
    for member in numbers {
        if let Some(part) = range_found(line, member, context) {
            return Some(part);
        }
    }
    None
}

/// What is found at the members of a line or frame: that it has others, then the shape of each, then the ranges of its numbers.
/// Something is found exactly when the table of members refuses it ([`crate::check::laws`]).
#[tactic(auto, unfolding(crate::specs::FirstFault::part_found))]
pub(crate) fn part_found(
    line: &Value,
    members: &[Member],
    numbers: &[Member],
    context: LineContext,
) -> Option<Part>
    ensures { result ≡ part_found context members.now numbers.now (view line.now) }
{
    if !has_only_members(line, members) {
        return Some(Part::Whole);
    }
    match first_shape_found(line, members) {
        Some(part) => Some(part),
        None => first_range_found(line, numbers, context),
    }
}
