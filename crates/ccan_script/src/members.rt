//! The checks of a line or a frame by its row of the table of members, each made in one place for all rows.

ghost use Rattle.std.specs.Prelude.{◌≡◌, ◌-◌, ◌^◌, false, is_some, option_and_then};
ghost use Rattle.std.specs.Prelude.{string_bytes};
ghost use Rattle.std.specs.List.{list_all, list_any};
ghost use Rattle.std.specs.Option.{option_map_or};
ghost use Rattle.std.specs.Str.{bytes_eq};
ghost use Rattle.std.specs.BTreeMap.{keys};
ghost use Rattle.serde_json.specs.Find.{as_str};
ghost use Rattle.serde_json.specs.View.{view};
ghost use Rattle.ccan_accept.specs.Frame.{identifier_bits};
ghost use Rattle.ccan_script.specs.FaultName.{fault_named};
ghost use Rattle.ccan_script.specs.FlagName.{flag_named};
ghost use Rattle.ccan_script.specs.FrameLine.{is_data_text};
ghost use Rattle.ccan_script.specs.Json.{has_only, number_in};
ghost use Rattle.ccan_script.specs.LineFault.{ReadsLine};
ghost use Rattle.ccan_script.specs.Member.{text_of, texts_of};
ghost use Rattle.ccan_script.specs.MemberName.{name_text};
ghost use Rattle.ccan_script.specs.Members.{are_few, is_of_kind, range_of, has_member, has_members};
ghost use Rattle.ccan_script.specs.Members.{is_in_its_range, members_fault};
ghost use Rattle.ccan_script.specs.RegisterSet.{settings_in};

use crate::fault_name::fault_named;
use crate::flag_name::flag_named;
use crate::frame_data::is_data_text;
use crate::json::word_in;
use crate::line_context::LineContext;
use crate::line_fault::LineFault;
use crate::member::{Kind, Member, Range};
use crate::member_name::MemberName;
use crate::register_set::settings_in;
use ccan_line::MAX_FRAMES;
use serde_json::{Map, Value};

/// Whether a value is registers with texts of four digits.
fn are_settings(value: &Value) -> bool
    ensures { result ≡ is_some (settings_in (view value.now)) }
{
    settings_in(value).is_some()
}

/// Whether a value names a flag.
fn is_flag(value: &Value) -> bool
    ensures { result ≡ is_some (option_and_then flag_named (as_str (view value.now))) }
{
    match value.as_str() {
        Some(word) => flag_named(word).is_some(),
        None => false,
    }
}

/// Whether a value names what spoils a frame.
fn is_fault(value: &Value) -> bool
    ensures { result ≡ is_some (option_and_then fault_named (as_str (view value.now))) }
{
    match value.as_str() {
        Some(word) => fault_named(word).is_some(),
        None => false,
    }
}

/// Whether a value is the data of a frame.
fn is_data(value: &Value) -> bool
    ensures { result ≡ option_map_or is_data_text (as_str (view value.now)) false }
{
    match value.as_str() {
        Some(text) => is_data_text(text),
        None => false,
    }
}

/// Whether a value is a list of not too many frames.
fn are_few(value: &Value) -> bool
    ensures { result ≡ are_few (view value.now) }
{
    match value.as_array() {
        Some(frames) => frames.as_slice().len() <= MAX_FRAMES,
        None => false,
    }
}

/// Whether a value is of a kind.
#[tactic(auto, unfolding(crate::specs::Members::is_of_kind))]
pub fn is_of_kind(value: &Value, kind: Kind) -> bool
    ensures { result ≡ is_of_kind kind (view value.now) }
{
    match kind {
        Kind::Operation => true,
        Kind::Digits => word_in(value).is_some(),
        Kind::Registers => are_settings(value),
        Kind::Flag => is_flag(value),
        Kind::FaultName => is_fault(value),
        Kind::Frames => are_few(value),
        Kind::Data => is_data(value),
        Kind::Number(_) => value.as_u64().is_some(),
    }
}

/// Whether a line or a frame has a member, unless it may be left out, and its value is of its kind.
#[tactic(auto, unfolding(crate::specs::Members::has_member))]
fn has_member(line: &Value, member: &Member) -> bool
    ensures { result ≡ has_member (view line.now) member.now }
{
    match line.get(member.text()) {
        Some(value) => is_of_kind(value, member.kind()),
        None => !member.is_needed(),
    }
}

/// Whether a member of this name is in the row.
fn is_among(name: &str, row: &[Member]) -> bool
    ensures { result ≡ list_any (λ m. bytes_eq (text_of m) name.now) row.now }
{
    // Bytes that differ early are told apart without a call.
    row.iter()
        .any(|member| member.text().as_bytes() == name.as_bytes())
}

fn are_among(object: &Map<String, Value>, row: &[Member]) -> bool
    ensures { result
        ≡ list_all (λ name. list_any (λ m. bytes_eq (text_of m) (string_bytes name)) row.now)
        (keys object.now) }
{
    object.keys().all(|name| is_among(name.as_str(), row))
}

/// Whether a value is an object with no other members than those of the row.
#[tactic(auto, unfolding(crate::specs::Json::has_only))]
pub fn has_only_members(value: &Value, row: &[Member]) -> bool
    ensures { result ≡ has_only (texts_of row.now) (view value.now) }
{
    match value.as_object() {
        Some(object) => are_among(object, row),
        None => false,
    }
}

/// Whether a line or a frame has each of these members.
fn has_each(line: &Value, row: &[Member]) -> bool
    ensures { result ≡ list_all (has_member (view line.now)) row.now }
{
    row.iter().all(|member| has_member(line, member))
}

/// Whether a line or a frame has the members of its row and no others, each of its kind.
#[tactic(auto, unfolding(crate::specs::Members::has_members))]
fn has_members(line: &Value, row: &[Member]) -> bool
    ensures { result ≡ has_members row.now (view line.now) }
{
    has_only_members(line, row) && has_each(line, row)
}

/// The number of the member of this name, 0 if it has none.
#[tactic(auto, unfolding(crate::specs::Json::whole_in))]
pub(crate) fn number_of(line: &Value, name: MemberName) -> u64
    ensures { result ≡ number_in (name_text name) (view line.now) }
{
    line.get(name.text()).and_then(Value::as_u64).unwrap_or(0)
}

/// The greatest identifier of a frame.
fn greatest_identifier(is_extended: bool) -> u64
    ensures { result ≡ 2 ^ identifier_bits is_extended - 1 }
{
    if is_extended { 536_870_911 } else { 2_047 }
}

/// The least and the greatest number of a range in a line or frame.
#[tactic(auto, unfolding(crate::specs::Members::range_of))]
pub fn range_of(line: &Value, range: Range, context: LineContext) -> (u64, u64)
    ensures { result ≡ range_of context (view line.now) range }
{
    match range {
        Range::Between(least, greatest) => (least, greatest),
        Range::Object => (1, u64::from(context.profile.objects())),
        Range::Sender => (1, u64::from(context.nodes)),
        Range::Node => (0, u64::from(context.nodes)),
        Range::Identifier => {
            let is_extended = number_of(line, MemberName::Xtd) == 1;
            (0, greatest_identifier(is_extended))
        }
    }
}

/// Whether the number of a member is in its range.
#[tactic(auto, unfolding(crate::specs::Members::is_in_its_range))]
pub fn is_in_its_range(line: &Value, member: &Member, context: LineContext) -> bool
    ensures { result ≡ is_in_its_range context (view line.now) member.now }
{
    match member.kind().range() {
        Some(range) => {
            let (least, greatest) = range_of(line, range, context);
            let number = number_of(line, member.name());
            least <= number && number <= greatest
        }
        None => true,
    }
}

/// Whether each of these numbers of a line or a frame is in its range.
fn are_in_range(line: &Value, numbers: &[Member], context: LineContext) -> bool
    ensures { result ≡ list_all (is_in_its_range context (view line.now)) numbers.now }
{
    numbers
        .iter()
        .all(|member| is_in_its_range(line, member, context))
}

/// Checks a line or a frame by its row, and then the ranges of these numbers in turn.
#[tactic(auto, unfolding(crate::specs::Members::members_fault))]
pub fn check_members(
    line: &Value,
    row: &[Member],
    numbers: &[Member],
    context: LineContext,
) -> Result<(), LineFault>
    ensures { ReadsLine (members_fault context row.now numbers.now (view line.now))
        (λ _. Unit {0}) result }
{
    if !has_members(line, row) {
        return Err(LineFault::Shape);
    }
    if !are_in_range(line, numbers, context) {
        return Err(LineFault::Range);
    }
    Ok(())
}
