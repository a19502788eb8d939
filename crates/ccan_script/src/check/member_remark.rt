use crate::check::line_path::{Part, part_path, register_text};
use crate::check::report::Remark;
use crate::check::spot::{Spot, joined};
use crate::fault_name::fault_in;
use crate::flag_name::flag_in;
use crate::frame_data::data_in;
use crate::json::word_in;
use crate::line_context::LineContext;
use crate::member::{Kind, Range};
use crate::member_name::MemberName;
use crate::members::range_of;
use crate::register_set::register_named;
use ccan_line::MAX_FRAMES;
use ccan_object::{Profile, Reg};
use serde_json::Value;
use std::alloc::{AllocError, Global};

/// What is wrong with a value as a text of four hexadecimal digits.
fn digits_fault(value: &Value) -> Option<&'static str> {
    if word_in(value).is_some() {
        return None;
    }
    match value.as_str() {
        Some(text) if text.starts_with("0x") || text.starts_with("0X") => {
            Some("has 0x before it: write the four hexadecimal digits alone")
        }
        Some(_) => Some("is not four hexadecimal digits"),
        None => Some("is no text: write four hexadecimal digits in quotes, such as \"0088\""),
    }
}

/// What is wrong with a value as a whole number.
fn whole_fault(value: &Value) -> Option<&'static str> {
    if value.as_u64().is_some() {
        None
    } else if value.is_string() {
        Some("is a text: write a whole number, in decimal and without quotes")
    } else {
        Some("is not a whole number, written without sign, fraction and exponent")
    }
}

/// What is wrong with a value as the frames of a round.
fn frames_fault(value: &Value) -> Option<&'static str> {
    match value.as_array() {
        None => Some("is not a list of frames"),
        Some(frames) if frames.len() > MAX_FRAMES => Some("has more than 8 frames"),
        Some(_) => None,
    }
}

/// What is wrong with the shape of a member of a line, if something is.
fn shape_fault(line: &Value, value: &Value, kind: Kind) -> Option<&'static str> {
    match kind {
        Kind::Digits => digits_fault(value),
        Kind::Registers if !value.is_object() => Some("is not an object of registers"),
        Kind::Operation | Kind::Registers => None,
        Kind::Flag if flag_in(line).is_none() => {
            Some("is no flag: newdat, msglst, intpnd, txrqst or msgval")
        }
        Kind::FaultName if fault_in(line).is_none() => {
            Some("is no fault: none, stuff, form, bit1, bit0 or crc")
        }
        Kind::Data if data_in(line).is_none() => {
            Some("is not a text of two hexadecimal digits for each byte")
        }
        Kind::Flag | Kind::FaultName | Kind::Data => None,
        Kind::Frames => frames_fault(value),
        Kind::Number(_) => whole_fault(value),
    }
}

/// A remark on a value: its path, the value and what is wrong with it.
pub(crate) fn remark_on(
    alloc: Global,
    path: &str,
    spot: Spot<'_>,
    wrong: &str,
) -> Result<Remark, AllocError> {
    Ok(Remark {
        offset: spot.offset,
        text: joined(alloc, &[path, ": ", spot.shown(), " ", wrong])?,
    })
}

/// A remark on a member of this name.
pub(crate) fn remark_on_name(
    alloc: Global,
    path: &str,
    name: &str,
    wrong: &str,
    offset: usize,
) -> Result<Remark, AllocError> {
    let mut text = String::new(alloc);
    text.push_str(path)?;
    text.push_str(": \"")?;
    text.push_str(name)?;
    text.push_str("\" ")?;
    text.push_str(wrong)?;
    Ok(Remark { offset, text })
}

/// The path of a member.
pub(crate) fn member_path(alloc: Global, path: &str, name: &str) -> Result<String, AllocError> {
    let mut text = String::new(alloc);
    text.push_str(path)?;
    text.push('.')?;
    text.push_str(name)?;
    Ok(text)
}

/// What is wrong with a register of this name.
fn register_fault(name: &str) -> Option<&'static str> {
    if register_named(name).is_some() {
        None
    } else if name.bytes().any(|byte| byte.is_ascii_uppercase()) {
        Some("is no register: register names are lower case, such as arb2")
    } else {
        Some(
            "is no register: cmask, mask1, mask2, arb1, arb2, ctrl, dataa1, dataa2, datab1 or datab2",
        )
    }
}

/// A remark on the first member of a `set` that is not a register.
fn set_remark(alloc: Global, path: &str, set: Spot<'_>) -> Result<Option<Remark>, AllocError> {
    let Some(members) = set.value.as_object() else {
        return Ok(None);
    };
    for name in members.keys() {
        if let (Some(wrong), Some(spot)) = (
            register_fault(name.as_str()),
            set.member(name.as_str()),
        ) {
            return Ok(Some(remark_on_name(alloc, path, name.as_str(), wrong, spot.offset)?));
        }
    }
    Ok(None)
}

/// A remark on a register of a `set` that has no text of four digits.
pub(crate) fn register_remark(
    alloc: Global,
    path: &str,
    line: Spot<'_>,
    register: Reg,
) -> Result<Remark, AllocError> {
    let path = part_path(alloc, path, Part::Register(register))?;
    let spot = line
        .member("set")
        .and_then(|set| set.member(register_text(register)))
        .unwrap_or(line);
    let wrong = digits_fault(spot.value).unwrap_or("is refused");
    remark_on(alloc, path.as_str(), spot, wrong)
}

/// What may widen the range.
fn range_hint(range: Range, context: LineContext, greatest: u64) -> &'static str {
    match range {
        Range::Object if context.profile == Profile::One => " (33 to 64 with \"profile\": 2)",
        Range::Sender | Range::Node => " (\"nodes\" says how many other nodes there are)",
        Range::Identifier if greatest == 2_047 => " (more with \"xtd\": 1)",
        Range::Object | Range::Identifier | Range::Between(..) => "",
    }
}

/// A remark on a number that is out of its range.
fn range_remark(
    alloc: Global,
    path: &str,
    line: Spot<'_>,
    spot: Spot<'_>,
    range: Range,
    context: LineContext,
) -> Result<Remark, AllocError> {
    let (least, greatest) = range_of(line.value, range, context);
    let hint = range_hint(range, context, greatest);
    let wrong = format!(in alloc; "is not in {least} to {greatest}{hint}")?;
    remark_on(alloc, path, spot, wrong.as_str())
}

/// A remark on a member that is at fault: on its shape, else on its range or on what its values say together.
pub(crate) fn member_remark(
    alloc: Global,
    path: &str,
    line: Spot<'_>,
    name: MemberName,
    kind: Kind,
    context: LineContext,
) -> Result<Remark, AllocError> {
    let spot = line.member(name.text()).unwrap_or(line);
    let path = part_path(alloc, path, Part::Member(name))?;
    let path = path.as_str();
    if let Some(wrong) = shape_fault(line.value, spot.value, kind) {
        return remark_on(alloc, path, spot, wrong);
    }
    if let Some(range) = kind.range() {
        return range_remark(alloc, path, line, spot, range, context);
    }
    if let Some(remark) = set_remark(alloc, path, spot)? {
        return Ok(remark);
    }
    let text = joined(alloc, &[path, ": a node sends twice in one round"])?;
    Ok(Remark {
        offset: spot.offset,
        text,
    })
}
