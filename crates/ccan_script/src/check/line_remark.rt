use crate::check::json_text::item_after;
use crate::check::line_path::{LinePath, Part, frame_path};
use crate::check::member_remark::{member_remark, register_remark, remark_on, remark_on_name};
use crate::check::report::Remark;
use crate::check::spot::{Spot, joined};
use crate::line_context::LineContext;
use crate::member::{Kind, Member, frame_row};
use crate::member_name::MemberName;
use serde_json::Value;
use std::alloc::{AllocError, Global};

/// Says that a member is unknown here, and that these are known.
fn known_names(alloc: Global, members: &[Member]) -> Result<String, AllocError> {
    let mut text = String::new(alloc);
    text.push_str("is unknown here; known:")?;
    for member in members {
        text.push(' ')?;
        text.push_str(member.text())?;
    }
    Ok(text)
}

/// A remark on the first member that a line or a frame can't have.
fn unknown_remark(
    alloc: Global,
    path: &str,
    line: Spot<'_>,
    members: &[Member],
) -> Result<Option<Remark>, AllocError> {
    let Some(object) = line.value.as_object() else {
        return Ok(Some(remark_on(alloc, path, line, "is not an object")?));
    };
    for name in object.keys() {
        if members.iter().all(|member| member.text() != name.as_str()) {
            let offset = line
                .member(name.as_str())
                .map_or(line.offset, |spot| spot.offset);
            let wrong = known_names(alloc, members)?;
            let unknown = remark_on_name(alloc, path, name.as_str(), wrong.as_str(), offset)?;
            return Ok(Some(unknown));
        }
    }
    Ok(None)
}

/// The name of the first member that is missing.
fn missing_name(line: &Value, members: &[Member]) -> Option<MemberName> {
    let missing = members.iter().find(|member| member.is_needed()
        && line.get(member.text()).is_none())?;
    Some(missing.name())
}

/// A remark on a line or a frame that has a member too many or too few. If it has neither, the data of a frame doesn't have
/// its length.
fn whole_remark(
    alloc: Global,
    path: &str,
    line: Spot<'_>,
    members: &[Member],
) -> Result<Remark, AllocError> {
    if let Some(remark) = unknown_remark(alloc, path, line, members)? {
        return Ok(remark);
    }
    match missing_name(line.value, members) {
        Some(name) => remark_on_name(alloc, path, name.text(), "is missing", line.offset),
        None => {
            let wrong =
                ": \"data\" has not as many bytes as \"dlc\" says, or any in a remote frame";
            remark_at(alloc, path, wrong, line.offset)
        }
    }
}

/// A remark on a part of a line or frame that has these members.
fn part_remark(
    alloc: Global,
    path: &str,
    line: Spot<'_>,
    members: &[Member],
    part: Part,
    context: LineContext,
) -> Result<Remark, AllocError> {
    match part {
        Part::Whole => whole_remark(alloc, path, line, members),
        Part::Member(name) => {
            let kind = members
                .iter()
                .find(|member| member.name() == name)
                .map_or(Kind::Operation, Member::kind);
            member_remark(alloc, path, line, name, kind, context)
        }
        Part::Register(register) => register_remark(alloc, path, line, register),
    }
}

/// A remark on an offset: a path and what is wrong there.
fn remark_at(alloc: Global, path: &str, wrong: &str, offset: usize) -> Result<Remark, AllocError> {
    let text = joined(alloc, &[path, wrong])?;
    Ok(Remark { offset, text })
}

/// The frame of this index, in the member `send` of a round.
fn frame_spot(line: Spot<'_>, index: usize) -> Option<Spot<'_>> {
    let send = line.member("send")?;
    let value = send.value.as_array()?.get(index)?;
    let mut offset = send.offset;
    for _frame in 0..index {
        let (_begin, end) = item_after(line.text, offset);
        offset = end;
    }
    let (begin, _end) = item_after(line.text, offset);
    Some(Spot {
        value,
        text: line.text,
        offset: begin,
    })
}

/// A remark on the place in a line where its first fault is; the line's operation has these members.
pub(crate) fn line_remark(
    alloc: Global,
    path: &str,
    line: Spot<'_>,
    members: &[Member],
    place: LinePath,
    context: LineContext,
) -> Result<Remark, AllocError> {
    let Some(index) = place.frame else {
        return part_remark(alloc, path, line, members, place.part, context);
    };
    let frame = frame_spot(line, index).unwrap_or(line);
    let path = frame_path(alloc, path, index)?;
    part_remark(
        alloc,
        path.as_str(),
        frame,
        frame_row(),
        place.part,
        context,
    )
}

/// A remark on a line without an operation that its list knows.
pub(crate) fn operation_remark(
    alloc: Global,
    path: &str,
    line: Spot<'_>,
    wrong: &str,
) -> Result<Remark, AllocError> {
    if !line.value.is_object() {
        return remark_on(alloc, path, line, "is not an object");
    }
    match line.member("op") {
        Some(op) => {
            let path = joined(alloc, &[path, ".op"])?;
            remark_on(alloc, path.as_str(), op, wrong)
        }
        None => remark_at(alloc, path, ": \"op\" is missing", line.offset),
    }
}
