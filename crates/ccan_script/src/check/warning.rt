use crate::check::json_text::{Child, child_after};
use crate::check::member_remark::{member_path, remark_on, remark_on_name};
use crate::check::report::Remark;
use crate::check::spot::{Spot, joined};
use crate::line_context::LineContext;
use ccan_line::RegisterSet;
use ccan_object::{ObjectNo, Reg};
use std::alloc::{AllocError, Global};

/// The most members of an object that are searched for one that is named twice.
const MOST_COMPARED: usize = 64;

/// Whether a word of Arbitration 2 is that of a standard identifier, and has a bit of an extended one.
fn forgets_shift(word: u16) -> bool {
    word & 0x4000 == 0 && word & 0x0003 != 0
}

/// Adds a warning about a value that is in a member, or in a member of a member, of what has this path.
fn warn_of_member(
    alloc: Global,
    path: &str,
    member: &str,
    spot: Spot<'_>,
    words: &str,
    warnings: &mut Vec<Remark>,
) -> Result<(), AllocError> {
    let path = member_path(alloc, path, member)?;
    let remark = remark_on(alloc, path.as_str(), spot, words)?;
    warnings.push(remark)?;
    Ok(())
}

/// Adds a warning if the request means an object of another number.
fn warn_of_request(
    alloc: Global,
    path: &str,
    line: Spot<'_>,
    context: LineContext,
    request: u16,
    warnings: &mut Vec<Remark>,
) -> Result<(), AllocError> {
    let object = ObjectNo::from_request(context.profile, request).get();
    if u16::from(object) == request {
        return Ok(());
    }
    let Some(spot) = line.member("request") else {
        return Ok(());
    };
    let means = format!(in alloc; "means object {object}")?;
    warn_of_member(alloc, path, "request", spot, means.as_str(), warnings)
}

/// Adds a warning if a standard identifier wasn't shifted to its place.
fn warn_of_shift(
    alloc: Global,
    path: &str,
    line: Spot<'_>,
    set: &RegisterSet,
    warnings: &mut Vec<Remark>,
) -> Result<(), AllocError> {
    if !set.iter().any(|(register, word)| *register == Reg::Arb2 && forgets_shift(*word)) {
        return Ok(());
    }
    let Some(spot) = line.member("set").and_then(|set| set.member("arb2")) else {
        return Ok(());
    };
    let wrong = "has bits of an extended identifier: a standard one is shifted left by 2";
    warn_of_member(alloc, path, "set.arb2", spot, wrong, warnings)
}

/// The name of a member, as it is written between its quotes.
fn written_name(text: &[u8], child: Child) -> &[u8] {
    text.get(child.begin.saturating_add(1)..child.name_end.saturating_sub(1))
        .unwrap_or(&[])
}

/// Whether an object has a member of this name before an offset.
fn has_before(text: &[u8], object: usize, name: &[u8], before: usize) -> bool {
    let mut offset = object;
    for _member in 0..MOST_COMPARED {
        match child_after(text, offset) {
            Some(child) if child.begin < before => {
                if written_name(text, child) == name {
                    return true;
                }
                offset = child.end;
            }
            Some(_) | None => return false,
        }
    }
    false
}

/// Adds a warning for each member of an object that has the name of an earlier one.
pub(crate) fn warn_of_twice(
    alloc: Global,
    path: &str,
    object: Spot<'_>,
    warnings: &mut Vec<Remark>,
) -> Result<(), AllocError> {
    if !object.value.is_object() {
        return Ok(());
    }
    let mut offset = object.offset;
    for _member in 0..object.text.len() {
        let Some(child) = child_after(object.text, offset) else {
            return Ok(());
        };
        let name = written_name(object.text, child);
        if has_before(object.text, object.offset, name, child.begin) {
            let shown = str::from_utf8(name).unwrap_or("?");
            let twice = "stands twice, and the last one counts";
            warnings.push(remark_on_name(alloc, path, shown, twice, child.begin)?)?;
        }
        offset = child.end;
    }
    Ok(())
}

/// Adds what is rarely meant in a transfer.
pub(crate) fn warn_of_transfer(
    alloc: Global,
    path: &str,
    line: Spot<'_>,
    context: LineContext,
    request: u16,
    set: &RegisterSet,
    warnings: &mut Vec<Remark>,
) -> Result<(), AllocError> {
    warn_of_request(alloc, path, line, context, request, warnings)?;
    warn_of_shift(alloc, path, line, set, warnings)?;
    let Some(spot) = line.member("set") else {
        return Ok(());
    };
    let path = joined(alloc, &[path, ".set"])?;
    warn_of_twice(alloc, path.as_str(), spot, warnings)
}
