//! What is rarely meant in several lines together, by the lines in their order.

use crate::check::json_text::item_after;
use crate::check::line_path::{Part, part_path, register_text};
use crate::check::member_remark::remark_on;
use crate::check::object_image::{flag_bit, lacks_end_of_buffer};
use crate::check::report::Remark;
use crate::check::script_image::{ScriptImage, TransferFinding};
use crate::check::spot::{Spot, joined};
use ccan_line::{HostLine, Script};
use ccan_object::Reg;
use ccan_ram::{Flag, PortName};
use serde_json::Value;
use std::alloc::{AllocError, Global};

/// The lines of a port in the text.
#[derive(Drop)]
struct PortText<'a> {
    text: &'a [u8],
    values: &'a [Value],
    /// Where each line begins.
    offsets: Vec<usize>,
}

/// The lines of the hosts in the text.
#[derive(Drop)]
struct ScriptText<'a> {
    if1: PortText<'a>,
    if2: PortText<'a>,
}

/// The lines of the list that a member of the script is, none if there is no such member.
fn port_text<'a>(alloc: Global, top: Spot<'a>, name: &str) -> Result<PortText<'a>, AllocError> {
    let mut offsets = Vec::new(alloc);
    let list = top.member(name).unwrap_or(top);
    let values = match list.value.as_array() {
        Some(values) => values.as_slice(),
        None => &[],
    };
    let mut offset = list.offset;
    for _line in values {
        let (begin, end) = item_after(list.text, offset);
        offsets.push(begin)?;
        offset = end;
    }
    Ok(PortText {
        text: top.text,
        values,
        offsets,
    })
}

impl<'a> ScriptText<'a> {
    /// The line of a host, by its index.
    fn line(&self, port: PortName, index: usize) -> Option<Spot<'a>> {
        let lines = match port {
            PortName::If1 => &self.if1,
            PortName::If2 => &self.if2,
            PortName::Bus => return None,
        };
        Some(Spot {
            value: lines.values.get(index)?,
            text: lines.text,
            offset: *lines.offsets.get(index)?,
        })
    }
}

/// Adds a warning about a line of a port.
fn warn_of_line(
    alloc: Global,
    text: &ScriptText<'_>,
    port: PortName,
    index: usize,
    words: &str,
    warnings: &mut Vec<Remark>,
) -> Result<(), AllocError> {
    let Some(line) = text.line(port, index) else {
        return Ok(());
    };
    let text = format!(in alloc; "{port}[{index}]: {words}")?;
    warnings.push(Remark {
        offset: line.offset,
        text,
    })?;
    Ok(())
}

/// Adds a warning about a register that a line sets, though its read overwrites it.
fn warn_of_overwritten(
    alloc: Global,
    text: &ScriptText<'_>,
    port: PortName,
    index: usize,
    register: Reg,
    warnings: &mut Vec<Remark>,
) -> Result<(), AllocError> {
    let line = text.line(port, index);
    let spot = line
        .and_then(|line| line.member("set"))
        .and_then(|set| set.member(register_text(register)));
    let Some(spot) = spot else {
        return Ok(());
    };
    let path = format!(in alloc; "{port}[{index}]")?;
    let path = part_path(alloc, path.as_str(), Part::Register(register))?;
    let wrong = "is overwritten by this read: WR/RD of the command mask is 0";
    warnings.push(remark_on(alloc, path.as_str(), spot, wrong)?)?;
    Ok(())
}

/// The names of these flags, as they are in Message Control.
fn flag_names(alloc: Global, flags: u16) -> Result<String, AllocError> {
    let mut names = String::new(alloc);
    let known = [
        ("NewDat", Flag::NewDat),
        ("MsgLst", Flag::MsgLst),
        ("IntPnd", Flag::IntPnd),
        ("TxRqst", Flag::TxRqst),
    ];
    for (name, flag) in known {
        if flags & flag_bit(flag) != 0 {
            if !names.is_empty() {
                names.push_str(" and ")?;
            }
            names.push_str(name)?;
        }
    }
    Ok(names)
}

/// Adds what was found in a transfer of a host.
fn warn_of_finding(
    alloc: Global,
    text: &ScriptText<'_>,
    port: PortName,
    index: usize,
    finding: TransferFinding,
    warnings: &mut Vec<Remark>,
) -> Result<(), AllocError> {
    let object = finding.object.get();
    if let Some(register) = finding.overwritten {
        warn_of_overwritten(alloc, text, port, index, register, warnings)?;
    }
    if finding.write.taken_back != 0 {
        let flags = flag_names(alloc, finding.write.taken_back)?;
        let words = format!(in alloc;
            "takes back {flags} of object {object}, which another port set and {port} has not looked at since"
        )?;
        warn_of_line(alloc, text, port, index, words.as_str(), warnings)?;
    }
    if finding.write.idle_request {
        let words = format!(in alloc;
            "requests a transmission of object {object}, which is not valid (MsgVal 0)"
        )?;
        warn_of_line(alloc, text, port, index, words.as_str(), warnings)?;
    }
    Ok(())
}

/// Adds what is rarely meant in a line of a host.
fn warn_of_host(
    alloc: Global,
    text: &ScriptText<'_>,
    image: &mut ScriptImage,
    port: PortName,
    index: usize,
    line: &HostLine,
    warnings: &mut Vec<Remark>,
) -> Result<(), AllocError> {
    if let HostLine::Transfer { request, set } = line {
        let finding = image.transfer(port, index, *request, set);
        return warn_of_finding(alloc, text, port, index, finding, warnings);
    }
    image.host_look(port, line);
    Ok(())
}

/// Adds what is rarely meant in the lines, as they run one after another.
fn warn_of_lines(
    alloc: Global,
    text: &ScriptText<'_>,
    script: &Script,
    image: &mut ScriptImage,
    warnings: &mut Vec<Remark>,
) -> Result<(), AllocError> {
    let mut next = [0usize; 3];
    for port in script.order.as_slice() {
        let index = next[port.index()];
        next[port.index()] = index.saturating_add(1);
        let host_line = match port {
            PortName::If1 => script.if1.get(index),
            PortName::If2 => script.if2.get(index),
            PortName::Bus => {
                if let Some(line) = script.bus.get(index) {
                    image.bus_line(line);
                }
                None
            }
        };
        if let Some(line) = host_line {
            warn_of_host(alloc, text, image, *port, index, line, warnings)?;
        }
    }
    Ok(())
}

/// Adds a warning for each valid object that is left without EoB, though no FIFO buffer goes on after it.
fn warn_of_buffers(
    alloc: Global,
    text: &ScriptText<'_>,
    image: &ScriptImage,
    warnings: &mut Vec<Remark>,
) -> Result<(), AllocError> {
    for (place, object) in image.objects.iter().enumerate() {
        let next = image.objects.get(place.saturating_add(1));
        if !lacks_end_of_buffer(object, next) {
            continue;
        }
        let Some((port, index)) = object.settings_line else {
            continue;
        };
        let number = place.saturating_add(1);
        let words = format!(in alloc;
            "leaves object {number} valid without EoB, but the next object is no part of the same FIFO buffer"
        )?;
        warn_of_line(alloc, text, port, index, words.as_str(), warnings)?;
    }
    Ok(())
}

/// Adds what is rarely meant in several lines of a script together.
pub(crate) fn warn_of_script(
    alloc: Global,
    top: Spot<'_>,
    script: &Script,
    warnings: &mut Vec<Remark>,
) -> Result<(), AllocError> {
    let text = ScriptText {
        if1: port_text(alloc, top, "if1")?,
        if2: port_text(alloc, top, "if2")?,
    };
    let mut image = ScriptImage::new(alloc, script.profile)?;
    warn_of_lines(alloc, &text, script, &mut image, warnings)?;
    warn_of_buffers(alloc, &text, &image, warnings)
}
