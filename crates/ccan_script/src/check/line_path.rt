//! Where in a line of a script a fault is.

ghost use Rattle.std.specs.Prelude.{◌≡◌, IfOk, Some, string_bytes};
ghost use Rattle.ccan_script.specs.RegisterSet.{register_name};
ghost use Rattle.ccan_script.specs.LinePath.{part_text, frame_text, path_text};

use crate::member_name::MemberName;
use ccan_object::Reg;
use std::alloc::{AllocError, Global};

/// The part of a line, or of a frame, that is at fault.
#[derive(Clone, Copy, Debug)]
pub(crate) enum Part {
    /// The line or the frame itself: it has a member too many or too few, or its members don't go together.
    Whole,
    Member(MemberName),
    /// A register of the member `set`.
    Register(Reg),
}

/// Where in a line a fault is.
#[derive(Clone, Copy, Debug)]
pub(crate) struct LinePath {
    /// The index of the frame in `send`, if the fault is in one.
    pub(crate) frame: Option<usize>,
    /// The part of that frame, or else of the line.
    pub(crate) part: Part,
}

/// The name of a register as a script has it.
pub(crate) fn register_text(register: Reg) -> &'static str
    ensures { result.now ≡ register_name register }
{
    match register {
        Reg::CMask => "cmask",
        Reg::Mask1 => "mask1",
        Reg::Mask2 => "mask2",
        Reg::Arb1 => "arb1",
        Reg::Arb2 => "arb2",
        Reg::Ctrl => "ctrl",
        Reg::DataA1 => "dataa1",
        Reg::DataA2 => "dataa2",
        Reg::DataB1 => "datab1",
        Reg::DataB2 => "datab2",
    }
}

/// The path of a part of what has this path.
pub(crate) fn part_path(alloc: Global, path: &str, part: Part) -> Result<String, AllocError>
    ensures { IfOk result (λ text. string_bytes text ≡ part_text path.now part) }
{
    match part {
        Part::Whole => format!(in alloc; "{path}"),
        Part::Member(name) => {
            let name = name.text();
            format!(in alloc; "{path}.{name}")
        }
        Part::Register(register) => {
            let register = register_text(register);
            format!(in alloc; "{path}.set.{register}")
        }
    }
}

/// The path of a frame of a line that has this path.
pub(crate) fn frame_path(alloc: Global, line: &str, index: usize) -> Result<String, AllocError>
    ensures { IfOk result (λ text. string_bytes text ≡ frame_text line.now (Some index)) }
{
    format!(in alloc; "{line}.send[{index}]")
}

/// The path of a place in a line that has this path.
pub(crate) fn place_path(alloc: Global, line: &str, place: LinePath) -> Result<String, AllocError>
    ensures { IfOk result (λ text. string_bytes text ≡ path_text line.now place) }
{
    match place.frame {
        None => part_path(alloc, line, place.part),
        Some(index) => {
            let frame = frame_path(alloc, line, index)?;
            part_path(alloc, frame.as_str(), place.part)
        }
    }
}
