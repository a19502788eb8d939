ghost use Rattle.std.specs.Prelude.{◌≡◌, true, [], option_map, unwrap_or, Some, None};
ghost use Rattle.serde_json.specs.View.{view};
ghost use Rattle.ccan_object.specs.Profile.{Holds};
ghost use Rattle.ccan_line.specs.HostLine.{HostFits};
ghost use Rattle.ccan_script.specs.HostLine.{host_fault, host_fault_by, host_line_by, HostSays};
ghost use Rattle.ccan_script.specs.HostLine.{request_in, settings_of, until_in_range, until_of};

use crate::flag_line::flag_of_line;
use crate::host_op::{HostOp, host_op};
use crate::json::word_in;
use crate::line_context::LineContext;
use crate::line_fault::LineFault;
use crate::member::host_row;
use crate::member_name::MemberName;
use crate::members::{check_members, number_of};
use crate::register_set::settings_in;
use crate::script_line::ScriptLine;
use ccan_line::{HostLine, RegisterSet};
use ccan_object::{ObjectNo, Profile};
use serde_json::Value;

#[tactic(auto, unfolding(crate::specs::HostLine::request_in))]
fn request_in(line: &Value) -> Option<u16>
    ensures { result ≡ request_in (view line.now) }
{
    word_in(line.get("request")?)
}

/// What a line sets, nothing if it has no member for that.
#[tactic(auto, unfolding(crate::specs::HostLine::settings_of))]
fn settings_of(line: &Value) -> Option<RegisterSet>
    ensures { option_map (λ set. set.items) result ≡ settings_of (view line.now) }
{
    match line.get("set") {
        Some(set) => settings_in(set),
        None => Some(RegisterSet::new()),
    }
}

/// The same of a line without faults.
fn set_of(line: &Value) -> RegisterSet
    ensures { result.items ≡ unwrap_or (settings_of (view line.now)) [] }
{
    match settings_of(line) {
        Some(set) => set,
        None => RegisterSet::new(),
    }
}

/// The object of this number.
fn object_numbered(profile: Profile, number: u64) -> ObjectNo
    requires { Holds profile number }
    ensures { result ≡ number }
{
    ObjectNo::new(number as u8).unwrap()
}

/// The wait of a line whose numbers are in their ranges.
fn until_of(line: &Value, profile: Profile) -> HostLine
    requires { until_in_range profile (view line.now) ≡ true }
    ensures says { result ≡ until_of (view line.now) }
    ensures fits { HostFits profile result }
{
    HostLine::Until {
        object: object_numbered(profile, number_of(line, MemberName::Object)),
        flag: flag_of_line(line),
        turns: number_of(line, MemberName::Turns) as u32,
    }
}

/// The line of a value without faults.
#[tactic(auto, unfolding(crate::specs::HostLine::host_fault_by, crate::specs::HostLine::host_line_by))]
fn host_line(op: HostOp, line: &Value, profile: Profile) -> HostLine
    requires { host_fault_by profile (Some op) (view line.now) ≡ None }
    ensures says { result ≡ host_line_by (Some op) (view line.now) }
    ensures fits { HostFits profile result }
{
    match op {
        HostOp::Transfer => HostLine::Transfer {
            request: request_in(line).unwrap_or(0),
            set: set_of(line),
        },
        HostOp::Until => until_of(line, profile),
        HostOp::Interrupt => HostLine::Interrupt,
        HostOp::Flags => HostLine::Flags(flag_of_line(line)),
    }
}

impl ScriptLine for HostLine {
    ghost fault = { λ context. host_fault context.profile };

    ghost says = { HostSays };

    ghost fits = { λ context. HostFits context.profile };

    #[tactic(auto, unfolding(crate::specs::HostLine::host_fault_by))]
    fn read(value: &Value, context: LineContext) -> Result<HostLine, LineFault> {
        let Some(op) = host_op(value) else {
            return Err(LineFault::Shape);
        };
        let row = host_row(op);
        check_members(value, row, row, context)?;
        Ok(host_line(op, value, context.profile))
    }
}
