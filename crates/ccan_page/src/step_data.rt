//! Steps as JSON.
ghost use Rattle.std.specs.Prelude.{◌≡◌, ◌++◌, OnOk, string_bytes};
ghost use Rattle.ccan_ram.specs.Port.{port_text};
ghost use Rattle.ccan_page.specs.Data.{frame_shown, later_objects, later_steps, object_named, objects_shown, objects_text, registers_shown, step_text, steps_text, things_text, words_text};

use crate::bytes::Bytes;
use crate::page::{Change, ObjectChange, SentFrame, Step};
use crate::record_data::{push_change, push_frame, push_object};
use ccan_object::ObjectNo;
use ccan_ram::PortName;
use std::alloc::AllocError;

/// The word for a port.
pub(crate) fn port_word(port: PortName) -> &'static str
    ensures { result.now ≡ port_text port }
{
    match port {
        PortName::If1 => "if1",
        PortName::If2 => "if2",
        PortName::Bus => "bus",
    }
}

/// Appends the number of the object that a step is about.
fn push_named(data: &mut Bytes, object: Option<ObjectNo>) -> Result<(), AllocError>
    ensures { OnOk result (data.new ≡ data.old ++ object_named object) }
{
    match object {
        Some(object) => data.push_number_member("object", u64::from(object.get())),
        None => Ok(()),
    }
}

/// Appends the frame of a step.
fn push_shown_frame(data: &mut Bytes, frame: &Option<SentFrame>) -> Result<(), AllocError>
    ensures { OnOk result (data.new ≡ data.old ++ frame_shown frame.now) }
{
    match frame {
        Some(sent) => {
            data.push_name("frame")?;
            push_frame(data, sent)
        }
        None => Ok(()),
    }
}

/// Appends the interface registers of a step.
fn push_registers(data: &mut Bytes, registers: &Option<Change>) -> Result<(), AllocError>
    ensures { OnOk result (data.new ≡ data.old ++ registers_shown registers.now) }
{
    match registers {
        Some(change) => {
            data.push_name("registers")?;
            data.push_str("{")?;
            push_change(data, change)?;
            data.push_str("}")
        }
        None => Ok(()),
    }
}

/// Appends the objects of a list, with a comma before each.
#[tactic(auto, unfolding(crate::specs::Data::later_objects))]
fn push_later_objects(data: &mut Bytes, objects: &[ObjectChange]) -> Result<(), AllocError>
    ensures { OnOk result (data.new ≡ data.old ++ later_objects objects.now) }
{
    for object in objects {
        data.push_str(",")?;
        push_object(data, object)?;
    }
    Ok(())
}

/// Appends the objects of a list, with a comma between two.
#[tactic(auto, unfolding(crate::specs::Data::objects_text))]
fn push_objects(data: &mut Bytes, objects: &[ObjectChange]) -> Result<(), AllocError>
    ensures { OnOk result (data.new ≡ data.old ++ objects_text objects.now) }
{
    if objects.is_empty() {
        return Ok(());
    }
    push_object(data, &objects[0])?;
    push_later_objects(data, &objects[1..])
}

/// Appends the objects that are shown with a step.
#[tactic(auto, unfolding(crate::specs::Data::objects_shown))]
fn push_shown_objects(data: &mut Bytes, objects: &[ObjectChange]) -> Result<(), AllocError>
    ensures { OnOk result (data.new ≡ data.old ++ objects_shown objects.now) }
{
    data.push_name("objects")?;
    data.push_str("[")?;
    push_objects(data, objects)?;
    data.push_str("]}")
}

/// Appends which line a step is of, and what is said of it.
#[tactic(auto, unfolding(crate::specs::Data::words_text))]
fn push_words(data: &mut Bytes, step: &Step) -> Result<(), AllocError>
    ensures { OnOk result (data.new ≡ data.old ++ words_text step.now) }
{
    data.push_str("{\"port\":\"")?;
    data.push_str(port_word(step.port))?;
    data.push_str("\"")?;
    data.push_number_member("line", step.line as u64)?;
    data.push_word("deed", step.deed.as_bytes())?;
    data.push_word("told", step.told.as_bytes())
}

/// Appends what a step has to do with.
#[tactic(auto, unfolding(crate::specs::Data::things_text))]
fn push_things(data: &mut Bytes, step: &Step) -> Result<(), AllocError>
    ensures { OnOk result (data.new ≡ data.old ++ things_text step.now) }
{
    push_named(data, step.object)?;
    push_shown_frame(data, &step.frame)?;
    push_registers(data, &step.registers)
}

/// Appends a step.
#[tactic(auto, unfolding(crate::specs::Data::step_text))]
fn push_step(data: &mut Bytes, step: &Step) -> Result<(), AllocError>
    ensures { OnOk result (data.new ≡ data.old ++ step_text step.now) }
{
    push_words(data, step)?;
    push_things(data, step)?;
    push_shown_objects(data, step.objects.as_slice())
}

/// Appends the steps of a list, with a comma before each.
#[tactic(auto, unfolding(crate::specs::Data::later_steps))]
fn push_later_steps(data: &mut Bytes, steps: &[Step]) -> Result<(), AllocError>
    ensures { OnOk result (data.new ≡ data.old ++ later_steps steps.now) }
{
    for step in steps {
        data.push_str(",\n")?;
        push_step(data, step)?;
    }
    Ok(())
}

/// Appends the steps of a list, with a comma between two.
#[tactic(auto, unfolding(crate::specs::Data::steps_text))]
pub fn push_steps(data: &mut Bytes, steps: &[Step]) -> Result<(), AllocError>
    ensures { OnOk result (data.new ≡ data.old ++ steps_text steps.now) }
{
    if steps.is_empty() {
        return Ok(());
    }
    push_step(data, &steps[0])?;
    push_later_steps(data, &steps[1..])
}
